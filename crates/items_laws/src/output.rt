//! What goes out, and what comes in.

ghost use Rattle.std.specs.Prelude.{◌≡◌, ◌<◌, ◌^◌, List, [], ◌∷◌, length, codes, Option, Some};
ghost use Rattle.rb_value.specs.declared.value.Value.{Value};
ghost use Rattle.rb_value.specs.declared.value.Value.TheVariants.{Nil};
ghost use Rattle.rb_value.specs.declared.value.ObjId.{ObjId};
ghost use Rattle.rb_store.specs.Held.{Held};
ghost use Rattle.core_calls.specs.Flat.{flattened};
ghost use Rattle.core_calls.specs.declared.flattening.Empty.TheVariants.{Vanishes};
ghost use Rattle.def_plans.specs.Plan.{Planned};
ghost use Rattle.run_rows.specs.declared.row.KernelRow.TheVariants as kernel;
ghost use Rattle.run_rows.specs.declared.row.StarRow.TheVariants as row;
ghost use Rattle.core_iter.specs.Rows.{Starts};
ghost use Rattle.core_iter.specs.Stage.{Stage};
ghost use Rattle.core_iter.specs.Writing.{line};
ghost use Rattle.items_laws.specs.Run.{Turn, Runs, Gives, waiting};
ghost use Rattle.items_laws.specs.Items.{IsValue};
ghost use Rattle.items_laws.specs.Output.{GoesOut, IsAllOf, IsCutShort, is_nil, itself, nobody, with_newline};

/// `print`: each argument is asked for `to_s`, and the texts go out, one behind the other; nil is given. `p`: each is asked
/// for `inspect`, and its text and a newline go out; nil is given, or the argument, or a new Array of them. `puts`: each
/// element of nested Arrays, and each other argument, but nil is asked for `to_s`, and its text goes out, and a newline
/// unless it ends with one; of nil, and without arguments, a newline; nil is given.
pub fn lines_go_out()
    ensures print { (held after : Held) (recv v : Value) (args : List Value) (block : Option ObjId) (ts : List Turn)
        → length args < 2 ^ 64 → Gives (row.Kernel kernel.Print) held recv args block ts v after
        → GoesOut (codes "to_s") nobody itself held args ts (λ h. IsValue h Nil v after) }
    ensures p { (held after : Held) (recv v : Value) (args : List Value) (block : Option ObjId) (ts : List Turn)
        → length args < 2 ^ 64 → Gives (row.Kernel kernel.Inspect) held recv args block ts v after
        → GoesOut (codes "inspect") nobody with_newline held args ts (λ h. IsAllOf args h v after) }
    ensures puts { (held after : Held) (recv x v : Value) (xs values : List Value) (block : Option ObjId) (ts : List Turn)
        → flattened Vanishes held.store (x ∷ xs) ≡ Some values → length values < 2 ^ 64
        → Gives (row.Kernel kernel.Puts) held recv (x ∷ xs) block ts v after
        → GoesOut (codes "to_s") is_nil line held values ts (λ h. IsValue h Nil v after) }
    ensures newline { (held after : Held) (recv v : Value) (block : Option ObjId) (ts : List Turn)
        → Gives (row.Kernel kernel.Puts) held recv [] block ts v after
        → GoesOut (codes "to_s") is_nil line held (Nil ∷ []) ts (λ h. IsValue h Nil v after) }
{}

/// The same where a value never answers, by an exception or an exit, or the writing fails: the lines of the values before it
/// have gone out, and nothing else.
pub fn lines_are_cut_short()
    ensures print { (held : Held) (recv : Value) (args : List Value) (block : Option ObjId) (ts : List Turn)
        (first last : Planned Stage) (s : Stage) → length args < 2 ^ 64
        → Starts (row.Kernel kernel.Print) held recv args block first → Runs first ts last
        → waiting last.plan ≡ Some s → IsCutShort (codes "to_s") nobody itself held args ts last }
    ensures p { (held : Held) (recv : Value) (args : List Value) (block : Option ObjId) (ts : List Turn)
        (first last : Planned Stage) (s : Stage) → length args < 2 ^ 64
        → Starts (row.Kernel kernel.Inspect) held recv args block first → Runs first ts last
        → waiting last.plan ≡ Some s → IsCutShort (codes "inspect") nobody with_newline held args ts last }
    ensures puts { (held : Held) (recv x : Value) (xs values : List Value) (block : Option ObjId) (ts : List Turn)
        (first last : Planned Stage) (s : Stage) → flattened Vanishes held.store (x ∷ xs) ≡ Some values
        → length values < 2 ^ 64 → Starts (row.Kernel kernel.Puts) held recv (x ∷ xs) block first → Runs first ts last
        → waiting last.plan ≡ Some s → IsCutShort (codes "to_s") is_nil line held values ts last }
{}
