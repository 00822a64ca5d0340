//! What exceptions are raised, and what they tell of themselves.

ghost use Rattle.std.specs.Prelude.{◌≡◌, List, [], ◌∷◌, is_some, true, Option, Some};
ghost use Rattle.rb_value.specs.declared.value.Value.{Value};
ghost use Rattle.rb_value.specs.declared.value.Value.TheVariants.{Nil, Obj};
ghost use Rattle.rb_value.specs.declared.value.ObjId.{ObjId};
ghost use Rattle.rb_value.specs.declared.kind.Sort.TheVariants as sort;
ghost use Rattle.rb_value.specs.declared.core_class.CoreClass.TheVariants as class;
ghost use Rattle.def_core.specs.declared.cause.Cause.{Cause};
ghost use Rattle.def_core.specs.declared.cause.Cause.TheVariants as cause;
ghost use Rattle.def_core.specs.Store.{core, next_number};
ghost use Rattle.rb_store.specs.Held.{Held};
ghost use Rattle.heap.specs.Made.{with_exception};
ghost use Rattle.heap.specs.Reading.{sort_of_value};
ghost use Rattle.def_plans.specs.Plan.{Planned};
ghost use Rattle.run_rows.specs.declared.row.KernelRow.TheVariants as kernel;
ghost use Rattle.run_rows.specs.declared.row.StarRow.TheVariants as row;
ghost use Rattle.core_iter.specs.Rows.{Starts};
ghost use Rattle.core_iter.specs.Stage.{Stage};
ghost use Rattle.core_iter.specs.Telling.{other_object};
ghost use Rattle.items_laws.specs.Run.{Turn, Runs, Gives, waiting};
ghost use Rattle.items_laws.specs.Raised.{AtOnce, IsAgain, IsAnswered, IsInspected, IsMade, IsRefused, IsTold, IsUntold, Throws};

/// `raise` gives no value. Of an exception it raises that, or, where a message follows, a copy that has this one; of a String
/// a new RuntimeError with that message; of a class what `new` of it answers to the arguments that follow, which is an
/// exception. Without arguments it fails, since nothing is handled.
pub fn exceptions_are_raised()
    ensures never { (held after : Held) (recv v : Value) (args : List Value) (block : Option ObjId) (ts : List Turn)
        → Gives (row.Kernel kernel.Raise) held recv args block ts v after → ⊥ }
    ensures exception { (held after : Held) (recv : Value) (e f : ObjId) (block : Option ObjId) (ts : List Turn)
        → sort_of_value held.store (Obj e) ≡ Some sort.Exception
        → Throws (row.Kernel kernel.Raise) held recv (Obj e ∷ []) block ts f after → AtOnce ts f e after held }
    ensures message { (held after : Held) (recv x m : Value) (f : ObjId) (block : Option ObjId) (ts : List Turn)
        → sort_of_value held.store x ≡ Some sort.Exception
        → Throws (row.Kernel kernel.Raise) held recv (x ∷ m ∷ []) block ts f after → IsAgain held x m ts f after }
    ensures text { (held after : Held) (recv x : Value) (f : ObjId) (block : Option ObjId) (ts : List Turn)
        → sort_of_value held.store x ≡ Some sort.String
        → Throws (row.Kernel kernel.Raise) held recv (x ∷ []) block ts f after
        → AtOnce ts f (next_number held.store) after (with_exception held (core class.RuntimeError) x Nil) }
    ensures class { (held after : Held) (recv x : Value) (more : List Value) (f : ObjId) (block : Option ObjId)
        (ts : List Turn) → sort_of_value held.store x ≡ Some sort.Class
        → Throws (row.Kernel kernel.Raise) held recv (x ∷ more) block ts f after
        → IsMade held x more ts (IsAnswered f after) }
    ensures unhandled { (held after : Held) (recv : Value) (block : Option ObjId) (c : Cause) (ts : List Turn)
        → IsRefused (row.Kernel kernel.Raise) held recv [] block ts c after
        → (ts ≡ []) × (c ≡ cause.Unhandled) × (after ≡ held) }
{}

/// `message` of an exception: it is asked for `to_s`, and its answer is given; but where it was made with an object that is no
/// String, and answers that, this is asked for `to_s` in its turn. `inspect`: the same, and a new String of the name of its
/// class and of what was said.
pub fn exceptions_are_told()
    ensures message { (held after : Held) (recv v : Value) (block : Option ObjId) (ts : List Turn)
        → Gives (row.Kernel kernel.Message) held recv [] block ts v after
        → IsTold (is_some (other_object held.store recv)) held recv ts v after }
    ensures inspect { (held after : Held) (recv v : Value) (block : Option ObjId) (ts : List Turn)
        → Gives (row.Kernel kernel.InspectException) held recv [] block ts v after → IsInspected held recv ts v after }
{}

/// The same where what is asked never answers: the exception, or then that object, and nothing else was asked before.
pub fn exceptions_are_untold()
    ensures message { (held : Held) (recv : Value) (block : Option ObjId) (ts : List Turn) (first last : Planned Stage)
        (s : Stage) → Starts (row.Kernel kernel.Message) held recv [] block first → Runs first ts last
        → waiting last.plan ≡ Some s → IsUntold (is_some (other_object held.store recv)) held recv ts last }
    ensures inspect { (held : Held) (recv : Value) (block : Option ObjId) (ts : List Turn) (first last : Planned Stage)
        (s : Stage) → Starts (row.Kernel kernel.InspectException) held recv [] block first → Runs first ts last
        → waiting last.plan ≡ Some s → IsUntold true held recv ts last }
{}
