//! What comes of methods that want one thing alone.

ghost use Rattle.std.specs.Prelude.{◌≡◌, List, [], ◌∷◌, true, false, codes, Option, Some, None, Ok};
ghost use Rattle.rb_value.specs.declared.value.Value.{Value};
ghost use Rattle.rb_value.specs.declared.value.Value.TheVariants.{Obj};
ghost use Rattle.rb_value.specs.declared.value.ObjId.{ObjId};
ghost use Rattle.rb_value.specs.declared.value.SymId.{SymId};
ghost use Rattle.rb_value.specs.declared.kind.Sort.TheVariants as sort;
ghost use Rattle.def_core.specs.Store.{next_number};
ghost use Rattle.def_calls.specs.Views.{a_fiber, a_proc};
ghost use Rattle.rb_store.specs.Held.{Held};
ghost use Rattle.heap.specs.declared.making.Blank.{Blank};
ghost use Rattle.heap.specs.Made.{with_blank};
ghost use Rattle.heap.specs.Reading.{sort_of_value};
ghost use Rattle.core_calls.specs.Checks.{name_in};
ghost use Rattle.def_plans.specs.Plan.{Planned};
ghost use Rattle.core_iter.specs.Making.{blank_for};
ghost use Rattle.run_rows.specs.declared.row.KernelRow.{KernelRow};
ghost use Rattle.run_rows.specs.declared.row.KernelRow.TheVariants as kernel;
ghost use Rattle.run_rows.specs.declared.row.StarRow.TheVariants as row;
ghost use Rattle.core_iter.specs.Rows.{Starts};
ghost use Rattle.core_iter.specs.Stage.{Stage};
ghost use Rattle.items_laws.specs.Run.{Turn, Runs, Gives, waiting};
ghost use Rattle.items_laws.specs.Asked.{symbol, with_symbol};
ghost use Rattle.items_laws.specs.Handed.{HandsOn, always_that, as_answered, call_in, is_read, message_in, resumed_in, wants_one, yielded_in};

/// `call`, `()`, `[]`, `yield` and `===` of a Proc: it is called with the arguments and the block, and what it answers is
/// given. `tap` and `then`: the block is called with the receiver, and that, or the answer, is given. `send`, `__send__` and
/// `public_send`: the receiver is sent the message of that name with the other arguments and the block, and the answer is
/// given. `new`: a new object is sent `initialize` with the arguments and the block, and is given, whatever that answers.
pub fn answers_are_handed_on()
    ensures proc { (held after : Held) (recv v : Value) (p : ObjId) (args : List Value) (block : Option ObjId)
        (ts : List Turn) → a_proc held.store.objects recv ≡ Some p
        → Gives (row.Kernel kernel.CallProc) held recv args block ts v after
        → HandsOn (λ q. call_in q ≡ Some (p, args, block)) held.store as_answered ts v after }
    ensures tap { (held after : Held) (recv v : Value) (b : ObjId) (ts : List Turn)
        → Gives (row.Kernel kernel.Tap) held recv [] (Some b) ts v after
        → HandsOn (λ q. call_in q ≡ Some (b, recv ∷ [], None)) held.store (always_that recv) ts v after }
    ensures then { (held after : Held) (recv v : Value) (b : ObjId) (ts : List Turn)
        → Gives (row.Kernel kernel.Then) held recv [] (Some b) ts v after
        → HandsOn (λ q. call_in q ≡ Some (b, recv ∷ [], None)) held.store as_answered ts v after }
    ensures send { (held after : Held) (recv n v : Value) (args : List Value) (block : Option ObjId) (name : SymId)
        (ts : List Turn) → (name_in held.store n).name ≡ Ok name
        → Gives (row.Kernel kernel.Send) held recv (n ∷ args) block ts v after
        → HandsOn (λ q. message_in q ≡ Some (recv, name, args, block, false)) (name_in held.store n).store as_answered ts v
        after }
    ensures public_send { (held after : Held) (recv n v : Value) (args : List Value) (block : Option ObjId) (name : SymId)
        (ts : List Turn) → (name_in held.store n).name ≡ Ok name
        → Gives (row.Kernel kernel.PublicSend) held recv (n ∷ args) block ts v after
        → HandsOn (λ q. message_in q ≡ Some (recv, name, args, block, true)) (name_in held.store n).store as_answered ts v
        after }
    ensures new { (held after : Held) (c : ObjId) (v : Value) (k : Blank) (args : List Value) (block : Option ObjId)
        (ts : List Turn) → sort_of_value held.store (Obj c) ≡ Some sort.Class → blank_for held.store c ≡ Some k
        → Gives (row.Kernel kernel.NewObject) held (Obj c) args block ts v after
        → HandsOn (λ q. message_in q
        ≡ Some (Obj (next_number held.store), symbol (codes "initialize") (with_blank held c k), args, block, false))
        (with_symbol (codes "initialize") (with_blank held c k)).store (always_that (Obj (next_number held.store))) ts v
        after }
{}

/// The Proc of a Symbol: its first argument is sent the message of that name with the others and the block. `resume`: the
/// fiber goes on with the arguments, and what it yields then, or gives at its end, is given. `Fiber.yield`: the arguments are
/// handed out, and what the next `resume` hands in is given. `gets`: a line is read and given, or nil where none is left.
pub fn answers_come_from_elsewhere()
    ensures symbol { (held after : Held) (recv x v : Value) (args : List Value) (block : Option ObjId) (name : SymId)
        (ts : List Turn) → (name_in held.store recv).name ≡ Ok name
        → Gives (row.Kernel kernel.SendKept) held recv (x ∷ args) block ts v after
        → HandsOn (λ q. message_in q ≡ Some (x, name, args, block, false)) (name_in held.store recv).store as_answered ts v
        after }
    ensures resume { (held after : Held) (recv v : Value) (f : ObjId) (args : List Value) (block : Option ObjId)
        (ts : List Turn) → a_fiber held.store.objects recv ≡ Some f
        → Gives (row.Kernel kernel.Resume) held recv args block ts v after
        → HandsOn (λ q. resumed_in q ≡ Some (f, args)) held.store as_answered ts v after }
    ensures yields { (held after : Held) (recv v : Value) (args : List Value) (block : Option ObjId) (ts : List Turn)
        → Gives (row.Kernel kernel.Yield) held recv args block ts v after
        → HandsOn (λ q. yielded_in q ≡ Some args) held.store as_answered ts v after }
    ensures line { (held after : Held) (recv v : Value) (block : Option ObjId) (ts : List Turn)
        → Gives (row.Kernel kernel.Gets) held recv [] block ts v after
        → HandsOn (λ q. is_read q ≡ true) held.store as_answered ts v after }
{}

/// Where what such a method wants never comes, nothing has come before: that is the first thing that it wanted.
pub fn the_first_thing_is_awaited()
    ensures { (held : Held) (recv : Value) (r : KernelRow) (args : List Value) (block : Option ObjId) (ts : List Turn)
        (first last : Planned Stage) (s : Stage) → wants_one r ≡ true
        → Starts (row.Kernel r) held recv args block first → Runs first ts last → waiting last.plan ≡ Some s
        → (ts ≡ []) × (last ≡ first) }
{}
