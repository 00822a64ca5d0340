//! Methods of Enumerators and Yielders.

ghost use Rattle.std.specs.Prelude.{◌≡◌, true, false, List, [], ◌∷◌, Option, Some, None};
ghost use Rattle.rb_value.specs.declared.value.Value.{Value};
ghost use Rattle.rb_value.specs.declared.value.Value.TheVariants.{Obj};
ghost use Rattle.rb_value.specs.declared.value.ObjId.{ObjId};
ghost use Rattle.rb_value.specs.declared.value.SymId.{SymId};
ghost use Rattle.rb_value.specs.declared.kind.EnumeratorSource.TheVariants as enumerator_source;
ghost use Rattle.def_core.specs.Store.{next_number, object_at};
ghost use Rattle.def_calls.specs.Views.{kind_in};
ghost use Rattle.heap.specs.Changes.{with_cursor};
ghost use Rattle.heap.specs.Made.{number_for, with_yielder};
ghost use Rattle.heap.specs.Reading.{source_in, yielder_in};
ghost use Rattle.heap.specs.declared.enumerators.Cursor.{Cursor};
ghost use Rattle.rb_store.specs.Held.{Held};
ghost use Rattle.iter_enumerators.specs.declared.row.EnumeratorRow.TheVariants as enumerator_row;
ghost use Rattle.iter_enumerators.specs.Items.{cursor_at, item_at, passed, with_begun};
ghost use Rattle.iter_enumerators.specs.Rows.{an_enumerator};
ghost use Rattle.iter_enumerators.specs.Sources.{alone};
ghost use Rattle.iter_items.specs.declared.row.ItemsRow.TheVariants as items_row;
ghost use Rattle.run_rows.specs.declared.row.StarRow.TheVariants as row;
ghost use Rattle.items_laws.specs.Enumerated.{TakesItem, rewound, with_source};
ghost use Rattle.items_laws.specs.Handed.{HandsOn, always_that, as_answered, call_in, message_in};
ghost use Rattle.items_laws.specs.Items.{IsValue};
ghost use Rattle.items_laws.specs.Run.{Turn, Gives};

/// `next` and `peek` where an item has come that wasn't given yet: it is given, and leaves the Enumerator or stays. `rewind`: the
/// Enumerator has a new Array for its items, and no fiber, and is given.
pub fn items_are_held_back()
    ensures next { (held after : Held) (recv v x : Value) (e : ObjId) (c : Cursor) (block : Option ObjId)
        (ts : List Turn) → an_enumerator held.store.objects recv ≡ Some e → cursor_at held e ≡ Some c
        → item_at held c ≡ Some x
        → Gives (row.Items (items_row.Enumerates enumerator_row.Next)) held recv [] block ts v after
        → (ts ≡ []) × IsValue (with_cursor held e (passed c)) x v after }
    ensures peek { (held after : Held) (recv v x : Value) (e : ObjId) (c : Cursor) (block : Option ObjId)
        (ts : List Turn) → an_enumerator held.store.objects recv ≡ Some e → cursor_at held e ≡ Some c
        → item_at held c ≡ Some x
        → Gives (row.Items (items_row.Enumerates enumerator_row.Peek)) held recv [] block ts v after
        → (ts ≡ []) × IsValue held x v after }
    ensures rewind { (held after : Held) (recv v : Value) (e : ObjId) (block : Option ObjId) (ts : List Turn)
        → an_enumerator held.store.objects recv ≡ Some e
        → Gives (row.Items (items_row.Enumerates enumerator_row.Rewind)) held recv [] block ts v after
        → (ts ≡ []) × IsValue (rewound held e) (Obj e) v after }
{}

/// `next` and `peek` where no item is held back and the end hasn't come: the fiber of the Enumerator is resumed, or, where it has
/// none, a new one that calls its source, and what that gives is given.
pub fn items_come_from_the_source()
    ensures next { (held after : Held) (recv v : Value) (e fiber : ObjId) (c : Cursor) (block : Option ObjId)
        (ts : List Turn) → an_enumerator held.store.objects recv ≡ Some e → cursor_at held e ≡ Some c
        → item_at held c ≡ None → c.result ≡ None → c.fiber ≡ Some fiber
        → Gives (row.Items (items_row.Enumerates enumerator_row.Next)) held recv [] block ts v after
        → TakesItem held e fiber true ts v after }
    ensures peek { (held after : Held) (recv v : Value) (e fiber : ObjId) (c : Cursor) (block : Option ObjId)
        (ts : List Turn) → an_enumerator held.store.objects recv ≡ Some e → cursor_at held e ≡ Some c
        → item_at held c ≡ None → c.result ≡ None → c.fiber ≡ Some fiber
        → Gives (row.Items (items_row.Enumerates enumerator_row.Peek)) held recv [] block ts v after
        → TakesItem held e fiber false ts v after }
    ensures first_next { (held after : Held) (recv v : Value) (e fiber : ObjId) (c : Cursor) (block : Option ObjId)
        (ts : List Turn) → an_enumerator held.store.objects recv ≡ Some e → cursor_at held e ≡ Some c
        → item_at held c ≡ None → c.result ≡ None → c.fiber ≡ None
        → number_for (with_source held e).store (next_number held.store) ≡ Some fiber
        → Gives (row.Items (items_row.Enumerates enumerator_row.Next)) held recv [] block ts v after
        → TakesItem (with_begun (with_source held e) e c (next_number held.store)) e fiber true ts v after }
    ensures first_peek { (held after : Held) (recv v : Value) (e fiber : ObjId) (c : Cursor) (block : Option ObjId)
        (ts : List Turn) → an_enumerator held.store.objects recv ≡ Some e → cursor_at held e ≡ Some c
        → item_at held c ≡ None → c.result ≡ None → c.fiber ≡ None
        → number_for (with_source held e).store (next_number held.store) ≡ Some fiber
        → Gives (row.Items (items_row.Enumerates enumerator_row.Peek)) held recv [] block ts v after
        → TakesItem (with_begun (with_source held e) e c (next_number held.store)) e fiber false ts v after }
{}

/// `each` of an Enumerator: its source is called, a Proc with a new Yielder that gives to the block, or the method of its receiver
/// with the block, and what that answers is given. `<<` and `yield` of a Yielder: its Proc is called with the arguments, and the
/// Yielder, or the answer, is given.
pub fn sources_are_called()
    ensures block { (held after : Held) (recv v : Value) (e b p : ObjId) (ts : List Turn)
        → an_enumerator held.store.objects recv ≡ Some e
        → source_in (object_at held.store.objects e).kind ≡ Some (enumerator_source.Block p)
        → Gives (row.Items (items_row.Enumerates enumerator_row.Each)) held recv [] (Some b) ts v after
        → HandsOn (λ q. call_in q ≡ Some (p, alone (number_for held.store b), None)) (with_yielder held b).store
        as_answered ts v after }
    ensures method { (held after : Held) (recv v x : Value) (e b : ObjId) (name : SymId) (args : List Value)
        (ts : List Turn) → an_enumerator held.store.objects recv ≡ Some e
        → source_in (object_at held.store.objects e).kind ≡ Some (enumerator_source.Call x name args)
        → Gives (row.Items (items_row.Enumerates enumerator_row.Each)) held recv [] (Some b) ts v after
        → HandsOn (λ q. message_in q ≡ Some (x, name, args, Some b, false)) held.store as_answered ts v after }
    ensures put { (held after : Held) (recv x v : Value) (p : ObjId) (block : Option ObjId) (ts : List Turn)
        → yielder_in (kind_in held.store.objects recv) ≡ Some p
        → Gives (row.Items (items_row.Enumerates enumerator_row.Put)) held recv (x ∷ []) block ts v after
        → HandsOn (λ q. call_in q ≡ Some (p, x ∷ [], None)) held.store (always_that recv) ts v after }
    ensures yields { (held after : Held) (recv v : Value) (p : ObjId) (args : List Value) (block : Option ObjId)
        (ts : List Turn) → yielder_in (kind_in held.store.objects recv) ≡ Some p
        → Gives (row.Items (items_row.Enumerates enumerator_row.Yield)) held recv args block ts v after
        → HandsOn (λ q. call_in q ≡ Some (p, args, None)) held.store as_answered ts v after }
{}
