//! What text comes of methods that put together the texts of many values, which are asked for them one after another.

ghost use Rattle.std.specs.Prelude.{◌≡◌, ℕ, ◌<◌, ◌^◌, List, [], ◌∷◌, length, codes, Option, Some};
ghost use Rattle.rb_value.specs.declared.value.Value.{Value};
ghost use Rattle.rb_value.specs.declared.value.ObjId.{ObjId};
ghost use Rattle.def_core.specs.Parts.{elements_at};
ghost use Rattle.def_calls.specs.Views.{an_array, a_hash, kind_in, string_of};
ghost use Rattle.rb_store.specs.Held.{Held};
ghost use Rattle.core_calls.specs.Flat.{flattened};
ghost use Rattle.core_calls.specs.declared.flattening.Empty.TheVariants.{Stays};
ghost use Rattle.iter_comparing.specs.declared.row.ComparingRow.TheVariants as comparing_row;
ghost use Rattle.iter_comparing.specs.Hashes.{items, pairs};
ghost use Rattle.iter_items.specs.declared.row.ItemsRow.TheVariants as items_row;
ghost use Rattle.run_rows.specs.declared.row.StarRow.TheVariants as row;
ghost use Rattle.items_laws.specs.Run.{Turn, Gives};
ghost use Rattle.items_laws.specs.Compared.{element};
ghost use Rattle.items_laws.specs.Written.{IsJoined, IsText, IsWritten, between, enclosed, part_of};

/// `inspect` and `to_s` of an Array: each element is asked for `inspect`, as it stands then; a new String of their texts with
/// commas between them, in brackets. Of a Hash: each key and each value that it had at the start, in turn; `=>` stands before
/// a value, a comma before a later key.
pub fn values_are_written()
    ensures array { (held after : Held) (recv v : Value) (a : ObjId) (block : Option ObjId) (ts : List Turn)
        → an_array held.store.objects recv ≡ Some a
        → Gives (row.Items (items_row.Compares comparing_row.ArrayText)) held recv [] block ts v after
        → IsWritten (codes "inspect") (element a) held ts
        (λ h parts. IsText h (enclosed (codes "[") (codes "]") (between (codes ", ") (codes ", ") parts)) v after) }
    ensures hash { (held after : Held) (recv v : Value) (h : ObjId) (block : Option ObjId) (ts : List Turn)
        → a_hash held.store.objects recv ≡ Some h
        → Gives (row.Items (items_row.Compares comparing_row.HashText)) held recv [] block ts v after
        → IsWritten (codes "inspect") (part_of (items (pairs held.store h))) held ts (λ k parts. length parts < 2 ^ 64
        → IsText k (enclosed (codes "{") (codes "}") (between (codes "=>") (codes ", ") parts)) v after) }
{}

/// `join` of an Array: of its pieces, which are the elements of nested Arrays and the Arrays that have none. A String is a
/// text itself, as it stands then, an empty Array is none, and another piece is asked for `to_s`; a new String of the texts,
/// with the separator between them.
pub fn pieces_are_joined()
    ensures alone { (held after : Held) (recv v : Value) (a : ObjId) (pieces : List Value) (block : Option ObjId)
        (ts : List Turn) → an_array held.store.objects recv ≡ Some a
        → flattened Stays held.store (elements_at held.store.objects a) ≡ Some pieces → length pieces < 2 ^ 64
        → Gives (row.Items (items_row.Compares comparing_row.ArrayJoin)) held recv [] block ts v after
        → IsJoined (codes "to_s") held pieces [] ts v after }
    ensures separated { (held after : Held) (recv y v : Value) (a : ObjId) (pieces : List Value) (separator : List ℕ)
        (block : Option ObjId) (ts : List Turn) → an_array held.store.objects recv ≡ Some a
        → string_of (kind_in held.store.objects y) ≡ Some separator
        → flattened Stays held.store (elements_at held.store.objects a) ≡ Some pieces → length pieces < 2 ^ 64
        → Gives (row.Items (items_row.Compares comparing_row.ArrayJoin)) held recv (y ∷ []) block ts v after
        → IsJoined (codes "to_s") held pieces separator ts v after }
{}
