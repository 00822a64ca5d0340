//! The items that `reverse_each` comes to.

ghost use Rattle.std.specs.Prelude.{◌≡◌, ℕ, ℤ, List, [], ◌∷◌, length, map, Some, None};
ghost use Rattle.rb_value.specs.declared.value.Value.{Value};
ghost use Rattle.rb_value.specs.declared.value.Value.TheVariants.{Int, Obj};
ghost use Rattle.rb_value.specs.declared.value.ObjId.{ObjId};
ghost use Rattle.rb_value.specs.declared.hash.HashItem.{HashItem};
ghost use Rattle.def_core.specs.Parts.{elements_at};
ghost use Rattle.def_core.specs.Store.{next_number};
ghost use Rattle.rb_store.specs.Held.{Held};
ghost use Rattle.iter_items.specs.declared.source.Source.TheVariants as source;
ghost use Rattle.iter_items.specs.Sources.{byte_of, previous};
ghost use Rattle.items_laws.specs.Backwards.{before, elements_back, integers_back, last_back, pairs_back};
ghost use Rattle.items_laws.specs.Run.{Turn};
ghost use Rattle.items_laws.specs.Items.{Hands, last_heap, left_of};
ghost use Rattle.items_laws.specs.Numbers.{so_many};
ghost use Rattle.items_laws.specs.Read.{heaps_before};
ghost use Rattle.items_laws.specs.Texts.{so_many_bytes, texts_made};

/// From the last one back: of an Array the element before the one that came, or the last one where the Array has become shorter,
/// as it stands when the answer before has come, until none is before it; of a Hash a new Array of each pair that it had at the
/// start.
pub fn items_come_backwards()
    ensures elements { (held : Held) (a : ObjId) (n : ℕ) (ts : List Turn) (xs : List Value)
        → Hands previous held (source.Elements a n) ts xs → map Some xs ≡ elements_back a n (heaps_before held ts) }
    ensures end { (held : Held) (a : ObjId) (n : ℕ) (ts : List Turn) (xs : List Value)
        → Hands previous held (source.Elements a n) ts xs
        → (previous (last_heap held ts) (left_of previous held (source.Elements a n) ts)).item
        ≡ before (last_back a n (heaps_before held ts)) (elements_at (last_heap held ts).store.objects a) }
    ensures pairs { (held : Held) (ps : List HashItem) (n : ℕ) (ts : List Turn) (xs : List Value)
        → Hands previous held (source.Pairs ps n) ts xs → map Some xs ≡ pairs_back ps n (heaps_before held ts) }
{}

/// Of a Range one number after another from the last one back, or a new String of each byte, and all of them where none is left.
pub fn numbers_come_backwards()
    ensures integers { (held : Held) (z last : ℤ) (k : ℕ) (ts : List Turn) (xs : List Value)
        → Hands previous held (so_many z last k) ts xs → xs ≡ map (λ n. Int n) (integers_back last (length ts)) }
    ensures integers_end { (held : Held) (z last : ℤ) (k : ℕ) (ts : List Turn) (xs : List Value)
        → Hands previous held (so_many z last k) ts xs
        → (previous (last_heap held ts) (left_of previous held (so_many z last k) ts)).item ≡ None → length ts ≡ k }
    ensures bytes { (held : Held) (z last : ℤ) (k : ℕ) (ts : List Turn) (xs : List Value)
        → Hands previous held (so_many_bytes z last k) ts xs
        → xs ≡ map (λ h. Obj (next_number h.store)) (heaps_before held ts) }
    ensures texts { (held : Held) (z last : ℤ) (k : ℕ) (ts : List Turn) (xs : List Value)
        → Hands previous held (so_many_bytes z last k) ts xs → map (λ t. t.wanted.held) ts
        ≡ texts_made (map (λ n. byte_of n ∷ []) (integers_back last (length ts))) (heaps_before held ts) }
    ensures bytes_end { (held : Held) (z last : ℤ) (k : ℕ) (ts : List Turn) (xs : List Value)
        → Hands previous held (so_many_bytes z last k) ts xs
        → (previous (last_heap held ts) (left_of previous held (so_many_bytes z last k) ts)).item ≡ None
        → length ts ≡ k }
{}
