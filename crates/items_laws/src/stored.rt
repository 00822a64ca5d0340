//! What stands in Hashes and Arrays.

ghost use Rattle.std.specs.Prelude.{◌≡◌, ℕ, pos, true, List, [], ◌∷◌, get_or, Option, Some, None, Ok};
ghost use Rattle.rb_value.specs.declared.value.Value.{Value};
ghost use Rattle.rb_value.specs.declared.value.Value.TheVariants.{Nil, Obj};
ghost use Rattle.rb_value.specs.declared.value.ObjId.{ObjId};
ghost use Rattle.rb_value.specs.declared.hash.HashItem.{HashItem};
ghost use Rattle.def_core.specs.declared.cause.Cause.{Cause};
ghost use Rattle.def_core.specs.Parts.{elements_at, hash_at};
ghost use Rattle.def_calls.specs.Views.{a_hash, an_array};
ghost use Rattle.rb_store.specs.Held.{Held};
ghost use Rattle.heap.specs.Operands.{has, own, own_block};
ghost use Rattle.core_calls.specs.Checks.{integer};
ghost use Rattle.iter_comparing.specs.declared.row.ComparingRow.TheVariants as comparing_row;
ghost use Rattle.iter_comparing.specs.Repeating.{repeated};
ghost use Rattle.iter_items.specs.declared.row.ItemsRow.TheVariants as items_row;
ghost use Rattle.run_rows.specs.declared.row.StarRow.TheVariants as row;
ghost use Rattle.run_rows.specs.declared.row.VisitRow.TheVariants as visit;
ghost use Rattle.core_iter.specs.Filling.{size_in};
ghost use Rattle.items_laws.specs.Run.{Turn, Gives};
ghost use Rattle.items_laws.specs.Handed.{HandsOn, as_answered, call_in};
ghost use Rattle.items_laws.specs.Items.{IsArrayOf, IsValue};
ghost use Rattle.items_laws.specs.Raised.{IsRefused};
ghost use Rattle.items_laws.specs.Stored.{IsLacking, looked_up};

/// `[]` of a Hash: the value under a key; where there is none the default, or, where the Hash has a Proc, what that answers to
/// the Hash and the key.
pub fn values_stand_under_keys()
    ensures there { (held after : Held) (recv key v : Value) (h : ObjId) (item : HashItem) (block : Option ObjId)
        (ts : List Turn) → a_hash held.store.objects recv ≡ Some h → looked_up held.store h key ≡ Some (Some item)
        → Gives (row.Items (items_row.Compares comparing_row.HashElement)) held recv (key ∷ []) block ts v after
        → (ts ≡ []) × IsValue held item.value v after }
    ensures default { (held after : Held) (recv key v : Value) (h : ObjId) (block : Option ObjId) (ts : List Turn)
        → a_hash held.store.objects recv ≡ Some h → looked_up held.store h key ≡ Some None
        → (hash_at held.store.objects h).block ≡ None
        → Gives (row.Items (items_row.Compares comparing_row.HashElement)) held recv (key ∷ []) block ts v after
        → (ts ≡ []) × IsValue held (hash_at held.store.objects h).default v after }
    ensures block { (held after : Held) (recv key v : Value) (h b : ObjId) (block : Option ObjId) (ts : List Turn)
        → a_hash held.store.objects recv ≡ Some h → looked_up held.store h key ≡ Some None
        → (hash_at held.store.objects h).block ≡ Some b
        → Gives (row.Items (items_row.Compares comparing_row.HashElement)) held recv (key ∷ []) block ts v after
        → HandsOn (λ p. call_in p ≡ Some (b, Obj h ∷ key ∷ [], None)) held.store as_answered ts v after }
{}

/// `fetch`: the value under a key; where there is none what the block answers to the key, or the second argument; without
/// these the key is asked for `inspect`, and then it fails with that text.
pub fn values_are_fetched()
    ensures there { (held after : Held) (recv key v : Value) (more : List Value) (h : ObjId) (item : HashItem)
        (block : Option ObjId) (ts : List Turn) → a_hash held.store.objects recv ≡ Some h
        → looked_up held.store h key ≡ Some (Some item)
        → Gives (row.Items (items_row.Compares comparing_row.HashFetch)) held recv (key ∷ more) block ts v after
        → (ts ≡ []) × IsValue held item.value v after }
    ensures block { (held after : Held) (recv key v : Value) (more : List Value) (h b : ObjId) (ts : List Turn)
        → a_hash held.store.objects recv ≡ Some h → looked_up held.store h key ≡ Some None
        → Gives (row.Items (items_row.Compares comparing_row.HashFetch)) held recv (key ∷ more) (Some b) ts v after
        → HandsOn (λ p. call_in p ≡ Some (b, key ∷ [], None)) held.store as_answered ts v after }
    ensures second { (held after : Held) (recv key y v : Value) (h : ObjId) (ts : List Turn)
        → a_hash held.store.objects recv ≡ Some h → looked_up held.store h key ≡ Some None
        → Gives (row.Items (items_row.Compares comparing_row.HashFetch)) held recv (key ∷ y ∷ []) None ts v after
        → (ts ≡ []) × IsValue held y v after }
    ensures lacking { (held after : Held) (recv key : Value) (h : ObjId) (c : Cause) (ts : List Turn)
        → a_hash held.store.objects recv ≡ Some h → looked_up held.store h key ≡ Some None
        → IsRefused (row.Items (items_row.Compares comparing_row.HashFetch)) held recv (key ∷ []) None ts c after
        → IsLacking held key ts c after }
{}

/// `initialize` of an Array without a block: it has no elements, or so many times nil, or so many times a value; `initialize`
/// of a Hash: what an absent key gives is the argument, or nil, or what the block answers. `*` of an Array by a number: a new
/// Array of its elements so many times.
pub fn new_ones_are_filled()
    ensures empty { (held after : Held) (recv v : Value) (a : ObjId) (block : Option ObjId) (ts : List Turn)
        → an_array held.store.objects recv ≡ Some a
        → Gives (row.Visit visit.InitializeArray) held recv [] block ts v after
        → (ts ≡ []) × (v ≡ Obj a) × (elements_at after.store.objects a ≡ []) }
    ensures nils { (held after : Held) (recv size v : Value) (a : ObjId) (n : ℕ) (ts : List Turn)
        → an_array held.store.objects recv ≡ Some a → size_in held.store size ≡ Ok n
        → Gives (row.Visit visit.InitializeArray) held recv (size ∷ []) None ts v after
        → (ts ≡ []) × (v ≡ Obj a) × (elements_at after.store.objects a ≡ repeated n (Nil ∷ [])) }
    ensures values { (held after : Held) (recv size x v : Value) (a : ObjId) (n : ℕ) (ts : List Turn)
        → an_array held.store.objects recv ≡ Some a → size_in held.store size ≡ Ok n → has held.store x ≡ true
        → Gives (row.Visit visit.InitializeArray) held recv (size ∷ x ∷ []) None ts v after
        → (ts ≡ []) × (v ≡ Obj a) × (elements_at after.store.objects a ≡ repeated n (x ∷ [])) }
    ensures hash { (held after : Held) (recv v : Value) (args : List Value) (h : ObjId) (block : Option ObjId)
        (ts : List Turn) → a_hash held.store.objects recv ≡ Some h
        → Gives (row.Visit visit.InitializeHash) held recv args block ts v after
        → (ts ≡ []) × (v ≡ recv) × (hash_at after.store.objects h ≡ record (hash_at held.store.objects h) {
          default = own held.store (get_or args 0 Nil);
          block = own_block held.store block;
        }) }
    ensures times { (held after : Held) (recv y v : Value) (a : ObjId) (n : ℕ) (block : Option ObjId) (ts : List Turn)
        → an_array held.store.objects recv ≡ Some a → integer held.store y ≡ Ok (pos n)
        → Gives (row.Items (items_row.Compares comparing_row.ArrayRepeat)) held recv (y ∷ []) block ts v after
        → (ts ≡ []) × IsArrayOf held (repeated n (elements_at held.store.objects a)) v after }
{}
