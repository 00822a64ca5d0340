//! Runs that are left, as the beginnings of whole ones: what the law of the whole run says of its turns holds of those that
//! were made, and of the last one, which never answers.

ghost use Rattle.std.specs.Prelude.{◌≡◌, ℕ, suc, ◌<◌, ◌^◌, true, false, ◌++◌, List, [], ◌∷◌, length, map, Option, Some, Ok};
ghost use Rattle.rb_value.specs.declared.value.Value.{Value};
ghost use Rattle.rb_value.specs.declared.value.Value.TheVariants.{True, False, Obj};
ghost use Rattle.rb_value.specs.declared.value.ObjId.{ObjId};
ghost use Rattle.def_core.specs.Parts.{text_at};
ghost use Rattle.def_calls.specs.Views.{an_array, a_hash, a_string};
ghost use Rattle.heap.specs.Changes.{with_elements};
ghost use Rattle.rb_store.specs.Held.{Held};
ghost use Rattle.def_plans.specs.Plan.{Planned};
ghost use Rattle.iter_comparing.specs.declared.row.ComparingRow.TheVariants as comparing_row;
ghost use Rattle.iter_comparing.specs.declared.row.OrderRow.TheVariants as order_row;
ghost use Rattle.iter_comparing.specs.Hashes.{items, pairs};
ghost use Rattle.iter_items.specs.declared.source.Source.TheVariants as source;
ghost use Rattle.iter_items.specs.Sources.{next};
ghost use Rattle.run_rows.specs.declared.row.StarRow.{StarRow};
ghost use Rattle.run_rows.specs.declared.row.StarRow.TheVariants as row;
ghost use Rattle.run_rows.specs.declared.row.VisitRow.TheVariants as visit;
ghost use Rattle.core_iter.specs.Filling.{size_in};
ghost use Rattle.core_iter.specs.Rows.{Starts};
ghost use Rattle.core_iter.specs.Stage.{Stage};
ghost use Rattle.items_laws.specs.Beginning.{IsBeginning, Leaves};
ghost use Rattle.items_laws.specs.Changed.{Fills, ThinsOut};
ghost use Rattle.items_laws.specs.CutAsked.{IsAbandoned};
ghost use Rattle.items_laws.specs.Dropping.{Drops};
ghost use Rattle.items_laws.specs.Run.{Turn};
ghost use Rattle.items_laws.specs.Items.{IsValue, Visits, Whole, calls_of, last_heap};
ghost use Rattle.items_laws.specs.Lists.{alone};
ghost use Rattle.items_laws.specs.Once.{wants_once};
ghost use Rattle.items_laws.specs.Placed.{IsPlaced};
ghost use Rattle.items_laws.specs.Sieved.{IsNew, IsSieved, Lacks, SharesNew, elements, own_equality};
ghost use Rattle.items_laws.specs.Texts.{HandsBytes, HandsTexts, characters, lines};

/// `each_char`, `each_line` and `each_byte` of a String, `delete_if` of an Array and a new Array that a block fills, where the
/// block never answers.
pub fn walks_are_left()
    ensures characters { (held : Held) (recv : Value) (s b : ObjId) (ts : List Turn) (last : Planned Stage)
        → length (text_at held.store.objects s) < 2 ^ 63 → a_string held.store.objects recv ≡ Some s
        → Leaves (row.Visit visit.EachCharacter) held recv [] (Some b) ts last
        → IsBeginning (HandsTexts held s b (characters (text_at held.store.objects s))) ts last }
    ensures lines { (held : Held) (recv : Value) (s b : ObjId) (ts : List Turn) (last : Planned Stage)
        → a_string held.store.objects recv ≡ Some s
        → Leaves (row.Visit visit.EachLine) held recv [] (Some b) ts last
        → IsBeginning (HandsTexts held s b (lines (text_at held.store.objects s))) ts last }
    ensures bytes { (held : Held) (recv : Value) (s b : ObjId) (ts : List Turn) (last : Planned Stage)
        → suc (length ts) < 2 ^ 64 → a_string held.store.objects recv ≡ Some s
        → Leaves (row.Visit visit.EachByte) held recv [] (Some b) ts last → IsBeginning (HandsBytes held s b 0) ts last }
    ensures thinned { (held : Held) (recv : Value) (a b : ObjId) (ts : List Turn) (last : Planned Stage)
        → suc (length ts) < 2 ^ 64 → an_array held.store.objects recv ≡ Some a
        → Leaves (row.Visit visit.DeleteElements) held recv [] (Some b) ts last
        → IsBeginning (ThinsOut held a b 0) ts last }
    ensures filled { (held : Held) (recv size : Value) (a b : ObjId) (n : ℕ) (ts : List Turn) (last : Planned Stage)
        → an_array held.store.objects recv ≡ Some a → size_in held.store size ≡ Ok n
        → Leaves (row.Visit visit.InitializeArray) held recv (size ∷ []) (Some b) ts last
        → IsBeginning (Fills (with_elements held a []) a b 0 n) ts last }
{}

/// `each`, `each_key`, `each_value` and `delete_if` of a Hash, where the block never answers.
pub fn walks_over_pairs_are_left()
    ensures each { (held : Held) (recv : Value) (a b : ObjId) (ts : List Turn) (last : Planned Stage)
        → length (items (pairs held.store a)) < 2 ^ 64 → a_hash held.store.objects recv ≡ Some a
        → Leaves (row.Visit visit.EachPair) held recv [] (Some b) ts last
        → IsBeginning (λ us v after. Visits next held (source.Pairs (items (pairs held.store a)) 0) b Whole alone us
        (λ h xs. IsValue h (Obj a) v after)) ts last }
    ensures keys { (held : Held) (recv : Value) (a b : ObjId) (ts : List Turn) (last : Planned Stage)
        → length (items (pairs held.store a)) < 2 ^ 64 → a_hash held.store.objects recv ≡ Some a
        → Leaves (row.Visit visit.EachKey) held recv [] (Some b) ts last
        → IsBeginning (λ us v after. (calls_of us ≡ map (λ i. Some (b, i.shown ∷ [])) (items (pairs held.store a)))
        × IsValue (last_heap held us) (Obj a) v after) ts last }
    ensures values { (held : Held) (recv : Value) (a b : ObjId) (ts : List Turn) (last : Planned Stage)
        → length (items (pairs held.store a)) < 2 ^ 64 → a_hash held.store.objects recv ≡ Some a
        → Leaves (row.Visit visit.EachValue) held recv [] (Some b) ts last
        → IsBeginning (λ us v after. (calls_of us ≡ map (λ i. Some (b, i.value ∷ [])) (items (pairs held.store a)))
        × IsValue (last_heap held us) (Obj a) v after) ts last }
    ensures dropped { (held : Held) (recv : Value) (a b : ObjId) (ts : List Turn) (last : Planned Stage)
        → length (items (pairs held.store a)) < 2 ^ 64 → a_hash held.store.objects recv ≡ Some a
        → Leaves (row.Visit visit.DeletePairs) held recv [] (Some b) ts last
        → IsBeginning (Drops held a b (items (pairs held.store a))) ts last }
{}

/// Rows whose first answer ends them: those that want one thing alone, `==` of Comparable and its kin, `[]` and `fetch` of a
/// Hash, and all of an Enumerator and a Yielder. Where that answer never comes, nothing has come before, and what is awaited is
/// what the row wants first.
pub fn first_answers_are_awaited()
    ensures { (r : StarRow) (held : Held) (recv : Value) (args : List Value) (block : Option ObjId) (ts : List Turn)
        (last : Planned Stage) → wants_once r ≡ true → Leaves r held recv args block ts last
        → (ts ≡ []) × Starts r held recv args block last }
{}

/// `between?` and `clamp` of Comparable, where the receiver doesn't reply how it stands to the first value, or to the second.
pub fn placings_are_left()
    ensures between { (held : Held) (recv low high : Value) (block : Option ObjId) (ts : List Turn) (last : Planned Stage)
        → IsAbandoned (comparing_row.Order order_row.Between) held recv (low ∷ high ∷ []) block ts last
        → IsBeginning (λ us v after. IsPlaced held recv low high False True False us v after) ts last }
    ensures clamp { (held : Held) (recv low high : Value) (block : Option ObjId) (ts : List Turn) (last : Planned Stage)
        → IsAbandoned (comparing_row.Order order_row.Clamp) held recv (low ∷ high ∷ []) block ts last
        → IsBeginning (λ us v after. IsPlaced held recv low high low recv high us v after) ts last }
{}

/// `-`, `&` and `|` of Arrays, where a value that is asked for `==` never replies. Where all are Integers and Strings with the `==`
/// of their class nothing is called.
pub fn sieves_are_left()
    ensures difference { (held : Held) (recv y : Value) (a b : ObjId) (block : Option ObjId) (ts : List Turn)
        (last : Planned Stage) → length (elements held a) < 2 ^ 64 → an_array held.store.objects recv ≡ Some a
        → an_array held.store.objects y ≡ Some b → own_equality held (elements held a) (elements held b) ≡ false
        → IsAbandoned comparing_row.ArrayDifference held recv (y ∷ []) block ts last
        → IsBeginning (IsSieved (λ name. Lacks name (elements held b)) held (elements held a)) ts last }
    ensures intersection { (held : Held) (recv y : Value) (a b : ObjId) (block : Option ObjId) (ts : List Turn)
        (last : Planned Stage) → length (elements held a) < 2 ^ 64 → an_array held.store.objects recv ≡ Some a
        → an_array held.store.objects y ≡ Some b → own_equality held (elements held a) (elements held b) ≡ false
        → IsAbandoned comparing_row.ArrayIntersection held recv (y ∷ []) block ts last
        → IsBeginning (IsSieved (λ name. SharesNew name (elements held b)) held (elements held a)) ts last }
    ensures union { (held : Held) (recv y : Value) (a b : ObjId) (block : Option ObjId) (ts : List Turn)
        (last : Planned Stage) → length (elements held a ++ elements held b) < 2 ^ 64
        → an_array held.store.objects recv ≡ Some a → an_array held.store.objects y ≡ Some b
        → own_equality held (elements held a ++ elements held b) [] ≡ false
        → IsAbandoned comparing_row.ArrayUnion held recv (y ∷ []) block ts last
        → IsBeginning (IsSieved (λ name. IsNew name []) held (elements held a ++ elements held b)) ts last }
{}
