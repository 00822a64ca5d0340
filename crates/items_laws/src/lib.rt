//! What an iteration gives is an equation over its items and the answers to them, whatever the program does to the heap
//! in between. There is no code here: the laws bind what core_iter and iter_items say of each step to whole runs.
//!
//! - `specs::Run`: the run of an iteration, from its start over each answer to its end
//! - `specs::Items`: the items that a run hands on, and the heap then
//! - `specs::Read`, `specs::Backwards`, `specs::Numbers`, `specs::ByteSteps`: which items an Array, a Hash or a Range has, from
//!   the first one on and from the last one back, and the numbers and bytes that are counted
//! - `specs::Lists`, `specs::Keys`, `specs::Firsts`, `specs::Dropped`: what comes of items and answers, as plain lists
//! - `specs::Settled`, `specs::Made`, `specs::Changed`, `specs::Dropping`: where each answer changes a new Hash, or the receiver
//! - `specs::Slices`, `specs::Neighbours`, `specs::Sums`, `specs::Texts`, `specs::Looped`: items by so many at once, sums, parts
//!   of a String, `loop`
//! - `specs::Decided`, `specs::Asked`, `specs::Placed`, `specs::Compared`, `specs::Sieved`: items that decide without a call,
//!   values that are asked for a method, how a value stands to others, and what comes of it where many are compared
//! - `specs::Written`: texts that are made of those that values are asked for
//! - `specs::Handed`: methods that want one thing alone
//! - `specs::Output`, `specs::Raised`: what goes out, and exceptions
//! - `specs::Stored`, `specs::Each`, `specs::Gathered`, `specs::Enumerated`: what stands under keys, what methods of Enumerable
//!   want first and what `each` gives them, and Enumerators
//! - `specs::Cut`, `specs::CutAsked`, `specs::CutWritten`, `specs::Beginning`, `specs::Once`: runs that are left
#![tactic(auto)]

pub mod asked;
pub mod backwards;
pub mod beginnings;
pub mod byte_ranges;
pub mod compared;
pub mod enumerated;
pub mod gathered;
pub mod handed;
pub mod left;
pub mod output;
pub mod raised;
pub mod stored;
pub mod unawaited;
pub mod unreplied;
pub mod written;

ghost use Rattle.std.specs.Prelude.{◌≡◌, ℕ, ◌<◌, ◌+◌, ◌^◌, ℤ, pos, negsuc, ◌-ℤ◌, int_lt, List, [], ◌∷◌, length, map, take, drop, slice_get, not, true, false, Some, None, Ok};
ghost use Rattle.rb_value.specs.declared.value.Value.{Value};
ghost use Rattle.rb_value.specs.declared.value.Value.TheVariants.{Int, Obj};
ghost use Rattle.rb_value.specs.declared.hash.HashItem.{HashItem};
ghost use Rattle.rb_value.specs.declared.value.ObjId.{ObjId};
ghost use Rattle.rb_value.specs.Value.{is_true, truth};
ghost use Rattle.rb_integer.specs.Exact.{fits};
ghost use Rattle.def_core.specs.Parts.{elements_at, text_at};
ghost use Rattle.def_calls.specs.Views.{an_array, a_hash, a_string, kind_in};
ghost use Rattle.rb_store.specs.Held.{Held};
ghost use Rattle.heap.specs.Reading.{range_in};
ghost use Rattle.heap.specs.Changes.{with_elements};
ghost use Rattle.heap.specs.Made.{array_given, with_array};
ghost use Rattle.core_calls.specs.Checks.{integer};
ghost use Rattle.core_calls.specs.declared.beat.Beat.{Beat};
ghost use Rattle.def_plans.specs.Plan.{Planned};
ghost use Rattle.rows_items.specs.declared.sorting.Extreme.TheVariants.{Least, Greatest};
ghost use Rattle.iter_comparing.specs.Hashes.{items, pairs};
ghost use Rattle.iter_items.specs.declared.row.ItemsRow.TheVariants as items_row;
ghost use Rattle.iter_items.specs.declared.row.Task.TheVariants as task;
ghost use Rattle.iter_items.specs.declared.source.Source.{Source};
ghost use Rattle.iter_items.specs.declared.source.Source.TheVariants as source;
ghost use Rattle.iter_items.specs.Asking.{taken};
ghost use Rattle.iter_items.specs.Checks.{size_of};
ghost use Rattle.iter_items.specs.Sources.{next, previous, is_pairs};
ghost use Rattle.iter_items.specs.declared.state.ItemsState.TheVariants as items_state;
ghost use Rattle.iter_items.specs.declared.visit.Visit as of_items;
ghost use Rattle.iter_items.specs.Stage.{visits};
ghost use Rattle.run_rows.specs.declared.row.KernelRow.TheVariants as kernel;
ghost use Rattle.run_rows.specs.declared.row.StarRow.TheVariants as row;
ghost use Rattle.run_rows.specs.declared.row.VisitRow.TheVariants as visit;
ghost use Rattle.core_iter.specs.Counting.{one_less, by_steps, from_to};
ghost use Rattle.core_iter.specs.declared.counting.Count.{Count};
ghost use Rattle.core_iter.specs.declared.filling.Filling.{Filling};
ghost use Rattle.core_iter.specs.Filling.{size_in};
ghost use Rattle.core_iter.specs.declared.iteration.Iteration.{Iteration};
ghost use Rattle.core_iter.specs.declared.iteration.Iteration.TheVariants as state;
ghost use Rattle.core_iter.specs.declared.pairs.PairWalk.{PairWalk};
ghost use Rattle.core_iter.specs.declared.visiting.Visit.{Visit};
ghost use Rattle.core_iter.specs.Sending.{call_beat};
ghost use Rattle.core_iter.specs.Stage.{Stage, own, items as over_items, stage_of};
ghost use Rattle.core_iter.specs.Rows.{Starts, Beats, GoesOn};
ghost use Rattle.items_laws.specs.Changed.{LeftAlone, HasElements, ThinsOut, Fills, replaced_from, owned};
ghost use Rattle.items_laws.specs.Decided.{Decides};
ghost use Rattle.items_laws.specs.Dropped.{DropsOn};
ghost use Rattle.items_laws.specs.Dropping.{Drops};
ghost use Rattle.items_laws.specs.Example.{turn};
ghost use Rattle.items_laws.specs.Firsts.{FoldsOn};
ghost use Rattle.items_laws.specs.Looped.{LoopsOn};
ghost use Rattle.items_laws.specs.Neighbours.{HandsNeighbours};
ghost use Rattle.items_laws.specs.Run.{Turn, Runs, Gives};
ghost use Rattle.items_laws.specs.Slices.{slices};
ghost use Rattle.items_laws.specs.Sums.{AddsUp, AddsIntegers, plus, total, with_plus};
ghost use Rattle.items_laws.specs.Texts.{HandsTexts, HandsBytes, HandsOnBytes, bytes_to, characters, lines};
ghost use Rattle.items_laws.specs.Numbers.{Counts, Places, integers, integers_from, so_many};
ghost use Rattle.items_laws.specs.Items.{Hands, Visits, Iterates, IsRunBy, IsRunOf, IsArrayOf, IsValue, Whole, Until, answers, calls_of, last_heap, left_of, with_arguments};
ghost use Rattle.items_laws.specs.Read.{heaps_before, elements_read, pair_in, pairs_read};
ghost use Rattle.items_laws.specs.Lists.{alone, with_places, with_object, in_turn, flattened, picked, picked_while, first_or_nil, last_of, any_of, place_from, counted_from, is_untrue};
ghost use Rattle.items_laws.specs.Keys.{IsExtreme, IsSortedBy, ArePartsOf};
ghost use Rattle.items_laws.specs.Made.{PicksPairs, Groups};
ghost use Rattle.items_laws.specs.Whole.{OverElements};

/// `map`: a new Array of the answers, in order; `flat_map`: of the elements of the Arrays among them, and the others.
pub fn map_gives_the_answers()
    ensures map { (held after : Held) (recv v : Value) (s : Source) (b : ObjId) (ts : List Turn)
        → IsRunOf task.Map held recv s [] b ts v after
        → Iterates next held s b Whole alone ts (λ h items. IsArrayOf h (answers ts) v after) }
    ensures flat_map { (held after : Held) (recv v : Value) (s : Source) (b : ObjId) (ts : List Turn)
        → IsRunOf task.FlatMap held recv s [] b ts v after
        → Iterates next held s b Whole alone ts (λ h items. IsArrayOf h (flattened ts) v after) }
{}

/// `select` and `reject` of an Array or a Range: a new Array of the items whose answers are true, or aren't, in order;
/// `partition`: of both.
pub fn select_gives_the_items()
    ensures select { (held after : Held) (recv v : Value) (s : Source) (b : ObjId) (ts : List Turn)
        → is_pairs s ≡ false → IsRunOf task.Select held recv s [] b ts v after
        → Iterates next held s b Whole alone ts (λ h items. IsArrayOf h (picked is_true items (answers ts)) v after) }
    ensures reject { (held after : Held) (recv v : Value) (s : Source) (b : ObjId) (ts : List Turn)
        → is_pairs s ≡ false → IsRunOf task.Reject held recv s [] b ts v after
        → Iterates next held s b Whole alone ts
        (λ h items. IsArrayOf h (picked is_untrue items (answers ts)) v after) }
    ensures partition { (held after : Held) (recv v : Value) (s : Source) (b : ObjId) (ts : List Turn)
        → IsRunOf task.Partition held recv s [] b ts v after
        → Iterates next held s b Whole alone ts (λ h items.
        ArePartsOf h (picked is_true items (answers ts)) (picked is_untrue items (answers ts)) v after) }
{}

/// `select` and `reject` of a Hash: a new Hash of the pairs whose answers are true, or aren't. Each is put into it when its
/// answer has come.
pub fn select_makes_a_hash()
    ensures select { (held after : Held) (recv v : Value) (ps : List HashItem) (b : ObjId) (ts : List Turn)
        → length ts < 2 ^ 64 → IsRunOf task.Select held recv (source.Pairs ps 0) [] b ts v after
        → PicksPairs is_true held ps b ts v after }
    ensures reject { (held after : Held) (recv v : Value) (ps : List HashItem) (b : ObjId) (ts : List Turn)
        → length ts < 2 ^ 64 → IsRunOf task.Reject held recv (source.Pairs ps 0) [] b ts v after
        → PicksPairs is_untrue held ps b ts v after }
{}

/// `group_by`: a new Hash, in which each item joins the group of its answer when that has come.
pub fn items_are_grouped()
    ensures { (held after : Held) (recv v : Value) (s : Source) (b : ObjId) (ts : List Turn)
        → IsRunOf task.GroupBy held recv s [] b ts v after → Groups held s b ts v after }
{}

/// `find`: the first item whose answer is true; nil where there is none.
pub fn find_gives_the_first()
    ensures { (held after : Held) (recv v : Value) (s : Source) (b : ObjId) (ts : List Turn)
        → IsRunOf task.Find held recv s [] b ts v after
        → Iterates next held s b (Until is_true) alone ts
        (λ h items. IsValue h (first_or_nil (picked is_true items (answers ts))) v after) }
{}

/// `any?`, `all?` and `none?` with a block: whether any answer is true, all are, or none is.
pub fn answers_decide()
    ensures any { (held after : Held) (recv v : Value) (s : Source) (b : ObjId) (ts : List Turn)
        → IsRunOf task.Any held recv s [] b ts v after
        → Iterates next held s b (Until is_true) alone ts
        (λ h items. IsValue h (truth (any_of is_true (answers ts))) v after) }
    ensures every { (held after : Held) (recv v : Value) (s : Source) (b : ObjId) (ts : List Turn)
        → IsRunOf task.All held recv s [] b ts v after
        → Iterates next held s b (Until is_untrue) alone ts
        (λ h items. IsValue h (truth (not (any_of is_untrue (answers ts)))) v after) }
    ensures none { (held after : Held) (recv v : Value) (s : Source) (b : ObjId) (ts : List Turn)
        → IsRunOf task.Never held recv s [] b ts v after
        → Iterates next held s b (Until is_true) alone ts
        (λ h items. IsValue h (truth (not (any_of is_true (answers ts)))) v after) }
{}

/// `any?`, `all?` and `none?` of an Array without a block: whether any element is true, all are, or none is; nothing is
/// called.
pub fn elements_decide()
    ensures any { (held after : Held) (recv v : Value) (a : ObjId) (ts : List Turn)
        → length (elements_at held.store.objects a) < 2 ^ 64 → an_array held.store.objects recv ≡ Some a
        → Gives (row.Items (items_row.Visits task.Any)) held recv [] None ts v after
        → (ts ≡ []) × (v ≡ truth (any_of is_true (elements_at held.store.objects a))) × (after.store ≡ held.store) }
    ensures every { (held after : Held) (recv v : Value) (a : ObjId) (ts : List Turn)
        → length (elements_at held.store.objects a) < 2 ^ 64 → an_array held.store.objects recv ≡ Some a
        → Gives (row.Items (items_row.Visits task.All)) held recv [] None ts v after
        → (ts ≡ []) × (v ≡ truth (not (any_of is_untrue (elements_at held.store.objects a))))
        × (after.store ≡ held.store) }
    ensures none { (held after : Held) (recv v : Value) (a : ObjId) (ts : List Turn)
        → length (elements_at held.store.objects a) < 2 ^ 64 → an_array held.store.objects recv ≡ Some a
        → Gives (row.Items (items_row.Visits task.Never)) held recv [] None ts v after
        → (ts ≡ []) × (v ≡ truth (not (any_of is_true (elements_at held.store.objects a))))
        × (after.store ≡ held.store) }
{}

/// The same of all items of a Hash, a Range or any other receiver: whether any item is true, all are, or none is; nothing is
/// called.
pub fn items_decide()
    ensures any { (held after : Held) (recv v : Value) (s : Source) (ts : List Turn)
        → IsRunBy task.Any held recv s [] None ts v after → Decides (λ xs. truth (any_of is_true xs)) held s ts v after }
    ensures every { (held after : Held) (recv v : Value) (s : Source) (ts : List Turn)
        → IsRunBy task.All held recv s [] None ts v after
        → Decides (λ xs. truth (not (any_of is_untrue xs))) held s ts v after }
    ensures none { (held after : Held) (recv v : Value) (s : Source) (ts : List Turn)
        → IsRunBy task.Never held recv s [] None ts v after
        → Decides (λ xs. truth (not (any_of is_true xs))) held s ts v after }
{}

/// `inject` with a first value, or with its first item as one: the block is called with what came so far and each item, and
/// the last answer is given; `each_with_object`: with each item and the object, which is given.
pub fn inject_folds()
    ensures inject { (held after : Held) (recv v first : Value) (s : Source) (b : ObjId) (ts : List Turn)
        → IsRunOf task.Inject held recv s (first ∷ []) b ts v after
        → Iterates next held s b Whole (in_turn (first ∷ answers ts)) ts
        (λ h items. IsValue h (last_of first (answers ts)) v after) }
    ensures from_first { (held after : Held) (recv v first : Value) (s : Source) (b : ObjId) (ts : List Turn)
        → (next held s).item ≡ Some first → IsRunOf task.Inject held recv s [] b ts v after
        → FoldsOn held s b ts first v after }
    ensures object { (held after : Held) (recv v object : Value) (s : Source) (b : ObjId) (ts : List Turn)
        → IsRunOf task.EachWithObject held recv s (object ∷ []) b ts v after
        → Iterates next held s b Whole (with_object object) ts (λ h items. IsValue h object v after) }
{}

/// `sum`: the items, or what a block answers to them, are added one after another to 0 or to a first value, by what `+` of
/// the value so far gives, at once by its row or as the answer to that message; of an Array of Integers, where `+` is that of
/// core and nothing is called, this is their sum.
pub fn items_add_up()
    ensures block { (held after : Held) (recv v : Value) (s : Source) (b : ObjId) (ts : List Turn)
        → IsRunOf task.Sum held recv s [] b ts v after → AddsUp (Some b) held s (Int (pos 0)) ts v after }
    ensures block_from { (held after : Held) (recv first v : Value) (s : Source) (b : ObjId) (ts : List Turn)
        → IsRunOf task.Sum held recv s (first ∷ []) b ts v after → AddsUp (Some b) held s first ts v after }
    ensures alone { (held after : Held) (recv v : Value) (s : Source) (ts : List Turn)
        → IsRunBy task.Sum held recv s [] None ts v after → AddsUp None held s (Int (pos 0)) ts v after }
    ensures alone_from { (held after : Held) (recv first v : Value) (s : Source) (ts : List Turn)
        → IsRunBy task.Sum held recv s (first ∷ []) None ts v after → AddsUp None held s first ts v after }
    ensures integers { (held after : Held) (recv v : Value) (a : ObjId) (zs : List ℤ) → length zs < 2 ^ 63
        → an_array (with_plus held).store.objects recv ≡ Some a
        → elements_at (with_plus held).store.objects a ≡ map (λ z. Int z) zs
        → AddsIntegers (with_plus held).store (plus held)
        → Gives (row.Items (items_row.Visits task.Sum)) held recv [] None [] v after → v ≡ Int (total (pos 0) zs) }
{}

/// `each_with_index` and `reverse_each`: the block is called with each item and the number of its place, or with each from
/// the last one back, and the receiver is given.
pub fn each_gives_the_receiver()
    ensures with_index { (held after : Held) (recv v : Value) (s : Source) (b : ObjId) (ts : List Turn)
        → IsRunOf task.EachWithIndex held recv s [] b ts v after
        → Iterates next held s b Whole (with_places 0) ts (λ h items. IsValue h recv v after) }
    ensures reverse { (held after : Held) (recv v : Value) (s : Source) (b : ObjId) (ts : List Turn)
        → IsRunOf task.ReverseEach held recv s [] b ts v after
        → Iterates previous held s b Whole alone ts (λ h items. IsValue h recv v after) }
{}

/// `each_slice`: the block is called with a new Array of each so many items, the last of which may be fewer, and the receiver
/// is given; of an Array it is of its next so many elements, as they stand then.
pub fn slices_are_handed_on()
    ensures slices { (held after : Held) (recv size v : Value) (n : ℕ) (s : Source) (b : ObjId) (ts : List Turn)
        → size_of held.store size ≡ Ok n → IsRunOf task.EachSlice held recv s (size ∷ []) b ts v after
        → Iterates (slices n) held s b Whole alone ts (λ h items. IsValue h recv v after) }
    ensures array { (held : Held) (a : ObjId) (n k : ℕ) → k + n < 2 ^ 64
        → (taken n held (source.Elements a k)).items ≡ take n (drop k (elements_at held.store.objects a)) }
{}

/// `each_cons`: the block is called with a new Array of each so many neighbours, made when the last of them has come, and the
/// receiver is given.
pub fn neighbours_are_handed_on()
    ensures { (held after : Held) (recv size v : Value) (n : ℕ) (s : Source) (b : ObjId) (ts : List Turn)
        → size_of held.store size ≡ Ok n → IsRunOf task.EachCons held recv s (size ∷ []) b ts v after
        → HandsNeighbours n held s b ts recv v after }
{}

/// `min_by` and `max_by`: the first item whose answer is the least, or the greatest; `sort_by`: a new Array of the items in
/// the order of their answers.
pub fn answers_order()
    ensures least { (held after : Held) (recv v : Value) (s : Source) (b : ObjId) (ts : List Turn)
        → IsRunOf task.MinBy held recv s [] b ts v after
        → Iterates next held s b Whole alone ts (λ h items. IsExtreme Least h items (answers ts) v after) }
    ensures greatest { (held after : Held) (recv v : Value) (s : Source) (b : ObjId) (ts : List Turn)
        → IsRunOf task.MaxBy held recv s [] b ts v after
        → Iterates next held s b Whole alone ts (λ h items. IsExtreme Greatest h items (answers ts) v after) }
    ensures sort { (held after : Held) (recv v : Value) (s : Source) (b : ObjId) (ts : List Turn)
        → IsRunOf task.SortBy held recv s [] b ts v after
        → Iterates next held s b Whole alone ts (λ h items. IsSortedBy h items (answers ts) v after) }
{}

/// `find_index`: the place of the first item whose answer is true; `count` with a block: how many answers are;
/// `take_while`: a new Array of the items before the first whose answer isn't.
pub fn answers_count()
    ensures place { (held after : Held) (recv v : Value) (s : Source) (b : ObjId) (ts : List Turn) → length ts < 2 ^ 63
        → IsRunOf task.FindIndex held recv s [] b ts v after
        → Iterates next held s b (Until is_true) alone ts
        (λ h items. IsValue h (place_from 0 is_true (answers ts)) v after) }
    ensures number { (held after : Held) (recv v : Value) (s : Source) (b : ObjId) (ts : List Turn) → length ts < 2 ^ 63
        → IsRunOf task.Count held recv s [] b ts v after
        → Iterates next (with_arguments task.Count held [] b) s b Whole alone ts
        (λ h items. IsValue h (Int (pos (counted_from 0 is_true (answers ts)))) v after) }
    ensures take_while { (held after : Held) (recv v : Value) (s : Source) (b : ObjId) (ts : List Turn)
        → IsRunOf task.TakeWhile held recv s [] b ts v after
        → Iterates next held s b (Until is_untrue) alone ts
        (λ h items. IsArrayOf h (picked_while is_true items (answers ts)) v after) }
{}

/// `drop_while`: a new Array of the first item whose answer isn't true, and of all that are left behind it then.
pub fn drop_while_gives_the_rest()
    ensures { (held after : Held) (recv v : Value) (s : Source) (b : ObjId) (ts : List Turn)
        → IsRunOf task.DropWhile held recv s [] b ts v after → DropsOn held s b ts v after }
{}

/// `each` of an Array and of a Hash: the block is called with each element, or with a new Array of each pair, and the
/// receiver is given.
pub fn each_hands_on()
    ensures array { (held after : Held) (recv v : Value) (a b : ObjId) (ts : List Turn)
        → an_array held.store.objects recv ≡ Some a
        → Gives (row.Visit visit.EachElement) held recv [] (Some b) ts v after
        → Visits next held (source.Elements a 0) b Whole alone ts (λ h items. IsValue h (Obj a) v after) }
    ensures hash { (held after : Held) (recv v : Value) (a b : ObjId) (ts : List Turn)
        → a_hash held.store.objects recv ≡ Some a
        → Gives (row.Visit visit.EachPair) held recv [] (Some b) ts v after
        → Visits next held (source.Pairs (items (pairs held.store a)) 0) b Whole alone ts
        (λ h items. IsValue h (Obj a) v after) }
{}

/// `each_key` and `each_value`: the block is called with what is shown as the key of each pair that the Hash had at the
/// start, or with its value, and the Hash is given.
pub fn each_part_is_handed_on()
    ensures keys { (held after : Held) (recv v : Value) (a b : ObjId) (ts : List Turn) → length ts < 2 ^ 64
        → a_hash held.store.objects recv ≡ Some a
        → Gives (row.Visit visit.EachKey) held recv [] (Some b) ts v after
        → (calls_of ts ≡ map (λ i. Some (b, i.shown ∷ [])) (items (pairs held.store a)))
        × IsValue (last_heap held ts) (Obj a) v after }
    ensures values { (held after : Held) (recv v : Value) (a b : ObjId) (ts : List Turn) → length ts < 2 ^ 64
        → a_hash held.store.objects recv ≡ Some a
        → Gives (row.Visit visit.EachValue) held recv [] (Some b) ts v after
        → (calls_of ts ≡ map (λ i. Some (b, i.value ∷ [])) (items (pairs held.store a)))
        × IsValue (last_heap held ts) (Obj a) v after }
{}

/// `times`, `upto`, `downto`, `step` and `each` of a Range of Integers: the block is called with each number from the first
/// one to the last one, and the receiver is given.
pub fn numbers_are_counted()
    ensures times { (held after : Held) (recv v : Value) (z : ℤ) (b : ObjId) (ts : List Turn)
        → integer held.store recv ≡ Ok z → Gives (row.Visit visit.Times) held recv [] (Some b) ts v after
        → Counts (pos 0) (one_less z) (pos 1) b ts × IsValue (last_heap held ts) recv v after }
    ensures upto { (held after : Held) (recv limit v : Value) (z last : ℤ) (b : ObjId) (ts : List Turn)
        → integer held.store recv ≡ Ok z → integer held.store limit ≡ Ok last
        → Gives (row.Visit visit.Upto) held recv (limit ∷ []) (Some b) ts v after
        → Counts z last (pos 1) b ts × IsValue (last_heap held ts) recv v after }
    ensures downto { (held after : Held) (recv limit v : Value) (z last : ℤ) (b : ObjId) (ts : List Turn)
        → integer held.store recv ≡ Ok z → integer held.store limit ≡ Ok last
        → Gives (row.Visit visit.Downto) held recv (limit ∷ []) (Some b) ts v after
        → Counts z last (negsuc 0) b ts × IsValue (last_heap held ts) recv v after }
    ensures step { (held after : Held) (recv limit size v : Value) (z last by : ℤ) (b : ObjId) (ts : List Turn)
        → integer held.store recv ≡ Ok z → integer held.store limit ≡ Ok last → integer held.store size ≡ Ok by
        → by_steps recv b z last by ≡ Ok (from_to recv b z last by)
        → Gives (row.Visit visit.Step) held recv (limit ∷ size ∷ []) (Some b) ts v after
        → Counts z last by b ts × IsValue (last_heap held ts) recv v after }
    ensures range { (held after : Held) (recv v : Value) (a z : ℤ) (b : ObjId) (ts : List Turn)
        → range_in (kind_in held.store.objects recv) ≡ Some (integers a z false)
        → Gives (row.Visit visit.EachOfRange) held recv [] (Some b) ts v after
        → Counts a z (pos 1) b ts × IsValue (last_heap held ts) recv v after }
    ensures range_before { (held after : Held) (recv v : Value) (a z : ℤ) (b : ObjId) (ts : List Turn)
        → range_in (kind_in held.store.objects recv) ≡ Some (integers a z true) → fits (z -ℤ pos 1) ≡ true
        → Gives (row.Visit visit.EachOfRange) held recv [] (Some b) ts v after
        → Counts a (z -ℤ pos 1) (pos 1) b ts × IsValue (last_heap held ts) recv v after }
{}

/// `step` of a Range of Integers: the block is called with each number from the first one to the last one by steps above 0,
/// and the Range is given.
pub fn ranges_are_stepped_through()
    ensures range { (held after : Held) (recv size v : Value) (a z by : ℤ) (b : ObjId) (ts : List Turn)
        → range_in (kind_in held.store.objects recv) ≡ Some (integers a z false)
        → integer held.store size ≡ Ok by → int_lt (pos 0) by ≡ true
        → Gives (row.Visit visit.StepOfRange) held recv (size ∷ []) (Some b) ts v after
        → Counts a z by b ts × IsValue (last_heap held ts) recv v after }
    ensures range_before { (held after : Held) (recv size v : Value) (a z by : ℤ) (b : ObjId) (ts : List Turn)
        → range_in (kind_in held.store.objects recv) ≡ Some (integers a z true) → fits (z -ℤ pos 1) ≡ true
        → integer held.store size ≡ Ok by → int_lt (pos 0) by ≡ true
        → Gives (row.Visit visit.StepOfRange) held recv (size ∷ []) (Some b) ts v after
        → Counts a (z -ℤ pos 1) by b ts × IsValue (last_heap held ts) recv v after }
{}

/// `each` of a Range of bytes with its last end: the block is called with a new String of each from the first one to the last
/// one, made when the answer before has come, and the Range is given.
pub fn bytes_are_handed_on()
    ensures { (held after : Held) (recv v : Value) (a z : ℕ) (b : ObjId) (ts : List Turn) → z < 256
        → range_in (kind_in held.store.objects recv) ≡ Some (bytes_to a z)
        → Gives (row.Visit visit.EachOfRange) held recv [] (Some b) ts v after
        → HandsOnBytes held a z b ts recv v after }
{}

/// The items of an Array: its elements at one place after another, each as it stands when the answer before has come, so
/// long as the place is within the Array; nothing else touches the heap in between.
pub fn elements_are_read_anew()
    ensures items { (held : Held) (a : ObjId) (n : ℕ) (ts : List Turn) (xs : List Value) → n + length ts < 2 ^ 64
        → Hands next held (source.Elements a n) ts xs → map Some xs ≡ elements_read a n (heaps_before held ts) }
    ensures end { (held : Held) (a : ObjId) (n : ℕ) (ts : List Turn) (xs : List Value) → n + length ts < 2 ^ 64
        → Hands next held (source.Elements a n) ts xs
        → (next (last_heap held ts) (left_of next held (source.Elements a n) ts)).item
        ≡ slice_get (elements_at (last_heap held ts).store.objects a) (n + length ts) }
    ensures heaps { (held : Held) (a : ObjId) (n : ℕ) (ts : List Turn) (xs : List Value)
        → Hands next held (source.Elements a n) ts xs → map (λ t. t.wanted.held) ts ≡ heaps_before held ts }
{}

/// So `map` of an Array calls its block with the elements at 0, 1, 2, .. as each stands when the answer before has come, until
/// the place isn't within the Array any more, and gives a new Array of the answers.
pub fn map_of_an_array()
    ensures { (held after : Held) (recv v : Value) (a b : ObjId) (ts : List Turn) → length ts < 2 ^ 64
        → an_array held.store.objects recv ≡ Some a
        → Gives (row.Items (items_row.Visits task.Map)) held recv [] (Some b) ts v after
        → OverElements held a b ts (λ h items. IsArrayOf h (answers ts) v after) }
{}

/// The items of a Hash: a new Array of each pair that it had at the start.
pub fn pairs_are_of_the_start()
    ensures items { (held : Held) (ps : List HashItem) (n : ℕ) (ts : List Turn) (xs : List Value)
        → n + length ts < 2 ^ 64 → Hands next held (source.Pairs ps n) ts xs
        → map Some xs ≡ pairs_read ps n (heaps_before held ts) }
    ensures end { (held : Held) (ps : List HashItem) (n : ℕ) (ts : List Turn) (xs : List Value)
        → n + length ts < 2 ^ 64 → Hands next held (source.Pairs ps n) ts xs
        → (next (last_heap held ts) (left_of next held (source.Pairs ps n) ts)).item
        ≡ pair_in (last_heap held ts) (slice_get ps (n + length ts)) }
{}

/// The items of a Range of Integers, of which so many are left: one after another, and all of them where none is left.
pub fn numbers_are_handed_on()
    ensures items { (held : Held) (z last : ℤ) (k : ℕ) (ts : List Turn) (xs : List Value)
        → Hands next held (so_many z last k) ts xs → xs ≡ map (λ n. Int n) (integers_from z (length ts)) }
    ensures end { (held : Held) (z last : ℤ) (k : ℕ) (ts : List Turn) (xs : List Value)
        → Hands next held (so_many z last k) ts xs
        → (next (last_heap held ts) (left_of next held (so_many z last k) ts)).item ≡ None → length ts ≡ k }
{}

/// `each_index`: the block is called with each place of an Array, of which the length is read anew each time.
pub fn places_are_handed_on()
    ensures { (held after : Held) (recv v : Value) (a b : ObjId) (ts : List Turn) → length ts < 2 ^ 63
        → an_array held.store.objects recv ≡ Some a
        → Gives (row.Visit visit.EachIndex) held recv [] (Some b) ts v after → Places held a 0 b ts v after }
{}

/// `map!`: the block is called with each element as it stands when the answer before has taken its place, and the Array is
/// given.
pub fn answers_replace_elements()
    ensures { (held after : Held) (recv v : Value) (a b : ObjId) (ts : List Turn) → length ts < 2 ^ 64
        → an_array held.store.objects recv ≡ Some a
        → Gives (row.Visit visit.MapInPlace) held recv [] (Some b) ts v after
        → Visits next held (source.Elements a 0) b Whole alone (replaced_from a 0 ts)
        (λ h items. IsValue h (Obj a) v after) }
{}

/// `delete_if` of an Array: the block is called with each element that is come to, those whose answers are true are gone
/// when these have come, and the Array is given.
pub fn answers_thin_out()
    ensures { (held after : Held) (recv v : Value) (a b : ObjId) (ts : List Turn) → length ts < 2 ^ 64
        → an_array held.store.objects recv ≡ Some a
        → Gives (row.Visit visit.DeleteElements) held recv [] (Some b) ts v after → ThinsOut held a b 0 ts v after }
{}

/// `delete_if` of a Hash: the block is called with the key and the value of each pair that the Hash had at the start, each
/// whose answer is true is gone when that has come, and the Hash is given.
pub fn answers_drop_pairs()
    ensures { (held after : Held) (recv v : Value) (a b : ObjId) (ts : List Turn) → length ts < 2 ^ 64
        → a_hash held.store.objects recv ≡ Some a
        → Gives (row.Visit visit.DeletePairs) held recv [] (Some b) ts v after
        → Drops held a b (items (pairs held.store a)) ts v after }
{}

/// Of an Array that the program leaves alone: `map!` comes to the elements as they were at the start, and its elements are
/// the answers at the end; so are those of a new one that a block fills; and `delete_if` leaves those whose answers aren't
/// true.
pub fn an_array_left_alone()
    ensures replaced { (held after : Held) (recv v : Value) (a b : ObjId) (ts : List Turn) → length ts < 2 ^ 64
        → an_array held.store.objects recv ≡ Some a
        → Gives (row.Visit visit.MapInPlace) held recv [] (Some b) ts v after → LeftAlone a ts
        → (calls_of ts ≡ map (λ x. Some (b, x ∷ [])) (elements_at held.store.objects a))
        × (elements_at after.store.objects a ≡ owned ts) }
    ensures thinned { (held after : Held) (recv v : Value) (a b : ObjId) (ts : List Turn) → length ts < 2 ^ 64
        → an_array held.store.objects recv ≡ Some a
        → Gives (row.Visit visit.DeleteElements) held recv [] (Some b) ts v after → LeftAlone a ts → HasElements a ts
        → (calls_of ts ≡ map (λ x. Some (b, x ∷ [])) (elements_at held.store.objects a))
        × (elements_at after.store.objects a
        ≡ picked is_untrue (elements_at held.store.objects a) (answers ts)) }
    ensures filled { (held after : Held) (recv size v : Value) (a b : ObjId) (n : ℕ) (ts : List Turn)
        → an_array held.store.objects recv ≡ Some a → size_in held.store size ≡ Ok n
        → Gives (row.Visit visit.InitializeArray) held recv (size ∷ []) (Some b) ts v after → LeftAlone a ts
        → elements_at after.store.objects a ≡ owned ts }
{}

/// `initialize` of an Array with a size and a block: the elements are taken away, and the block is called with so many places
/// from 0 on, each of whose answers stands behind the elements then; the Array is given.
pub fn answers_fill_an_array()
    ensures { (held after : Held) (recv size v : Value) (a b : ObjId) (n : ℕ) (ts : List Turn)
        → an_array held.store.objects recv ≡ Some a → size_in held.store size ≡ Ok n
        → Gives (row.Visit visit.InitializeArray) held recv (size ∷ []) (Some b) ts v after
        → Fills (with_elements held a []) a b 0 n ts v after }
{}

/// `each_char` and `each_line`: the block is called with a new String of each byte, or of each line with its newline, of the
/// text as it was at the start, and the String is given.
pub fn texts_are_handed_on()
    ensures characters { (held after : Held) (recv v : Value) (s b : ObjId) (ts : List Turn) → length ts < 2 ^ 63
        → a_string held.store.objects recv ≡ Some s
        → Gives (row.Visit visit.EachCharacter) held recv [] (Some b) ts v after
        → HandsTexts held s b (characters (text_at held.store.objects s)) ts v after }
    ensures lines { (held after : Held) (recv v : Value) (s b : ObjId) (ts : List Turn)
        → a_string held.store.objects recv ≡ Some s
        → Gives (row.Visit visit.EachLine) held recv [] (Some b) ts v after
        → HandsTexts held s b (lines (text_at held.store.objects s)) ts v after }
{}

/// `each_byte`: the block is called with the number of each byte, as it stands when the answer before has come, until the
/// place isn't within the String any more, which is given.
pub fn bytes_are_read_anew()
    ensures { (held after : Held) (recv v : Value) (s b : ObjId) (ts : List Turn) → length ts < 2 ^ 64
        → a_string held.store.objects recv ≡ Some s
        → Gives (row.Visit visit.EachByte) held recv [] (Some b) ts v after → HandsBytes held s b 0 ts v after }
{}

/// `loop`: the block is called without values again and again, in the heap as the answer before left it; no answer ends it.
pub fn loop_goes_on()
    ensures calls { (held : Held) (recv : Value) (b : ObjId) (ts : List Turn) (first last : Planned Stage)
        → Starts (row.Kernel kernel.Loop) held recv [] (Some b) first → Runs first ts last → LoopsOn held b ts last }
    ensures endless { (held after : Held) (recv v : Value) (b : ObjId) (ts : List Turn)
        → Gives (row.Kernel kernel.Loop) held recv [] (Some b) ts v after → ⊥ }
{}

/// A call of a block that is made in place of a plan is the call that the next plan would make, and leaves the same heap and
/// the same state; so a run over the plans is the run of the machine.
pub fn calls_in_place_are_those_of_plans()
    ensures looping { (held after : Held) (p : ObjId) (a : Value) (s : Iteration) (b : Beat)
        → Beats held (state.Looping p) a after s (Some b)
        → GoesOn held (own (state.Looping p)) a (call_beat after (stage_of s) b) }
    ensures numbers { (held after : Held) (c : Count) (a : Value) (s : Iteration) (b : Beat)
        → Beats held (state.Counting c) a after s (Some b)
        → GoesOn held (own (state.Counting c)) a (call_beat after (stage_of s) b) }
    ensures elements { (held after : Held) (w : Visit) (a : Value) (s : Iteration) (b : Beat)
        → Beats held (state.Visiting w) a after s (Some b)
        → GoesOn held (own (state.Visiting w)) a (call_beat after (stage_of s) b) }
    ensures places { (held after : Held) (w : Visit) (a : Value) (s : Iteration) (b : Beat)
        → Beats held (state.Indexing w) a after s (Some b)
        → GoesOn held (own (state.Indexing w)) a (call_beat after (stage_of s) b) }
    ensures fills { (held after : Held) (f : Filling) (a : Value) (s : Iteration) (b : Beat)
        → Beats held (state.Filling f) a after s (Some b)
        → GoesOn held (own (state.Filling f)) a (call_beat after (stage_of s) b) }
    ensures pairs { (held after : Held) (w : PairWalk) (a : Value) (s : Iteration) (b : Beat)
        → Beats held (state.Pairs w) a after s (Some b)
        → GoesOn held (own (state.Pairs w)) a (call_beat after (stage_of s) b) }
    ensures items { (held after : Held) (v : of_items.Visit) (a : Value) (s : Iteration) (b : Beat) → v.wish ≡ None
        → Beats held (state.Items (items_state.Visits v)) a after s (Some b)
        → GoesOn held (over_items (visits v)) a (call_beat after (stage_of s) b) }
{}

/// A run of `map` over an Array of one element.
pub fn a_run()
    ensures { (held : Held) (recv x y : Value) (a b : ObjId) → an_array held.store.objects recv ≡ Some a
        → elements_at held.store.objects a ≡ x ∷ []
        → IsRunOf task.Map held recv (source.Elements a 0) [] b (turn held recv a b x y ∷ [])
        (array_given held.store (y ∷ [])) (with_array held (y ∷ [])) }
{}
