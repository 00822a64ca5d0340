//! Runs that are left, since what they called raised, broke out or went elsewhere.

ghost use Rattle.std.specs.Prelude.{◌≡◌, ℕ, suc, ◌<◌, ◌^◌, ℤ, pos, true, false, List, [], ◌∷◌, length, Some, Ok};
ghost use Rattle.rb_value.specs.declared.value.Value.{Value};
ghost use Rattle.rb_value.specs.declared.value.Value.TheVariants.{Int};
ghost use Rattle.rb_value.specs.declared.value.ObjId.{ObjId};
ghost use Rattle.rb_value.specs.declared.hash.HashItem.{HashItem};
ghost use Rattle.rb_value.specs.Value.{is_true};
ghost use Rattle.def_core.specs.Parts.{elements_at};
ghost use Rattle.def_core.specs.Store.{Store};
ghost use Rattle.def_calls.specs.Views.{an_array};
ghost use Rattle.rb_store.specs.Held.{Held};
ghost use Rattle.def_plans.specs.Plan.{Planned};
ghost use Rattle.iter_items.specs.declared.row.Task.{Task};
ghost use Rattle.iter_items.specs.declared.row.Task.TheVariants as task;
ghost use Rattle.iter_items.specs.declared.source.Source.{Source};
ghost use Rattle.iter_items.specs.declared.source.Source.TheVariants as source;
ghost use Rattle.iter_items.specs.Checks.{size_of};
ghost use Rattle.iter_items.specs.Sources.{next, previous};
ghost use Rattle.run_rows.specs.declared.row.StarRow.TheVariants as row;
ghost use Rattle.run_rows.specs.declared.row.VisitRow.TheVariants as visit;
ghost use Rattle.core_iter.specs.Counting.{count_next};
ghost use Rattle.core_iter.specs.declared.counting.Count.{Count};
ghost use Rattle.core_iter.specs.declared.iteration.Iteration.{Iteration};
ghost use Rattle.core_iter.specs.Rows.{Starts, caught};
ghost use Rattle.core_iter.specs.Stage.{Stage};
ghost use Rattle.items_laws.specs.Example.{turn};
ghost use Rattle.items_laws.specs.Firsts.{FoldsOff};
ghost use Rattle.items_laws.specs.Run.{Turn, Runs, waiting};
ghost use Rattle.items_laws.specs.Items.{answers, with_arguments};
ghost use Rattle.items_laws.specs.Lists.{alone, in_turn, is_untrue, with_object, with_places};
ghost use Rattle.items_laws.specs.Changed.{replaced_from};
ghost use Rattle.items_laws.specs.Cut.{Cut, CutsGroups, CutsNeighbours, CutsOff, CutsPairs, CutsPlaces, CutsSums, IsLeft, IsCut, Stops, hands_alone};
ghost use Rattle.items_laws.specs.Slices.{slices};

/// Where the block never answers, by an exception or an exit, it was called with the items one after another until then, each
/// in the heap as the answer before left it, and nothing else was handed on: in whatever a method does with the answers.
pub fn runs_are_left()
    ensures alone { (held : Held) (recv : Value) (t : Task) (s : Source) (b : ObjId) (ts : List Turn)
        (last : Planned Stage) → hands_alone s t ≡ true → IsLeft t held recv s [] b ts last
        → IsCut next held s b alone ts last }
    ensures backwards { (held : Held) (recv : Value) (s : Source) (b : ObjId) (ts : List Turn) (last : Planned Stage)
        → IsLeft task.ReverseEach held recv s [] b ts last → IsCut previous held s b alone ts last }
    ensures counting { (held : Held) (recv : Value) (s : Source) (b : ObjId) (ts : List Turn) (last : Planned Stage)
        → IsLeft task.Count held recv s [] b ts last
        → IsCut next (with_arguments task.Count held [] b) s b alone ts last }
    ensures with_index { (held : Held) (recv : Value) (s : Source) (b : ObjId) (ts : List Turn) (last : Planned Stage)
        → IsLeft task.EachWithIndex held recv s [] b ts last → IsCut next held s b (with_places 0) ts last }
    ensures object { (held : Held) (recv object : Value) (s : Source) (b : ObjId) (ts : List Turn) (last : Planned Stage)
        → IsLeft task.EachWithObject held recv s (object ∷ []) b ts last
        → IsCut next held s b (with_object object) ts last }
    ensures folding { (held : Held) (recv first : Value) (s : Source) (b : ObjId) (ts : List Turn) (last : Planned Stage)
        → IsLeft task.Inject held recv s (first ∷ []) b ts last
        → IsCut next held s b (in_turn (first ∷ answers ts)) ts last }
    ensures from_first { (held : Held) (recv first : Value) (s : Source) (b : ObjId) (ts : List Turn)
        (last : Planned Stage) → (next held s).item ≡ Some first → IsLeft task.Inject held recv s [] b ts last
        → FoldsOff held s b ts first last }
{}

/// So it is of `drop_while`; of `each_slice`, which hands on a new Array of each so many items; of `each_cons`, of each so many
/// neighbours; of `sum` with a block, which is left while that is called or while the sum of two values is asked for; and of
/// the methods that make a Hash, which the answers so far have changed.
pub fn methods_are_left()
    ensures dropping { (held : Held) (recv : Value) (s : Source) (b : ObjId) (ts : List Turn) (last : Planned Stage)
        → IsLeft task.DropWhile held recv s [] b ts last → IsCut next held s b alone ts last }
    ensures slices { (held : Held) (recv size : Value) (n : ℕ) (s : Source) (b : ObjId) (ts : List Turn)
        (last : Planned Stage) → size_of held.store size ≡ Ok n → IsLeft task.EachSlice held recv s (size ∷ []) b ts last
        → IsCut (slices n) held s b alone ts last }
    ensures neighbours { (held : Held) (recv size : Value) (n : ℕ) (s : Source) (b : ObjId) (ts : List Turn)
        (last : Planned Stage) → size_of held.store size ≡ Ok n → IsLeft task.EachCons held recv s (size ∷ []) b ts last
        → CutsNeighbours n held s b ts last }
    ensures sums { (held : Held) (recv : Value) (s : Source) (b : ObjId) (ts : List Turn) (last : Planned Stage)
        → IsLeft task.Sum held recv s [] b ts last → CutsSums held s b (Int (pos 0)) ts last }
    ensures sums_from { (held : Held) (recv first : Value) (s : Source) (b : ObjId) (ts : List Turn)
        (last : Planned Stage) → IsLeft task.Sum held recv s (first ∷ []) b ts last → CutsSums held s b first ts last }
    ensures groups { (held : Held) (recv : Value) (s : Source) (b : ObjId) (ts : List Turn) (last : Planned Stage)
        → IsLeft task.GroupBy held recv s [] b ts last → CutsGroups held s b ts last }
    ensures selecting { (held : Held) (recv : Value) (ps : List HashItem) (b : ObjId) (ts : List Turn)
        (last : Planned Stage) → length ts < 2 ^ 64 → IsLeft task.Select held recv (source.Pairs ps 0) [] b ts last
        → CutsPairs is_true held ps b ts last }
    ensures rejecting { (held : Held) (recv : Value) (ps : List HashItem) (b : ObjId) (ts : List Turn)
        (last : Planned Stage) → length ts < 2 ^ 64 → IsLeft task.Reject held recv (source.Pairs ps 0) [] b ts last
        → CutsPairs is_untrue held ps b ts last }
{}

/// So it is of `each` of an Array, and of `map!`, in whose heaps each answer so far has taken the place of its element.
pub fn each_is_left()
    ensures replacing { (held : Held) (recv : Value) (a b : ObjId) (ts : List Turn) (first last : Planned Stage)
        (stage : Stage) → length ts < 2 ^ 64 → an_array held.store.objects recv ≡ Some a
        → Starts (row.Visit visit.MapInPlace) held recv [] (Some b) first → Runs first ts last
        → waiting last.plan ≡ Some stage
        → Cut next held (source.Elements a 0) b alone (replaced_from a 0 ts) last }
    ensures each { (held : Held) (recv : Value) (a b : ObjId) (ts : List Turn) (first last : Planned Stage) (stage : Stage)
        → an_array held.store.objects recv ≡ Some a → Starts (row.Visit visit.EachElement) held recv [] (Some b) first
        → Runs first ts last → waiting last.plan ≡ Some stage
        → Cut next held (source.Elements a 0) b alone ts last }
{}

/// And of `times`, `upto`, `downto`, `step` and `each` of a Range of Integers: wherever such an iteration stands, the block is
/// called with each number from the next one on until it doesn't answer.
pub fn numbers_are_left()
    ensures { (held : Held) (c : Count) (z : ℤ) (ts : List Turn) (last : Planned Stage) (stage : Stage)
        → c.next ≡ Some z → c.of_bytes ≡ false → Runs (count_next held c) ts last → waiting last.plan ≡ Some stage
        → CutsOff z c.by c.block ts last }
{}

/// And of `each_index`: the block is called with each place from the first one on until it doesn't answer.
pub fn places_are_left()
    ensures { (held : Held) (recv : Value) (a b : ObjId) (ts : List Turn) (first last : Planned Stage) (stage : Stage)
        → suc (length ts) < 2 ^ 63 → an_array held.store.objects recv ≡ Some a
        → Starts (row.Visit visit.EachIndex) held recv [] (Some b) first → Runs first ts last
        → waiting last.plan ≡ Some stage → CutsPlaces b ts last }
{}

/// An iteration that catches an exception is a `loop`, the exception is a StopIteration, and its result is given; so any
/// other exception leaves a `loop`, and each exception leaves whatever other iteration.
pub fn loops_are_stopped()
    ensures { (st : Store) (s : Iteration) (e : ObjId) (v : Value) → caught st s e ≡ Some v → Stops st s e v }
{}

/// A run of `map` over an Array of one element, whose block doesn't answer.
pub fn a_left_run()
    ensures { (held : Held) (recv x y : Value) (a b : ObjId) → an_array held.store.objects recv ≡ Some a
        → elements_at held.store.objects a ≡ x ∷ []
        → IsLeft task.Map held recv (source.Elements a 0) [] b [] (turn held recv a b x y).wanted }
{}
