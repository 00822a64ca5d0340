//! Runs that call nothing, and so can't be left.

ghost use Rattle.std.specs.Prelude.{◌≡◌, ℕ, ℤ, pos, int_lt, true, List, [], ◌∷◌, ◌++◌, Option, Some, None, Ok};
ghost use Rattle.rb_value.specs.declared.value.Value.{Value};
ghost use Rattle.rb_value.specs.declared.value.Value.TheVariants.{Obj};
ghost use Rattle.rb_value.specs.declared.value.ObjId.{ObjId};
ghost use Rattle.def_calls.specs.Views.{an_array, kind_in};
ghost use Rattle.heap.specs.Made.{array_given};
ghost use Rattle.heap.specs.Reading.{range_in};
ghost use Rattle.rb_store.specs.Held.{Held};
ghost use Rattle.core_calls.specs.Checks.{integer};
ghost use Rattle.def_plans.specs.Plan.{Planned};
ghost use Rattle.rows_items.specs.declared.rows.ItemRow.{ItemRow};
ghost use Rattle.iter_comparing.specs.declared.row.ComparingRow.TheVariants as comparing_row;
ghost use Rattle.iter_items.specs.declared.row.GatheringRow.TheVariants as gathering;
ghost use Rattle.iter_items.specs.declared.row.ItemsRow.TheVariants as items_row;
ghost use Rattle.iter_items.specs.declared.row.Task.TheVariants as task;
ghost use Rattle.iter_items.specs.declared.source.Source.{Source};
ghost use Rattle.run_rows.specs.declared.row.StarRow.TheVariants as row;
ghost use Rattle.run_rows.specs.declared.row.VisitRow.TheVariants as visit;
ghost use Rattle.core_iter.specs.Stage.{Stage};
ghost use Rattle.items_laws.specs.Beginning.{Leaves};
ghost use Rattle.items_laws.specs.Cut.{IsLeftBy};
ghost use Rattle.items_laws.specs.CutAsked.{IsAbandoned};
ghost use Rattle.items_laws.specs.Gathered.{gathers_outright};
ghost use Rattle.items_laws.specs.Items.{collected_in};
ghost use Rattle.items_laws.specs.Run.{Turn, waiting};
ghost use Rattle.items_laws.specs.Sieved.{elements, own_equality};
ghost use Rattle.items_laws.specs.Texts.{bytes_before};

/// Nothing is awaited by a new Array without a block; by `each` and `step` of a Range that has no bytes, since it ends before the
/// first byte of all; by `-`, `&` and `|` of Integers and Strings with the `==` of their class; and by a method of Enumerable that
/// calls no block, once `each` has returned.
pub fn nothing_is_awaited()
    ensures array { (held : Held) (recv : Value) (args : List Value) (ts : List Turn) (last : Planned Stage)
        → Leaves (row.Visit visit.InitializeArray) held recv args None ts last → ⊥ }
    ensures each { (held : Held) (recv : Value) (a : ℕ) (b : ObjId) (ts : List Turn) (last : Planned Stage)
        → range_in (kind_in held.store.objects recv) ≡ Some (bytes_before a 0)
        → Leaves (row.Visit visit.EachOfRange) held recv [] (Some b) ts last → ⊥ }
    ensures steps { (held : Held) (recv size : Value) (a : ℕ) (by : ℤ) (b : ObjId) (ts : List Turn)
        (last : Planned Stage) → range_in (kind_in held.store.objects recv) ≡ Some (bytes_before a 0)
        → integer held.store size ≡ Ok by → int_lt (pos 0) by ≡ true
        → Leaves (row.Visit visit.StepOfRange) held recv (size ∷ []) (Some b) ts last → ⊥ }
    ensures difference { (held : Held) (recv y : Value) (a b : ObjId) (block : Option ObjId) (ts : List Turn)
        (last : Planned Stage) → an_array held.store.objects recv ≡ Some a → an_array held.store.objects y ≡ Some b
        → own_equality held (elements held a) (elements held b) ≡ true
        → IsAbandoned comparing_row.ArrayDifference held recv (y ∷ []) block ts last → ⊥ }
    ensures intersection { (held : Held) (recv y : Value) (a b : ObjId) (block : Option ObjId) (ts : List Turn)
        (last : Planned Stage) → an_array held.store.objects recv ≡ Some a → an_array held.store.objects y ≡ Some b
        → own_equality held (elements held a) (elements held b) ≡ true
        → IsAbandoned comparing_row.ArrayIntersection held recv (y ∷ []) block ts last → ⊥ }
    ensures union { (held : Held) (recv y : Value) (a b : ObjId) (block : Option ObjId) (ts : List Turn)
        (last : Planned Stage) → an_array held.store.objects recv ≡ Some a → an_array held.store.objects y ≡ Some b
        → own_equality held (elements held a ++ elements held b) [] ≡ true
        → IsAbandoned comparing_row.ArrayUnion held recv (y ∷ []) block ts last → ⊥ }
    ensures outright { (before : Held) (r : ItemRow) (recv : Value) (args : List Value) (block : Option ObjId) (each : Turn)
        (collected a : ObjId) (ts : List Turn) (last : Planned Stage)
        → Leaves (row.Items (items_row.Gathers (gathering.Outright r))) before recv args block (each ∷ ts) last
        → waiting each.wanted.plan ≡ Some (gathers_outright r recv args block collected)
        → array_given each.held.store (collected_in each collected) ≡ Obj a → ⊥ }
{}

/// Nor by `any?`, `all?`, `none?` and `count` without a block and a value.
pub fn items_are_not_asked()
    ensures any { (held : Held) (recv : Value) (s : Source) (ts : List Turn) (last : Planned Stage)
        → IsLeftBy task.Any held recv s [] None ts last → ⊥ }
    ensures every { (held : Held) (recv : Value) (s : Source) (ts : List Turn) (last : Planned Stage)
        → IsLeftBy task.All held recv s [] None ts last → ⊥ }
    ensures none { (held : Held) (recv : Value) (s : Source) (ts : List Turn) (last : Planned Stage)
        → IsLeftBy task.Never held recv s [] None ts last → ⊥ }
    ensures count { (held : Held) (recv : Value) (s : Source) (ts : List Turn) (last : Planned Stage)
        → IsLeftBy task.Count held recv s [] None ts last → ⊥ }
{}
