//! What methods of Enumerable want first, and those that call no block.

ghost use Rattle.std.specs.Prelude.{◌≡◌, List, [], ◌∷◌, Option, Some};
ghost use Rattle.rb_value.specs.declared.value.Value.{Value};
ghost use Rattle.rb_value.specs.declared.value.Value.TheVariants.{Obj};
ghost use Rattle.rb_value.specs.declared.value.ObjId.{ObjId};
ghost use Rattle.rb_store.specs.Held.{Held};
ghost use Rattle.heap.specs.Made.{array_given, with_array};
ghost use Rattle.def_plans.specs.Plan.{Planned};
ghost use Rattle.rows_items.specs.declared.rows.ItemRow.{ItemRow};
ghost use Rattle.iter_items.specs.declared.row.GatheringRow.{GatheringRow};
ghost use Rattle.iter_items.specs.declared.row.GatheringRow.TheVariants as gathering;
ghost use Rattle.iter_items.specs.declared.row.ItemsRow.TheVariants as items_row;
ghost use Rattle.run_rows.specs.declared.row.StarRow.TheVariants as row;
ghost use Rattle.core_iter.specs.Rows.{Starts};
ghost use Rattle.core_iter.specs.Stage.{Stage};
ghost use Rattle.items_laws.specs.Each.{AsksEach};
ghost use Rattle.items_laws.specs.Run.{Turn, Gives, waiting};
ghost use Rattle.items_laws.specs.Gathered.{IsOfArray, gathers_outright};
ghost use Rattle.items_laws.specs.Items.{collected_in};

/// `to_a`, `entries`, `first`, `min`, `max`, `sort`, `uniq`, `zip`, `take`, `drop` and `tally` of Enumerable, once `each` has
/// returned: what the same method gives of a new Array of what that collected, and nothing is called any more.
pub fn gathered_items_are_given()
    ensures { (before after : Held) (r : ItemRow) (recv v : Value) (args : List Value) (block : Option ObjId) (each : Turn)
        (collected a : ObjId) (ts : List Turn)
        → Gives (row.Items (items_row.Gathers (gathering.Outright r))) before recv args block (each ∷ ts) v after
        → waiting each.wanted.plan ≡ Some (gathers_outright r recv args block collected)
        → array_given each.held.store (collected_in each collected) ≡ Obj a
        → (ts ≡ []) × IsOfArray r (with_array each.held (collected_in each collected)) a args v after }
{}

/// Every method of Enumerable: where it wants something first, that is `each` of the receiver, with a new Proc that collects in a
/// new Array what it is called with. So where `each` never returns, that is what is awaited.
pub fn each_is_asked_first()
    ensures { (r : GatheringRow) (held : Held) (recv : Value) (args : List Value) (block : Option ObjId)
        (first : Planned Stage) (stage : Stage) → Starts (row.Items (items_row.Gathers r)) held recv args block first
        → waiting first.plan ≡ Some stage → AsksEach r recv args block first }
{}
