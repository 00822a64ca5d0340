//! A law of the store at the start.
ghost use Rattle.std.specs.Prelude.{◌≡◌, [], false};
ghost use Rattle.rb_value.specs.declared.value.ObjId.{ObjId};
ghost use Rattle.def_core.specs.Classes.{class_at};
ghost use Rattle.def_core.specs.Sound.{AllAre};
ghost use Rattle.row_table.specs.Segments.{segments};
ghost use Rattle.rb_store.specs.Opening.{opening};
ghost use Rattle.rb_store.specs.Methods.{HasSegment, is_holder};

/// The methods that the store at the start has for a segment of the table are its rows, under their names, and it has no
/// others.
pub fn laws_of_opening()
    ensures segments { AllAre HasSegment segments }
    ensures others { (id : ObjId) → is_holder id ≡ false → (class_at opening.objects id).methods ≡ [] }
{}
