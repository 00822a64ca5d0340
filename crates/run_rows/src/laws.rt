//! A law of the store at the start.
ghost use Rattle.std.specs.Prelude.{◌≡◌, map, true};
ghost use Rattle.run_rows.specs.Methods.{had, others_have_none, segments, told};
ghost use Rattle.run_rows.specs.Opening.{opening};

/// The methods that classes and class objects have in the store at the start are the rows of their segments, in their
/// order, each under its name by its number, and no other object has any.
pub fn laws_of_opening()
    ensures methods { had opening segments ≡ map told segments }
    ensures others { others_have_none opening segments 0 opening.objects ≡ true }
{}
