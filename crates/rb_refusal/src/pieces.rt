//! Writing a text in pieces.
ghost use Rattle.std.specs.Prelude.{flat_map};
ghost use Rattle.rb_refusal.specs.Writing.{Says};

use rb_base::{Failed, Sink, write_all};

/// Writes the pieces one after another.
///
/// `Failed` where a call failed: then a front of them went out.
pub fn write_pieces<O: Sink>(out: &mut O, pieces: &[&[u8]]) -> Result<(), Failed>
    ensures { Says (flat_map (λ p. p.now) pieces.now)
        (record { taken = O.taken out.old; faults = O.faults out.old })
        (record { taken = O.taken out.new; faults = O.faults out.new }) result }
{
    'pieces: for piece in pieces {
        write_all(out, piece)?;
    }
    Ok(())
}

/// Writes a text.
///
/// `Failed` where a call failed: then a front of it went out.
pub fn write_text<O: Sink>(out: &mut O, text: &[u8]) -> Result<(), Failed>
    ensures { Says text.now
        (record { taken = O.taken out.old; faults = O.faults out.old })
        (record { taken = O.taken out.new; faults = O.faults out.new }) result }
{
    write_all(out, text)
}
