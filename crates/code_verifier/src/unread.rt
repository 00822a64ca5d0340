//! Why no instruction can be read.
ghost use Rattle.std.specs.Prelude.{◌≡◌};
ghost use Rattle.code_verifier.specs.Checks as checks;

use rite_code::decoding::EXT;
use rite_code::{Cause, Opcode};

/// The cause after EXT where no instruction can be read.
fn unread_extended(rest: &[u8]) -> Cause
    ensures { result ≡ checks.unread_extended rest.now }
{
    let [number, operands @ ..] = rest else {
        return Cause::Cut;
    };
    if *number == EXT {
        return Cause::Extended;
    }
    match Opcode::from_number(*number) {
        None => Cause::Opcode,
        Some(opcode) => {
            if operands.len() < opcode.shape().operand_size(true) {
                Cause::Cut
            } else {
                Cause::Extended
            }
        }
    }
}

/// The cause where no instruction can be read at the front of these bytes: the number of none, operands that pass
/// the end, or EXT before an instruction that may not be wide.
#[tactic(auto, unfolding(crate::specs::Checks::unread))]
pub fn unread(version: u8, rest: &[u8]) -> Cause
    ensures { result ≡ checks.unread version rest.now }
{
    let [number, others @ ..] = rest else {
        return Cause::Cut;
    };
    if version == 2 && *number == EXT {
        return unread_extended(others);
    }
    match Opcode::from_number(*number) {
        None => Cause::Opcode,
        Some(_) => Cause::Cut,
    }
}
