//! Operators that have an instruction of their own.
ghost use Rattle.std.specs.Prelude.{◌≡◌};
ghost use Rattle.gen_forms.specs.Gen as gens;

use rite_code::Operation;

/// The instruction of an operator. None where it has none.
pub fn operator(name: &[u8], a: u16) -> Option<Operation>
    ensures { result ≡ gens.operator name.now a }
{
    if name == b"+".as_slice() {
        Some(Operation::Add { a })
    } else if name == b"-".as_slice() {
        Some(Operation::Sub { a })
    } else if name == b"*".as_slice() {
        Some(Operation::Mul { a })
    } else if name == b"/".as_slice() {
        Some(Operation::Div { a })
    } else {
        comparison(name, a)
    }
}

fn comparison(name: &[u8], a: u16) -> Option<Operation>
    ensures { result ≡ gens.comparison name.now a }
{
    if name == b"==".as_slice() {
        Some(Operation::Eq { a })
    } else if name == b"<".as_slice() {
        Some(Operation::Lt { a })
    } else if name == b"<=".as_slice() {
        Some(Operation::Le { a })
    } else if name == b">".as_slice() {
        Some(Operation::Gt { a })
    } else if name == b">=".as_slice() {
        Some(Operation::Ge { a })
    } else {
        None
    }
}
