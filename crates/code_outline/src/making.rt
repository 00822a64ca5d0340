//! Who makes each body.
ghost use Rattle.std.specs.Prelude.{◌≡◌, ◌<◌, ◌^◌, length};
ghost use Rattle.code_outline.specs.Layout as laid;
ghost use Rattle.code_outline.specs.Makers as made;
ghost use Rattle.code_outline.specs.Making.{listed, AreMarked};
ghost use Rattle.code_outline.specs.Outlined.{seen};

use crate::laying::standing_at;
use crate::layout::Standing;
use crate::maker::{Maker, Purpose};
use rite_code::{Irep, Operation};

/// The index among the children and the purpose, where the instruction uses a child.
#[inline(always)]
pub fn use_in(operation: Operation) -> Option<(u16, Purpose)>
    ensures { result ≡ made.use_in operation }
{
    match operation {
        Operation::Lambda { b, .. } => Some((b, Purpose::Lambda)),
        Operation::Block { b, .. } => Some((b, Purpose::Block)),
        Operation::Exec { b, .. } => Some((b, Purpose::ClassBody)),
        Operation::Def { c, .. } => Some((c, Purpose::Method)),
        _ => None,
    }
}

/// The number of the child that an instruction of a body uses, and the maker that it is of it.
fn made_by(number: u32, body: &Irep, standing: Standing) -> Option<(u32, Maker)>
    ensures { listed result ≡ made.made_by number body.now (seen standing) }
{
    let (index, purpose) = use_in(standing.instr.operation())?;
    let child = *body.children.as_slice().get(index as usize)?;
    let maker = Maker {
        body: number,
        at: standing.at,
        purpose,
    };
    Some((child, maker))
}

/// Puts down the maker of a body that has none.
fn put_maker(makers: &mut [Option<Maker>], child: u32, maker: Maker)
    ensures { AreMarked (listed (Some (child, maker))) makers.old makers.new }
{
    let child = child as usize;
    if child < makers.len() && makers[child].is_none() {
        makers[child] = Some(maker);
    }
}

/// Puts down the makers that stand in a body, of each body that has none yet. No list of its instructions is made; that
/// of a body without children is passed over.
pub fn put_makers(makers: &mut [Option<Maker>], version: u8, number: u32, body: &Irep)
    requires { length body.now.code < 2 ^ 32 }
    ensures { AreMarked (made.made_in number body.now (laid.layout version body.now.code)) makers.old makers.new }
{
    if body.children.is_empty() {
        return;
    }
    let code = body.code.as_slice();
    let mut at = 0;
    'places: while let Some(standing) = standing_at(version, code, at) {
        at = standing.next as usize;
        if let Some((child, maker)) = made_by(number, body, standing) {
            put_maker(makers, child, maker);
        }
    }
}
