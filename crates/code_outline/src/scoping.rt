//! The body around each block and lambda.
ghost use Rattle.std.specs.Prelude.{◌≡◌, ◌<◌, ◌^◌, length, map, IfOk};
ghost use Rattle.code_outline.specs.Makers as made;
ghost use Rattle.scope_leaps.specs.Leaps.{ComeBefore};

use crate::maker::{Maker, around};
use rb_base::List;
use scope_leaps::Scopes;
use std::alloc::{AllocError, Global};

/// The body around each, by their makers.
fn outers_of(alloc: Global, makers: &[Option<Maker>]) -> Result<List<Option<u32>>, AllocError>
    ensures { IfOk result (λ outers. outers ≡ map made.around makers.now) }
{
    let mut outers = List::new(alloc);
    for maker in makers {
        outers.push(around(*maker))?;
    }
    Ok(outers)
}

/// The scopes of bodies, by their makers.
pub fn scopes_of(alloc: Global, makers: &[Option<Maker>]) -> Result<Scopes, AllocError>
    requires small { length makers.now < 2 ^ 32 }
    requires before { ComeBefore (map made.around makers.now) }
    ensures { IfOk result (λ scopes. scopes ≡ map made.around makers.now) }
{
    let outers = outers_of(alloc, makers)?;
    Scopes::new(alloc, outers)
}
