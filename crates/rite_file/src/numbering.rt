//! The numbers of the children of bodies.
ghost use Rattle.std.specs.Prelude.{◌≡◌, ◌≤◌, length, take, drop, reverse, IfOk, OnOk};
ghost use Rattle.rite_file.specs.Loaded as specs;

use crate::records::Record;
use rb_base::List;
use rite_code::Irep;
use std::alloc::{AllocError, Global};

/// Takes so many numbers from the end, the last first.
#[tactic(auto, using(crate::proofs::Forests::last_of))]
fn take_roots(alloc: Global, roots: &mut Vec<u32>, count: u16) -> Result<List<u32>, AllocError>
    ensures taken { IfOk result (λ children. children ≡ take count (reverse roots.old.items)) }
    ensures left { OnOk result (reverse roots.new.items ≡ drop count (reverse roots.old.items)) }
{
    let left = roots.len().saturating_sub(count as usize);
    let mut taken = Vec::from_slice(alloc, &roots[left..])?;
    taken.reverse();
    roots.truncate(left);
    Ok(List::from_vec(taken))
}

/// The bodies of the records, depth first, each with the numbers of its children: from the last body to the first,
/// the children of a body are the nearest roots after it.
#[tactic(auto, using(crate::proofs::Forests::onto_last, crate::proofs::Forests::onto_nothing))]
pub fn numbered(alloc: Global, records: List<Record>) -> Result<List<Irep>, AllocError>
    requires { length records ≤ 65536 }
    ensures { IfOk result (λ bodies. bodies ≡ (specs.numbered 0 records).0) }
{
    let mut left = records.into_vec();
    let mut bodies = Vec::new(alloc);
    let mut roots = Vec::new(alloc);
    'bodies: while let Some(record) = left.pop() {
        let Record { mut body, children } = record;
        body.children = take_roots(alloc, &mut roots, children)?;
        bodies.push(body)?;
        roots.push(left.len() as u32)?;
    }
    bodies.reverse();
    Ok(List::from_vec(bodies))
}
