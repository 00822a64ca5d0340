//! Hidden locals: what they keep, and what is read from the value in one.
ghost use Rattle.std.specs.Prelude.{◌≡◌, IfOk};
ghost use Rattle.ir_core.specs.CoreForm as form;
ghost use Rattle.ir_core.specs.View.{core_view};
ghost use Rattle.ir_core.specs.Parts as part;
ghost use Rattle.ir_builder.specs.Forms as lowered;

use crate::calls::send;
use crate::leaf::{local, set_local};
use ir_core::{Core, Local, Term};
use rb_syntax::Item;
use std::alloc::{AllocError, Global};

/// What a hidden local holds.
pub fn local_number(alloc: Global, number: usize) -> Result<Core, AllocError>
    ensures { IfOk result (λ c. core_view c ≡ lowered.local_number number) }
{
    local(alloc, Local::Hidden(number))
}

/// The store of a value in a hidden local.
pub fn keep(alloc: Global, number: usize, value: Core) -> Result<Core, AllocError>
    ensures { IfOk result (λ c. core_view c ≡ lowered.keep number (core_view value)) }
{
    set_local(alloc, Local::Hidden(number), value)
}

/// The store of a value by a call on what hidden local `receiver` holds; the value is kept in hidden local `kept`.
#[tactic(auto, using(ir_core::proofs::Lists::item_lists))]
pub fn stored(
    alloc: Global,
    receiver: usize,
    name: &[u8],
    items: Vec<Item<Core>>,
    kept: usize,
    value: Core,
) -> Result<Vec<Core>, AllocError>
    ensures { IfOk result (λ v. part.cores v.items ≡ lowered.stored receiver name.now (part.items items.items) kept
        (core_view value)) }
{
    let mut items = items;
    let given = local_number(alloc, kept)?;
    items.push(Item::Plain(given))?;
    let receiver = local_number(alloc, receiver)?;
    let called = send(alloc, receiver, name, items)?;
    let whole = local_number(alloc, kept)?;
    let mut statements = Vec::new(alloc);
    let value = keep(alloc, kept, value)?;
    statements.push(value)?;
    statements.push(called)?;
    statements.push(whole)?;
    Ok(statements)
}

/// Element `place` of the Array in a hidden local.
pub fn element(alloc: Global, number: usize, place: usize) -> Result<Core, AllocError>
    ensures { IfOk result (λ c. core_view c ≡ lowered.element number place) }
{
    let of = local_number(alloc, number)?;
    let place = i32::try_from(place).unwrap_or(i32::MAX);
    Term::Item(of, place).into_core(alloc)
}

/// The elements between the first `from` and the last `post` ones of the Array in a hidden local.
pub fn elements_between(
    alloc: Global,
    number: usize,
    from: usize,
    post: usize,
) -> Result<Core, AllocError>
    ensures { IfOk result (λ c. core_view c ≡ lowered.elements_between number from post) }
{
    let of = local_number(alloc, number)?;
    let from = u8::try_from(from).unwrap_or(u8::MAX);
    let post = u8::try_from(post).unwrap_or(u8::MAX);
    Term::Rest { of, from, post }.into_core(alloc)
}

/// The last `count` elements of the Array in a hidden local, none of them before the first `from`.
pub fn last_elements(
    alloc: Global,
    number: usize,
    from: usize,
    count: usize,
) -> Result<Core, AllocError>
    ensures { IfOk result (λ c. core_view c ≡ lowered.last_elements number from count) }
{
    let of = local_number(alloc, number)?;
    let from = u8::try_from(from).unwrap_or(u8::MAX);
    let count = u8::try_from(count).unwrap_or(u8::MAX);
    Term::Tail { of, from, count }.into_core(alloc)
}
