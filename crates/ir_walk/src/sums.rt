//! Sums of counts, and widths of lists of parts. A sum that passes 2^64 - 1 is answered as if memory ran out: no
//! memory can hold what is counted there.
ghost use Rattle.std.specs.Prelude.{◌≡◌, ◌+◌, ◌*◌, IfOk};
ghost use Rattle.ir_walk.specs.Width as widths;

use std::alloc::AllocError;
use std::cmp::max;

/// The sum of two counts.
pub fn add(a: u64, b: u64) -> Result<u64, AllocError>
    ensures { IfOk result (λ sum. sum ≡ a + b) }
{
    match a.checked_add(b) {
        Some(sum) => Ok(sum),
        None => Err(AllocError),
    }
}

/// The greatest of the counts, 0 where there is none.
pub fn greatest(counts: &[u64]) -> u64
    ensures { result ≡ widths.greatest counts.now }
{
    let mut most = 0;
    for count in counts {
        most = max(most, *count);
    }
    most
}

/// The width of a form that evaluates its parts in order.
pub fn in_order(parts: &[u64]) -> Result<u64, AllocError>
    ensures { IfOk result (λ w. w ≡ widths.in_order parts.now) }
{
    let mut most = 0;
    let mut place = 0;
    for part in parts {
        most = max(most, add(place, *part)?);
        place = add(place, 1)?;
    }
    Ok(max(most, add(place, 3)?))
}

/// The width of a form whose parts are put into a value one after the other.
pub fn into_one(parts: &[u64]) -> Result<u64, AllocError>
    ensures { IfOk result (λ w. w ≡ widths.into_one parts.now) }
{
    add(4, greatest(parts))
}

/// The width of a form whose parts come one after the other into the same register.
pub fn in_turn(parts: &[u64]) -> Result<u64, AllocError>
    ensures { IfOk result (λ w. w ≡ widths.in_turn parts.now) }
{
    Ok(max(5, add(2, greatest(parts))?))
}

/// The width of a call.
pub fn of_call(splat: bool, parts: &[u64]) -> Result<u64, AllocError>
    ensures { IfOk result (λ w. w ≡ widths.of_call splat parts.now) }
{
    if splat {
        into_one(parts)
    } else {
        in_order(parts)
    }
}

/// The product of two counts with a third added.
pub fn scaled_by(base: u64, each: u64, count: u64) -> Result<u64, AllocError>
    ensures { IfOk result (λ sum. sum ≡ base + each * count) }
{
    match each.checked_mul(count) {
        Some(product) => add(base, product),
        None => Err(AllocError),
    }
}

/// The same for a length.
pub fn scaled(base: u64, each: u64, count: usize) -> Result<u64, AllocError>
    ensures { IfOk result (λ sum. sum ≡ base + each * count) }
{
    scaled_by(base, each, count as u64)
}
