//! Numbers that fit instructions. One that doesn't is answered as if memory ran out: the counts of a source are
//! checked before.
ghost use Rattle.std.specs.Prelude.{◌≡◌, ◌+◌, IfOk};

use std::alloc::AllocError;

/// The register so many after another.
pub fn after(register: u16, by: u16) -> Result<u16, AllocError>
    ensures { IfOk result (λ n. n ≡ register + by) }
{
    match register.checked_add(by) {
        Some(sum) => Ok(sum),
        None => Err(AllocError),
    }
}

/// The number of a line so many after another.
pub fn line_after(line: u32, by: u32) -> Result<u32, AllocError>
    ensures { IfOk result (λ n. n ≡ line + by) }
{
    match line.checked_add(by) {
        Some(sum) => Ok(sum),
        None => Err(AllocError),
    }
}

/// One more.
pub fn one_more(count: usize) -> Result<usize, AllocError>
    ensures { IfOk result (λ n. n ≡ count + 1) }
{
    match count.checked_add(1) {
        Some(sum) => Ok(sum),
        None => Err(AllocError),
    }
}

/// A number as an operand.
pub fn operand(number: u64) -> Result<u16, AllocError>
    ensures { IfOk result (λ n. n ≡ number) }
{
    match u16::try_from(number) {
        Ok(n) => Ok(n),
        Err(_) => Err(AllocError),
    }
}

/// A count as an operand.
pub fn count(number: usize) -> Result<u16, AllocError>
    ensures { IfOk result (λ n. n ≡ number) }
{
    match u16::try_from(number) {
        Ok(n) => Ok(n),
        Err(_) => Err(AllocError),
    }
}
