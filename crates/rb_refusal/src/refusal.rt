use rb_syntax::{Count, Outside};
use rite_code::Cause;

/// Why a source or a file is refused.
#[derive(Clone, Copy, Debug, PartialEq, Eq)]
pub enum Refusal {
    Syntax { at: u32 },
    TooDeep,
    Outside { what: Outside, at: u32 },
    TooLarge { what: Count, count: u64 },
    NotRite,
    Foreign { name: [u8; 4] },
    Truncated { at: u64 },
    BadSection { at: u64 },
    BadRecord { at: u64 },
    Bad { irep: u32, at: u32, cause: Cause },
}
