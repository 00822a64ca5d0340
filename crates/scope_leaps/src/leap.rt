//! The body that each body knows further out.
ghost use Rattle.std.specs.Prelude.{◌≡◌, ◌<◌, ◌≤◌, ◌^◌, ℕ, ◌+◌, length, Option, IfOk, IfSome};
ghost use Rattle.std.specs.Prelude as prelude;
ghost use Rattle.scope_leaps.specs.Leaps.{outer_in, ComeBefore, AreLow, LeadsOut, LeadAll, AreLeaps};

use rb_base::List;
use std::alloc::{AllocError, Global};

/// A body, and how many levels out it is. It is the body itself where that is none.
#[derive(Clone, Copy, Debug, PartialEq, Eq)]
pub struct Leap {
    pub levels: u32,
    pub body: u32,
}

/// The leap of body `number`, by those of the bodies before it. It goes over the leap of the body one level out and the
/// one after that, where these are as long as one another, and else one level.
fn leap_of(leaps: &[Leap], number: u32, outer: Option<u32>) -> Leap
    requires number { number ≡ length leaps.now }
    requires before { IfSome outer (λ j. j < number) }
    requires low { AreLow leaps.now }
    ensures low { result.body + result.levels ≤ number }
    ensures leads { (outers : prelude.List (Option ℕ)) → LeadAll outers leaps.now → outer ≡ outer_in outers number
        → LeadsOut outers number result }
{
    let Some(outer) = outer else {
        return Leap {
            levels: 0,
            body: number,
        };
    };
    let near = leaps[outer as usize];
    let far = leaps[near.body as usize];
    if near.levels == far.levels {
        Leap {
            levels: 1 + near.levels + far.levels,
            body: far.body,
        }
    } else {
        Leap {
            levels: 1,
            body: outer,
        }
    }
}

/// The leap of each body, by the body that is one level out of each, which stands before it.
pub fn leaps(alloc: Global, outers: &[Option<u32>]) -> Result<List<Leap>, AllocError>
    requires small { length outers.now < 2 ^ 32 }
    requires before { ComeBefore outers.now }
    ensures { IfOk result (AreLeaps outers.now) }
{
    let mut leaps = List::new(alloc);
    for number in 0..outers.len() {
        let leap = leap_of(leaps.as_slice(), number as u32, outers[number]);
        leaps.push(leap)?;
    }
    Ok(leaps)
}
