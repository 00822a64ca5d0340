//! The scope that is many levels out.
ghost use Rattle.std.specs.Prelude.{◌≡◌, ◌<◌, ◌≤◌, ℕ, length, IfSome, MatchOption, None, Some};
ghost use Rattle.scope_leaps.specs.Leaps.{outer_in, levels_out, scope_in, AreLeaps};

use crate::leap::Leap;

/// A body further out, at most so many levels: the farthest that one step reaches.
fn step_out(outers: &[Option<u32>], leaps: &[Leap], most: u32, body: u32) -> Option<Leap>
    requires most { 0 < most }
    requires leaps { AreLeaps outers.now leaps.now }
    requires body { body < length outers.now }
    ensures within { IfSome result (λ l. (0 < l.levels) × (l.levels ≤ most)) }
    ensures leads { MatchOption result (outer_in outers.now body ≡ None)
        (λ l. levels_out outers.now l.levels body ≡ Some l.body) }
    ensures there { IfSome result (λ l. l.body < length outers.now) }
{
    let leap = leaps[body as usize];
    if 0 < leap.levels && leap.levels <= most {
        return Some(leap);
    }
    let body = outers[body as usize]?;
    Some(Leap { levels: 1, body })
}

/// The body whose scope is `between + 1` levels out. None where that goes past a body that is no block and no lambda.
pub fn scope_out(outers: &[Option<u32>], leaps: &[Leap], between: u16, body: u32) -> Option<u32>
    requires leaps { AreLeaps outers.now leaps.now }
    requires body { body < length outers.now }
    ensures { result ≡ scope_in outers.now between body }
{
    let mut scope = body;
    let mut left = u32::from(between) + 1;
    'levels: while 0 < left {
        let leap = step_out(outers, leaps, left, scope)?;
        scope = leap.body;
        left -= leap.levels;
    }
    Some(scope)
}
