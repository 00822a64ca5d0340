//! The least place of what may not stand where it stands.
ghost use Rattle.std.specs.Prelude.{◌≡◌};
ghost use Rattle.parser_checks.specs.Places as places;

/// The least place that was found, if there is one.
pub type Found = Option<u32>;

/// The lesser of a place that was found and another.
fn lesser(best: Found, at: u32) -> Found
    ensures { result ≡ places.lesser best at }
{
    match best {
        None => Some(at),
        Some(best) => Some(best.min(at)),
    }
}

/// Finds the place of what may not stand there.
pub fn noted(may: bool, at: u32, best: Found) -> Found
    ensures { result ≡ places.noted may at best }
{
    if may { best } else { lesser(best, at) }
}
