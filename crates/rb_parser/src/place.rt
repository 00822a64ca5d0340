//! The place of a refusal.
ghost use Rattle.std.specs.Prelude.{◌≡◌, ◌≤◌};
ghost use Rattle.rb_parser.specs.Places as places;

use rb_syntax::Token;

/// The place of the token with which so many are left, or else the end of a text of `size` bytes.
pub fn place(tokens: &[Token], left: usize, size: u32) -> u32
    ensures value { result ≡ places.place tokens.now left size }
    ensures within { result ≤ size }
{
    match tokens.get(tokens.len().saturating_sub(left)) {
        Some(token) => token.at.min(size),
        None => size,
    }
}
