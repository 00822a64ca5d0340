//! Where one text stands in another (ISO/IEC 30170:2012, 15.2.10). A search takes time by the length of the text, and
//! not by that times the length of what is sought.
ghost use Rattle.std.specs.Prelude.{◌≡◌, ◌≤◌, length, nat_eq};
ghost use Rattle.std.specs.List.{starts_with, ends_with};
ghost use Rattle.memchr.specs.Find.{FindsNeedle, FindsLastNeedle};
ghost use Rattle.rb_string.specs.Searching as texts;

use crate::part::rest;
use crate::slicing::start;
use memchr::memmem;

/// `text.include?(other)`, for which `text[other]` gives the other one: whether it stands anywhere in the text.
pub fn includes(text: &[u8], other: &[u8]) -> bool
    ensures { result ≡ texts.includes text.now other.now }
{
    first_place(text, other, 0).is_some()
}

/// `text.start_with?(other)`.
pub fn starts_with(text: &[u8], other: &[u8]) -> bool
    ensures { result ≡ starts_with nat_eq text.now other.now }
{
    text.starts_with(other)
}

/// `text.end_with?(other)`.
pub fn ends_with(text: &[u8], other: &[u8]) -> bool
    ensures { result ≡ ends_with nat_eq text.now other.now }
{
    text.ends_with(other)
}

/// The first place from one on at which the other text stands.
pub(crate) fn first_place(text: &[u8], other: &[u8], from: usize) -> Option<usize>
    requires { from ≤ length text.now }
    ensures value { result ≡ texts.first_place text.now other.now from }
    ensures first { FindsNeedle text.now other.now from result }
{
    let at = memmem::find(rest(text, from), other)?;
    Some(from + at)
}

/// `text.index(other, from)`, and `text.index(other)` from 0: the first place from that index on at which the other one
/// stands. An empty text stands at each place and at the end.
pub fn index(text: &[u8], other: &[u8], from: i64) -> Option<usize>
    ensures { result ≡ texts.index text.now other.now from }
{
    let from = start(text.len(), from)?;
    first_place(text, other, from)
}

/// `text.rindex(other)`: the last place at which the other one stands.
pub fn last_index(text: &[u8], other: &[u8]) -> Option<usize>
    ensures value { result ≡ texts.last_index text.now other.now }
    ensures last { FindsLastNeedle text.now other.now result }
{
    memmem::rfind(text, other)
}
