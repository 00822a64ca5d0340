//! Comparisons (ISO/IEC 30170:2012, 15.2.10).
ghost use Rattle.std.specs.Prelude.{◌≡◌, ◌↔◌, IsTrue};
ghost use Rattle.rb_string.specs.Comparison as texts;

use std::cmp::Ordering;

/// `text == other`: whether they have the same bytes.
pub fn is_equal(text: &[u8], other: &[u8]) -> bool
    ensures { IsTrue result ↔ (text.now ≡ other.now) }
{
    text == other
}

/// `text <=> other`: -1, 0 or 1 by the first bytes that differ, or by the lengths where none do.
pub fn order(text: &[u8], other: &[u8]) -> i64
    ensures { result ≡ texts.order text.now other.now }
{
    match text.cmp(other) {
        Ordering::Less => -1,
        Ordering::Equal => 0,
        Ordering::Greater => 1,
    }
}
