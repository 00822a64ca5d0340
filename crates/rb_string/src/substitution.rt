//! Texts in place of others (ISO/IEC 30170:2012, 15.2.10).
ghost use Rattle.std.specs.Prelude.{◌≡◌, ◌<◌, ◌≤◌, ◌++◌, true, false, length, slice_range, IfOk, if◌then◌else◌};
ghost use Rattle.rb_string.specs.Limit.{fits};
ghost use Rattle.rb_string.specs.Substitution as texts;

use crate::failure::StringFailure;
use crate::making::{append, joined};
use crate::part::{front, rest};
use crate::searching::first_place;
use memchr::{memchr, memmem};
use rb_base::Bytes;
use std::alloc::{AllocError, Global};

/// Puts what a byte behind a backslash stands for at the end of a text. Tells whether there is room.
#[tactic(auto, unfolding(crate::specs::Substitution::reference))]
fn append_reference(
    made: &mut Vec<u8>,
    text: &[u8],
    at: usize,
    count: usize,
    byte: u8,
) -> Result<bool, AllocError>
    ensures fits { IfOk result (λ b. b ≡ fits (length (made.old.items ++ texts.reference text.now at count byte))) }
    ensures items { IfOk result (λ b. made.new.items
        ≡ (if b then made.old.items ++ texts.reference text.now at count byte else made.old.items)) }
{
    if byte == b'0' || byte == b'&' {
        return append(made, front(rest(text, at), count));
    }
    if byte == b'`' {
        return append(made, front(text, at));
    }
    if byte == b'\'' {
        return append(made, rest(rest(text, at), count));
    }
    if byte == b'\\' {
        return append(made, &[byte]);
    }
    if b'1' <= byte && byte <= b'9' {
        return append(made, b"");
    }
    append(made, &[b'\\', byte])
}

/// Puts what stands in place of so many bytes at a place, references and all, at the end of a text. Tells whether there
/// was room.
fn append_references(
    made: &mut Vec<u8>,
    text: &[u8],
    at: usize,
    count: usize,
    new: &[u8],
) -> Result<bool, AllocError>
    ensures long { IfOk result (λ b. b ≡ false
        → fits (length (made.old.items ++ texts.expanded text.now at count new.now)) ≡ false) }
    ensures items { IfOk result (λ b. b ≡ true
        → made.new.items ≡ made.old.items ++ texts.expanded text.now at count new.now) }
{
    let mut from = 0;
    'bytes: while from < new.len() {
        if new[from] == b'\\' && new.len() - from > 1 {
            if !append_reference(made, text, at, count, new[from + 1])? {
                return Ok(false);
            }
            from += 2;
        } else {
            if !append(made, &[new[from]])? {
                return Ok(false);
            }
            from += 1;
        }
    }
    Ok(true)
}

/// Puts what stands in place of so many bytes at a place at the end of a text. Tells whether there was room.
fn append_expanded(
    made: &mut Vec<u8>,
    text: &[u8],
    at: usize,
    count: usize,
    new: &[u8],
) -> Result<bool, AllocError>
    ensures long { IfOk result (λ b. b ≡ false
        → fits (length (made.old.items ++ texts.expanded text.now at count new.now)) ≡ false) }
    ensures items { IfOk result (λ b. b ≡ true
        → made.new.items ≡ made.old.items ++ texts.expanded text.now at count new.now) }
{
    if memchr(b'\\', new).is_some() {
        return append_references(made, text, at, count, new);
    }
    append(made, new)
}

/// Puts what stands between two places, and what stands in place of so many bytes at the second one, at the end of a
/// text. Tells whether there was room.
fn append_match(
    made: &mut Vec<u8>,
    text: &[u8],
    from: usize,
    at: usize,
    count: usize,
    new: &[u8],
) -> Result<bool, AllocError>
    requires order { from ≤ at }
    requires within { at ≤ length text.now }
    ensures long { IfOk result (λ b. b ≡ false → fits (length (made.old.items
        ++ (slice_range text.now from at ++ texts.expanded text.now at count new.now))) ≡ false) }
    ensures items { IfOk result (λ b. b ≡ true → made.new.items ≡ made.old.items
        ++ (slice_range text.now from at ++ texts.expanded text.now at count new.now)) }
{
    if !append(made, &text[from..at])? {
        return Ok(false);
    }
    append_expanded(made, text, at, count, new)
}

/// `text.sub(pattern, new)`: `new` in place of the pattern where it stands first. In `new` these stand for others: `\0`
/// and `\&` for the pattern, `` \` `` for what stands before it, `\'` for what stands behind it, `\\` for a backslash,
/// `\1` to `\9` for nothing. A failure where the result is too long.
pub fn substituted(
    alloc: Global,
    text: &[u8],
    pattern: &[u8],
    new: &[u8],
) -> Result<Result<Bytes, StringFailure>, AllocError>
    ensures { IfOk result (λ r. r ≡ texts.substituted text.now pattern.now new.now) }
{
    let Some(at) = first_place(text, pattern, 0) else {
        return joined(alloc, text, b"", b"");
    };
    let mut put = Vec::new(alloc);
    if !append_expanded(&mut put, text, at, pattern.len(), new)? {
        return Ok(Err(StringFailure::TooLong));
    }
    let behind = rest(rest(text, at), pattern.len());
    joined(alloc, front(text, at), &put, behind)
}

/// `text.gsub(pattern, new)`: `new` in place of the pattern wherever it stands, from the left and none overlapping
/// another; an empty pattern stands before each byte and at the end. In `new` the same stand for others as in `sub`. A
/// failure where the result is too long.
pub fn substituted_everywhere(
    alloc: Global,
    text: &[u8],
    pattern: &[u8],
    new: &[u8],
) -> Result<Result<Bytes, StringFailure>, AllocError>
    ensures { IfOk result (λ r. r ≡ texts.substituted_everywhere text.now pattern.now new.now) }
{
    let mut made = Vec::new(alloc);
    let mut from = 0;
    let mut places = memmem::find_iter(text, pattern);
    'places: while let Some(at) = places.next() {
        if !append_match(&mut made, text, from, at, pattern.len(), new)? {
            return Ok(Err(StringFailure::TooLong));
        }
        from = at + pattern.len();
    }
    if !append(&mut made, rest(text, from))? {
        return Ok(Err(StringFailure::TooLong));
    }
    Ok(Ok(Bytes::from_vec(made)))
}
