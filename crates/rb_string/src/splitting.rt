//! Texts in parts (ISO/IEC 30170:2012, 15.2.10).
ghost use Rattle.std.specs.Prelude.{◌≡◌, ◌≤◌, ◌++◌, length, IfOk, OnOk};
ghost use Rattle.rb_string.specs.Parts as parts;

use crate::part::Part;
use crate::stripping::is_space;
use memchr::{memchr_iter, memmem};
use rb_base::List;
use std::alloc::{AllocError, Global};

/// `text.chars`: each byte.
pub fn characters(alloc: Global, text: &[u8]) -> Result<List<Part>, AllocError>
    ensures value { IfOk result (λ list. list ≡ parts.characters text.now) }
    ensures within { IfOk result (λ list. parts.AllWithin text.now list) }
{
    let mut list = List::new(alloc);
    for at in 0..text.len() {
        list.push(Part {
            start: at,
            end: at + 1,
        })?;
    }
    Ok(list)
}

/// `text.lines`: each line with its newline, and what stands behind the last one, where something does.
pub fn lines(alloc: Global, text: &[u8]) -> Result<List<Part>, AllocError>
    ensures value { IfOk result (λ list. list ≡ parts.lines text.now) }
    ensures within { IfOk result (λ list. parts.AllWithin text.now list) }
{
    let mut list = List::new(alloc);
    let mut from = 0;
    let mut newlines = memchr_iter(b'\n', text);
    'newlines: while let Some(at) = newlines.next() {
        list.push(Part {
            start: from,
            end: at + 1,
        })?;
        from = at + 1;
    }
    push_some(&mut list, from, text.len())?;
    Ok(list)
}

/// Puts a part at the end, if it has a byte.
fn push_some(list: &mut List<Part>, start: usize, end: usize) -> Result<(), AllocError>
    ensures { OnOk result (list.new ≡ list.old ++ parts.some_part start end) }
{
    if start < end {
        list.push(Part { start, end })?;
    }
    Ok(())
}

/// `text.split` and `text.split(" ")`: the parts without white space, each as long as it goes.
pub fn words(alloc: Global, text: &[u8]) -> Result<List<Part>, AllocError>
    ensures value { IfOk result (λ list. list ≡ parts.words text.now) }
    ensures within { IfOk result (λ list. parts.AllWithin text.now list) }
{
    let mut list = List::new(alloc);
    let mut from = 0;
    let mut at = 0;
    'bytes: while at < text.len() {
        if is_space(text[at]) {
            push_some(&mut list, from, at)?;
            from = at + 1;
        }
        at += 1;
    }
    push_some(&mut list, from, text.len())?;
    Ok(list)
}

/// The parts between the places at which the separator stands, from the left and none overlapping another.
fn parts_between(alloc: Global, text: &[u8], separator: &[u8]) -> Result<Vec<Part>, AllocError>
    ensures { IfOk result (λ list. list.items ≡ parts.parts_between text.now separator.now) }
{
    let mut list = Vec::new(alloc);
    let mut from = 0;
    let mut places = memmem::find_iter(text, separator);
    'places: while let Some(at) = places.next() {
        list.push(Part {
            start: from,
            end: at,
        })?;
        from = at + separator.len();
    }
    list.push(Part {
        start: from,
        end: text.len(),
    })?;
    Ok(list)
}

/// How many parts there are without the empty ones at the end.
fn length_without_empty_end(list: &[Part]) -> usize
    ensures value { result ≡ parts.length_without_empty_end list.now }
    ensures short { result ≤ length list.now }
{
    let mut end = list.len();
    'parts: while end > 0 {
        let last = list[end - 1];
        if last.start < last.end {
            break;
        }
        end -= 1;
    }
    end
}

/// The parts between the places at which the separator stands, without the empty ones at the end.
fn separated(alloc: Global, text: &[u8], separator: &[u8]) -> Result<List<Part>, AllocError>
    ensures value { IfOk result (λ list. list ≡ parts.separated text.now separator.now) }
    ensures within { IfOk result (λ list. parts.AllWithin text.now list) }
{
    let mut list = parts_between(alloc, text, separator)?;
    let length = length_without_empty_end(&list);
    list.truncate(length);
    Ok(List::from_vec(list))
}

/// `text.split(separator)`: the parts between the places at which the separator stands, without the empty ones at the
/// end. One space as the separator stands for white space, and an empty one splits into the bytes.
pub fn split(alloc: Global, text: &[u8], separator: &[u8]) -> Result<List<Part>, AllocError>
    ensures value { IfOk result (λ list. list ≡ parts.split text.now separator.now) }
    ensures within { IfOk result (λ list. parts.AllWithin text.now list) }
{
    if separator.is_empty() {
        return characters(alloc, text);
    }
    if separator.len() == 1 && separator[0] == b' ' {
        return words(alloc, text);
    }
    separated(alloc, text, separator)
}
