//! Finding the bodies that belong to heads.
ghost use Rattle.std.specs.Prelude.{◌≡◌, ◌≤◌, ◌<◌, ◌-◌, None, Some, length, take, drop, IfOk, IfSome, MatchOption};
ghost use Rattle.rb_heredoc.specs.Lines.{lines_of};
ghost use Rattle.rb_heredoc.specs.Bodies.{is_end_line, body_in, bodies_at};

use crate::heredoc::{Bodies, Head};
use crate::line::{are_white, content, line_end};
use rb_base::{Bytes, List};
use std::alloc::{AllocError, Global};

/// The bodies that begin at `from`, a byte offset, in the order of the heads. Each ends before the line that is
/// its head's identifier. `None` exactly where a body has no such line. Without heads there are no pieces, and
/// `next` is `from`.
pub fn bodies(
    alloc: Global,
    text: &[u8],
    from: usize,
    heads: &[Head],
) -> Result<Option<Bodies>, AllocError>
    requires { from ≤ length text.now }
    ensures found { IfOk result (λ found. found ≡ bodies_at text.now from heads.now) }
    ensures forward { IfOk result (λ found. IfSome found (λ b. from ≤ b.next)) }
    ensures within { IfOk result (λ found. IfSome found (λ b. b.next ≤ length text.now)) }
    ensures count { IfOk result (λ found. IfSome found (λ b. length b.pieces ≡ length heads.now)) }
{
    let mut pieces = List::new(alloc);
    let mut next = from;
    'heads: for head in heads {
        let Some((end, behind)) = body_end(head, text, next) else {
            return Ok(None);
        };
        pieces.push(Bytes::from_slice(alloc, &text[next..end])?)?;
        next = behind;
    }
    Ok(Some(Bodies { pieces, next }))
}

/// The place where the body of a head ends, and the place after its end line.
fn body_end(head: &Head, text: &[u8], from: usize) -> Option<(usize, usize)>
    requires { from ≤ length text.now }
    ensures forward { IfSome result (λ r. (from ≤ r.0) × (r.0 ≤ r.1)) }
    ensures within { IfSome result (λ r. r.1 ≤ length text.now) }
    ensures found { MatchOption result (body_in head.now (lines_of (drop from text.now)) ≡ None)
        (λ r. body_in head.now (lines_of (drop from text.now))
        ≡ Some (take (r.0 - from) (drop from text.now), lines_of (drop r.1 text.now))) }
{
    let mut at = from;
    'lines: while at < text.len() {
        let end = line_end(text, at);
        if is_end_line(head, &text[at..end]) {
            return Some((at, end));
        }
        at = end;
    }
    None
}

/// Whether the line ends the body of the head.
#[tactic(auto, unfolding(crate::specs::Bodies::is_end_line))]
fn is_end_line(head: &Head, line: &[u8]) -> bool
    ensures { result ≡ is_end_line head.now line.now }
{
    let found = content(line);
    let id = head.id.as_slice();
    if found.len() < id.len() {
        return false;
    }
    let (before, end) = found.split_at(found.len() - id.len());
    end == id && (before.is_empty() || head.indented && are_white(before))
}
