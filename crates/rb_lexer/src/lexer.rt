//! The tokens of a text.
ghost use Rattle.std.specs.Prelude.{◌≡◌, ◌≤◌, ◌<◌, ◌+◌, ◌-◌, ℕ, length, true, Ok, Some, IfOk, IfErr, IfSome};
ghost use Rattle.lexer_steps.specs.LexError.{Gives, IsWithin};
ghost use Rattle.lexer_steps.specs.State.{state_of};
ghost use Rattle.rb_lexer.specs.Lexing as lexing;
ghost use Rattle.lexer_steps.specs.declared.error.LexError.TheVariants as errors;

use crate::code::step;
use crate::heads::{HeadPlace, begins_heredoc, is_indented};
use crate::reach::{Reach, Region};
use lexer_steps::error::LexError;
use lexer_steps::mode::Mode;
use lexer_steps::scan::line_end;
use lexer_steps::state::Lexer;
use lexer_steps::trivia::newline_step;
use lexer_tables::Context;
use rb_base::Bytes;
use rb_heredoc::{Head, bodies};
use rb_syntax::{Outside, Token, TokenKind};
use std::alloc::Global;

fn first_length(pieces: &[Bytes]) -> usize
    ensures { result ≡ lexing.first_length pieces.now }
{
    match pieces {
        [piece, ..] => piece.len(),
        [] => 0,
    }
}

/// Where the body of a heredoc ends that begins at `from`, and the place after its end line.
#[tactic(auto, using(crate::proofs::Bodies::body_fits), unfolding(crate::specs::Lexing::body_at))]
fn body_at(
    alloc: Global,
    text: &[u8],
    from: usize,
    head: HeadPlace,
) -> Result<Option<(usize, usize)>, LexError>
    requires from { from ≤ length text.now }
    requires order { head.from ≤ head.to }
    requires end { head.to ≤ length text.now }
    ensures value { IfOk result (λ found. found ≡ lexing.body_at text.now from head) }
    ensures err { IfErr result (λ e. e ≡ errors.NoMemory) }
    ensures order { IfOk result (λ found. IfSome found (λ b. (from ≤ b.0) × (b.0 ≤ b.1) × (b.1 ≤ length text.now))) }
{
    let heads = [Head {
        id: Bytes::from_slice(alloc, &text[head.from..head.to])?,
        indented: is_indented(head.dash),
        raw: head.first == b'\'',
    }];
    match bodies(alloc, text, from, &heads)? {
        Some(found) => {
            let end = from + first_length(found.pieces.as_slice());
            Ok(Some((end, found.next)))
        }
        None => Ok(None),
    }
}

/// Where the bodies begin after the heads so far of the line, and where that line ends; None within a body.
fn bodies_from(text: &[u8], reach: Reach, at: usize) -> Option<(usize, usize)>
    requires fits { lexing.Fits (length text.now) reach }
    requires within { at ≤ reach.stop }
    ensures value { result ≡ lexing.bodies_from text.now reach at }
    ensures order { IfSome result (λ p. (at ≤ p.1) × (p.0 ≤ length text.now) × (p.1 ≤ length text.now)) }
    ensures room { reach.at + 2 < at → IfSome result (λ p.
        (length text.now - p.0) + 2 + (p.1 - at) < lexing.unread (length text.now) reach) }
{
    match reach.region {
        Region::Plain => {
            let line = line_end(text, at);
            Some((line, line))
        }
        Region::Line { next } => Some((next, reach.stop)),
        Region::Body {
            back: _,
            line: _,
            next: _,
        } => None,
    }
}

/// A heredoc whose body begins at `from` and ends at `end`, and whose line ends at `line`.
#[tactic(auto, unfolding(crate::specs::Lexing::enter_body))]
fn enter_body(
    lexer: &mut Lexer,
    at: usize,
    head: HeadPlace,
    from: usize,
    end: usize,
    line: usize,
    next: usize,
) -> Result<Reach, LexError>
    requires { at < 4294967296 }
    ensures value { Gives (λ r. (state_of lexer.new, r)) result
        (lexing.enter_body at head from end line next (state_of lexer.old)) }
    ensures fault { IfErr result (λ e. e ≡ errors.NoMemory) }
    ensures fits { IfOk result (λ r. (n : ℕ) → head.end ≤ line → line ≤ n → from ≤ end → end ≤ n → next ≤ n
        → lexing.Fits n r) }
    ensures room { IfOk result (λ r. (n : ℕ) → lexing.unread n r ≤ (end - from) + 2 + (line - head.end) + (n - next)) }
{
    if head.dash == b'~' {
        let kind = TokenKind::Outside(Outside::SquigglyHeredoc);
        lexer.push(at, kind, Context::Operand)?;
        return Ok(Reach {
            at: head.end,
            stop: line,
            region: Region::Line { next },
        });
    }
    lexer.push(at, TokenKind::StringBegin, Context::Operand)?;
    lexer.enter(Mode::Body(head.first != b'\''))?;
    Ok(Reach {
        at: from,
        stop: end,
        region: Region::Body {
            back: head.end,
            line,
            next,
        },
    })
}

/// A heredoc whose head stands at the place.
#[tactic(auto, unfolding(crate::specs::Lexing::heredoc_step))]
fn heredoc_step(
    alloc: Global,
    lexer: &mut Lexer,
    text: &[u8],
    reach: Reach,
    head: HeadPlace,
) -> Result<Reach, LexError>
    requires small { length text.now < 4294967296 }
    requires fits { lexing.Fits (length text.now) reach }
    requires order { head.from ≤ head.to }
    requires end { head.to ≤ head.end }
    requires forward { reach.at + 2 < head.end }
    requires within { head.end ≤ reach.stop }
    ensures value { Gives (λ r. (state_of lexer.new, r)) result
        (lexing.heredoc_step text.now reach head (state_of lexer.old)) }
    ensures fault { IfErr result (λ e. IsWithin (length text.now) e) }
    ensures fits { IfOk result (λ r. lexing.Fits (length text.now) r) }
    ensures smaller { IfOk result (λ r. lexing.unread (length text.now) r < lexing.unread (length text.now) reach) }
{
    let at = reach.at;
    if lexer.inside > 0 {
        return Err(LexError::Syntax { at: at as u32 });
    }
    let Some((from, line)) = bodies_from(text, reach, head.end) else {
        return Err(LexError::Syntax { at: at as u32 });
    };
    let Some((end, next)) = body_at(alloc, text, from, head)? else {
        return Err(LexError::Syntax { at: at as u32 });
    };
    let entered = enter_body(lexer, at, head, from, end, line, next)?;
    Ok(entered)
}

/// The end of a stretch; None at the text's end.
fn stretch_end(
    alloc: Global,
    lexer: &mut Lexer,
    text: &[u8],
    reach: Reach,
) -> Result<Option<Reach>, LexError>
    requires small { length text.now < 4294967296 }
    requires fits { lexing.Fits (length text.now) reach }
    requires end { reach.stop ≤ reach.at }
    ensures value { Gives (λ r. (state_of lexer.new, r)) result
        (lexing.stretch_end text.now reach (state_of lexer.old)) }
    ensures fault { IfErr result (λ e. IsWithin (length text.now) e) }
    ensures fits { IfOk result (λ next. IfSome next (λ r. lexing.Fits (length text.now) r)) }
    ensures smaller { IfOk result (λ next. IfSome next (λ r.
        lexing.unread (length text.now) r < lexing.unread (length text.now) reach)) }
{
    match reach.region {
        Region::Plain => Ok(None),
        Region::Line { next } => Ok(Some(Reach {
            at: next,
            stop: text.len(),
            region: Region::Plain,
        })),
        Region::Body { back, line, next } => {
            if !is_body(lexer.top()) {
                return Err(LexError::Syntax {
                    at: reach.at as u32,
                });
            }
            lexer.flush(alloc)?;
            lexer.push(reach.at, TokenKind::LiteralEnd, Context::Operand)?;
            lexer.leave();
            Ok(Some(Reach {
                at: back,
                stop: line,
                region: Region::Line { next },
            }))
        }
    }
}

fn is_body(mode: Option<Mode>) -> bool
    ensures { result ≡ lexing.is_body mode }
{
    match mode {
        Some(Mode::Body(_)) => true,
        _ => false,
    }
}

/// Whether the place is inside of a literal.
fn is_literal(mode: Option<Mode>) -> bool
    ensures { result ≡ lexing.is_literal mode }
{
    match mode {
        Some(Mode::Text(_)) | Some(Mode::Words(_)) | Some(Mode::Body(_)) => true,
        _ => false,
    }
}

/// The place after the bodies of the line's heredocs, where the place is the line's last.
fn behind_bodies(reach: Reach) -> Option<usize>
    requires { reach.at < reach.stop }
    ensures { result ≡ lexing.behind_bodies reach }
{
    match reach.region {
        Region::Line { next } => {
            if reach.at + 1 == reach.stop {
                Some(next)
            } else {
                None
            }
        }
        _ => None,
    }
}

/// A step outside of literals within a stretch.
#[tactic(auto, unfolding(crate::specs::Lexing::code_reach))]
fn code_reach(
    alloc: Global,
    lexer: &mut Lexer,
    text: &[u8],
    reach: Reach,
) -> Result<Reach, LexError>
    requires small { length text.now < 4294967296 }
    requires fits { lexing.Fits (length text.now) reach }
    requires before { reach.at < reach.stop }
    ensures value { Gives (λ r. (state_of lexer.new, r)) result
        (lexing.code_reach text.now reach (state_of lexer.old)) }
    ensures fault { IfErr result (λ e. IsWithin (length text.now) e) }
    ensures fits { IfOk result (λ r. lexing.Fits (length text.now) r) }
    ensures smaller { IfOk result (λ r. lexing.unread (length text.now) r < lexing.unread (length text.now) reach) }
{
    if let Some(next) = behind_bodies(reach) {
        let end = newline_step(lexer, text, reach.at, next)?;
        return Ok(Reach {
            at: end,
            stop: text.len(),
            region: Region::Plain,
        });
    }
    match begins_heredoc(lexer, &text[..reach.stop], reach.at) {
        Some(head) => heredoc_step(alloc, lexer, text, reach, head),
        None => step_reach(alloc, lexer, text, reach),
    }
}

/// A step within a stretch.
fn step_reach(
    alloc: Global,
    lexer: &mut Lexer,
    text: &[u8],
    reach: Reach,
) -> Result<Reach, LexError>
    requires small { length text.now < 4294967296 }
    requires fits { lexing.Fits (length text.now) reach }
    requires before { reach.at < reach.stop }
    ensures value { Gives (λ r. (state_of lexer.new, r)) result
        (lexing.step_reach text.now reach (state_of lexer.old)) }
    ensures fault { IfErr result (λ e. IsWithin (length text.now) e) }
    ensures fits { IfOk result (λ r. lexing.Fits (length text.now) r) }
    ensures smaller { IfOk result (λ r. lexing.unread (length text.now) r < lexing.unread (length text.now) reach) }
{
    let end = step(alloc, lexer, &text[..reach.stop], reach.at)?;
    Ok(Reach {
        at: end,
        stop: reach.stop,
        region: reach.region,
    })
}

/// Whether the stretch ends at the text's end.
fn is_plain(region: Region) -> bool
    ensures { result ≡ lexing.is_plain region }
{
    match region {
        Region::Plain => true,
        Region::Line { next: _ } => false,
        Region::Body {
            back: _,
            line: _,
            next: _,
        } => false,
    }
}

/// Whether a space stands at the place, outside of literals and of lines with heads of heredocs.
fn is_plain_space(lexer: &Lexer, text: &[u8], reach: Reach) -> bool
    requires { lexing.Fits (length text.now) reach }
    ensures { result ≡ lexing.is_plain_space text.now (state_of lexer.now) reach }
{
    reach.at < reach.stop
        && text[reach.at] == b' '
        && is_plain(reach.region)
        && !is_literal(lexer.top())
}

/// A step over such a space, of which there are many.
#[tactic(auto, using(crate::proofs::Spaces::space_advances))]
fn pass_space(lexer: &mut Lexer, text: &[u8], reach: Reach) -> Reach
    requires fits { lexing.Fits (length text.now) reach }
    requires space { lexing.is_plain_space text.now (state_of lexer.old) reach ≡ true }
    ensures value { lexing.advance text.now (state_of lexer.old) reach ≡ Ok (state_of lexer.new, Some result) }
    ensures fits { lexing.Fits (length text.now) result }
    ensures smaller { lexing.unread (length text.now) result < lexing.unread (length text.now) reach }
{
    lexer.pass_space();
    Reach {
        at: reach.at + 1,
        stop: reach.stop,
        region: reach.region,
    }
}

/// One step; None at the text's end.
#[tactic(auto, unfolding(crate::specs::Lexing::advance))]
fn advance(
    alloc: Global,
    lexer: &mut Lexer,
    text: &[u8],
    reach: Reach,
) -> Result<Option<Reach>, LexError>
    requires small { length text.now < 4294967296 }
    requires fits { lexing.Fits (length text.now) reach }
    ensures value { Gives (λ r. (state_of lexer.new, r)) result (lexing.advance text.now (state_of lexer.old) reach) }
    ensures fault { IfErr result (λ e. IsWithin (length text.now) e) }
    ensures fits { IfOk result (λ next. IfSome next (λ r. lexing.Fits (length text.now) r)) }
    ensures smaller { IfOk result (λ next. IfSome next (λ r.
        lexing.unread (length text.now) r < lexing.unread (length text.now) reach)) }
{
    if is_plain_space(lexer, text, reach) {
        return Ok(Some(pass_space(lexer, text, reach)));
    }
    if reach.at >= reach.stop {
        return stretch_end(alloc, lexer, text, reach);
    }
    let next = if is_literal(lexer.top()) {
        step_reach(alloc, lexer, text, reach)?
    } else {
        code_reach(alloc, lexer, text, reach)?
    };
    Ok(Some(next))
}

/// The tokens of a text that ended, which has `len` bytes.
fn finish(lexer: Lexer, len: usize) -> Result<Vec<Token>, LexError>
    requires { len < 4294967296 }
    ensures value { Gives (λ v. v.items) result (lexing.finished len (state_of lexer)) }
    ensures fault { IfErr result (λ e. IsWithin len e) }
{
    if lexer.inside > 0 || is_literal(lexer.top()) {
        Err(LexError::Syntax { at: len as u32 })
    } else {
        Ok(lexer.tokens)
    }
}

/// The tokens of a text of fewer than 2^32 bytes, in the order in which they stand; the contents of a heredoc stand
/// between its head and what follows that head on its line.
///
/// `Syntax` where the text can't be read: a byte that begins no token, a malformed number or escape, a literal, a
/// heredoc or a comment of whole lines without its end, a heredoc within an interpolation. `NoMemory` where memory
/// runs out.
#[tactic(auto, unfolding(crate::specs::Lexing::tokens_of))]
pub fn lex(alloc: Global, text: &[u8]) -> Result<Vec<Token>, LexError>
    requires { length text.now < 4294967296 }
    ensures value { Gives (λ v. v.items) result (lexing.tokens_of text.now) }
    ensures fault { IfErr result (λ e. IsWithin (length text.now) e) }
{
    let mut lexer = Lexer::new(alloc);
    let mut reach = Reach {
        at: 0,
        stop: text.len(),
        region: Region::Plain,
    };
    'steps: loop {
        match advance(alloc, &mut lexer, text, reach)? {
            Some(next) => reach = next,
            None => break,
        }
    }
    finish(lexer, text.len())
}
