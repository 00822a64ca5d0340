//! The front end: from a text to its core (docs/language.md, docs/core.md).
//!
//! Type: [`FrontError`]. Call: [`read`].
#![tactic(auto)]

ghost use Rattle.std.specs.Prelude.{◌≡◌, ◌≤◌, length, Some, IfOk, IfErr};
ghost use Rattle.ir_core.specs.View.{body_view};
ghost use Rattle.ir_core.specs.Program.{IsProgram};
ghost use Rattle.line_ends.specs.Lines as ends;
ghost use Rattle.parser_tree.specs.Parts.{plain_view};
ghost use Rattle.rb_front.specs.Front as front;

pub mod error;

pub use error::FrontError;
use ir_core::Program;
use line_ends::as_read;
use parser_tree::Source;
use rb_lexer::{depth, lex};
use rb_lower::lower;
use rb_parser::parse;
use std::alloc::{AllocError, Global};

/// The most bytes of a text.
const LONGEST: usize = 16_777_216;

/// The most levels of its tokens.
const DEEPEST: u32 = 256;

/// The tree of the lines of a text.
fn tree_of(alloc: Global, lines: &[u8]) -> Result<Source, FrontError>
    requires { length lines.now ≤ 16777216 }
    ensures tree { IfOk result (λ s. front.HasTree lines.now (plain_view s)) }
    ensures refused { IfErr result (front.HasNoTree lines.now) }
{
    let tokens = lex(alloc, lines)?;
    if depth(&tokens) > DEEPEST {
        return Err(FrontError::TooDeep);
    }
    Ok(parse(alloc, &tokens, lines.len() as u32)?)
}

/// The core of the lines of a text.
fn core_of_lines(alloc: Global, lines: &[u8]) -> Result<Program, FrontError>
    requires { length lines.now ≤ 16777216 }
    ensures core { IfOk result (λ c. front.core_of_lines lines.now ≡ Some (body_view c)) }
    ensures program { IfOk result (λ c. IsProgram (body_view c)) }
    ensures refused { IfErr result (front.HasNoCore lines.now) }
{
    let source = tree_of(alloc, lines)?;
    let program = lower(alloc, &source)?;
    Ok(program)
}

/// The core of a text that is read as these lines.
fn read_lines(alloc: Global, text: &[u8], lines: &[u8]) -> Result<Program, FrontError>
    requires size { length text.now ≤ 16777216 }
    requires lines { lines.now ≡ ends.as_read text.now }
    ensures core { IfOk result (λ c. front.core_of text.now ≡ Some (body_view c)) }
    ensures program { IfOk result (λ c. IsProgram (body_view c)) }
    ensures refused { IfErr result (front.Refuses text.now) }
{
    match core_of_lines(alloc, lines) {
        Ok(program) => Ok(program),
        Err(error) => Err(error.placed_in(text)),
    }
}

/// The core of a text, in which a carriage return right before a newline isn't read.
///
/// `TooLong` comes exactly where the text has more than 16,777,216 bytes. Else `Syntax` comes where it has no tokens,
/// `TooDeep` where these are more than 256 deep, `Syntax` where they have no tree or a word stands where it may not, and
/// `Outside` where the tree has a construct outside the language: the one with the least place. A core that is given is
/// that of a program: what leaves a form has where to go, and names are bound.
pub fn read(alloc: Global, text: &[u8]) -> Result<Program, FrontError>
    ensures core { IfOk result (λ c. front.core_of text.now ≡ Some (body_view c)) }
    ensures program { IfOk result (λ c. IsProgram (body_view c)) }
    ensures refused { IfErr result (front.Refuses text.now) }
{
    if text.len() > LONGEST {
        return Err(FrontError::TooLong);
    }
    match as_read(alloc, text) {
        Ok(None) => read_lines(alloc, text, text),
        Ok(Some(lines)) => read_lines(alloc, text, &lines),
        Err(AllocError) => Err(FrontError::NoMemory),
    }
}
