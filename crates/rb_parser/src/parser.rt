ghost use Rattle.std.specs.Prelude.{◌≡◌, ◌≤◌, IfErr};
ghost use Rattle.parser_tree.specs.Parts.{plain_view};
ghost use Rattle.parser_tokens.specs.Reads.{Gives};
ghost use Rattle.rb_parser.specs.Program as grammar;

use crate::error::ParseError;
use crate::level::{Level, levels_above, release};
use crate::place::place;
use parser_ahead::names::Names;
use parser_checks::misplaced;
use parser_forms::Inner;
use parser_statements::statements::statements;
use parser_tokens::failure::{Failure, syntax};
use parser_tokens::tokens::first;
use parser_tokens::word::Word;
use parser_tree::{PlainBody, Source};
use rb_syntax::Token;
use std::alloc::Global;

/// Whether a word is the end of the tokens.
fn is_finish(word: Word) -> bool
    ensures { result ≡ grammar.is_finish word }
{
    matches!(word, Word::Finish)
}

/// Statements with the variables that they begin, and nothing behind them.
fn program<I: Inner>(inner: &I, alloc: Global, tokens: &[Token]) -> Result<Source, Failure>
    ensures { Gives plain_view result (grammar.program_over (I.inside inner.now) tokens.now) }
{
    let mut names = Names::new(alloc);
    let (body, rest) = statements(inner, alloc, &mut names, tokens)?;
    if is_finish(first(rest)) {
        let locals = names.locals_from(alloc, 0)?;
        Ok(PlainBody { locals, body })
    } else {
        Err(syntax(rest))
    }
}

/// The tree that the grammar derives from the tokens of a text of `size` bytes.
#[tactic(auto, unfolding(crate::specs::Program::program))]
pub fn derive(alloc: Global, tokens: &[Token], size: u32) -> Result<Source, ParseError>
    ensures tree { grammar.Derives result (grammar.tree_of tokens.now size) }
    ensures place { IfErr result (λ e. grammar.IsWithin size e) }
{
    let Ok(levels) = levels_above(alloc, tokens.len()) else {
        return Err(ParseError::NoMemory);
    };
    let read = program(&levels, alloc, tokens);
    release(levels);
    match read {
        Ok(source) => Ok(source),
        Err(Failure::Syntax { left }) => Err(ParseError::Syntax {
            at: place(tokens, left, size),
        }),
        Err(Failure::NoMemory) => Err(ParseError::NoMemory),
    }
}

/// The tree of the tokens of a text of `size` bytes, in which each word may stand where it stands.
pub fn parse(alloc: Global, tokens: &[Token], size: u32) -> Result<Source, ParseError>
    ensures tree { grammar.Parses tokens.now size result (grammar.tree_of tokens.now size) }
    ensures place { IfErr result (λ e. grammar.IsWithin size e) }
{
    let source = derive(alloc, tokens, size)?;
    match misplaced(alloc, &source.body) {
        Ok(None) => Ok(source),
        Ok(Some(at)) => Err(ParseError::Syntax { at: at.min(size) }),
        Err(_) => Err(ParseError::NoMemory),
    }
}
