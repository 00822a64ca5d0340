//! The levels of rules: each holds the rules of the one below it.
ghost use Rattle.std.specs.Prelude.{◌≡◌, ◌<◌, ◌≤◌, length, IfOk};
ghost use Rattle.rb_parser.specs.Levels as deep;

use parser_ahead::groups::TargetUse;
use parser_ahead::names::Names;
use parser_ahead::primary::{BlockStyle, DoOwner, Place};
use parser_ahead::sections::Compound;
use parser_form_nodes::sections::Section;
use parser_form_nodes::targets::Targets;
use parser_forms::definition::block;
use parser_forms::{Inner, Read};
use parser_nodes::listed::{Listed, Phrase};
use parser_operands::operators::operation;
use parser_phrases::phrases::{argument, phrase};
use parser_phrases::targets::targets;
use parser_statements::lists::list;
use parser_statements::sections::sections;
use parser_statements::statements::{expression, negation, statements};
use parser_tokens::failure::syntax;
use parser_tree::{Definition, Tree};
use rb_syntax::Token;
use std::alloc::{AllocError, Global};

/// The levels that are left.
#[derive(Drop)]
pub enum Level {
    Base,
    Above(Box<Level>),
}

/// Lets levels go. A loop does it, since there are as many as tokens.
pub fn release(levels: Level) {
    let mut levels = levels;
    'levels: loop {
        match levels {
            Level::Base => return,
            Level::Above(below) => levels = Box::into_inner(below),
        }
    }
}

/// So many levels.
#[tactic(auto, using(crate::proofs::Deep::level_laws))]
pub fn levels_above(alloc: Global, count: usize) -> Result<Level, AllocError>
    ensures { IfOk result (λ l. deep.inside l ≡ deep.levels count) }
{
    let mut levels = Level::Base;
    for _ in 0..count {
        match Box::new(alloc, levels) {
            Ok(below) => levels = Level::Above(below),
            Err(refused) => {
                release(refused.value);
                return Err(AllocError);
            }
        }
    }
    Ok(levels)
}

impl Inner for Level {
    ghost inside = { λ l. deep.inside l };

    #[cycle(levels)]
    fn statements<'a>(
        &self,
        alloc: Global,
        names: &mut Names,
        tokens: &'a [Token],
    ) -> Read<'a, Tree> {
        match self {
            Level::Above(below) => { statements(&**below, alloc, names, tokens) }
            Level::Base => Err(syntax(tokens)),
        }
    }

    #[cycle(levels)]
    fn expression<'a>(
        &self,
        alloc: Global,
        names: &mut Names,
        tokens: &'a [Token],
        place: Place,
        owner: DoOwner,
    ) -> Read<'a, Tree> {
        match self {
            Level::Above(below) => { expression(&**below, alloc, names, tokens, place, owner) }
            Level::Base => Err(syntax(tokens)),
        }
    }

    #[cycle(levels)]
    fn negation<'a>(
        &self,
        alloc: Global,
        names: &mut Names,
        tokens: &'a [Token],
        place: Place,
        owner: DoOwner,
    ) -> Read<'a, Phrase> {
        match self {
            Level::Above(below) => { negation(&**below, alloc, names, tokens, place, owner) }
            Level::Base => Err(syntax(tokens)),
        }
    }

    #[cycle(levels)]
    fn phrase<'a>(
        &self,
        alloc: Global,
        names: &mut Names,
        tokens: &'a [Token],
        place: Place,
        owner: DoOwner,
    ) -> Read<'a, Phrase> {
        match self {
            Level::Above(below) => { phrase(&**below, alloc, names, tokens, place, owner) }
            Level::Base => Err(syntax(tokens)),
        }
    }

    #[cycle(levels)]
    fn argument<'a>(
        &self,
        alloc: Global,
        names: &mut Names,
        tokens: &'a [Token],
        owner: DoOwner,
    ) -> Read<'a, Tree> {
        match self {
            Level::Above(below) => { argument(&**below, alloc, names, tokens, owner) }
            Level::Base => Err(syntax(tokens)),
        }
    }

    #[cycle(levels)]
    fn operation<'a>(
        &self,
        alloc: Global,
        names: &mut Names,
        tokens: &'a [Token],
        loosest: u8,
        owner: DoOwner,
    ) -> Read<'a, Tree> {
        match self {
            Level::Above(below) => { operation(&**below, alloc, names, tokens, loosest, owner) }
            Level::Base => Err(syntax(tokens)),
        }
    }

    #[cycle(levels)]
    fn list<'a>(
        &self,
        alloc: Global,
        names: &mut Names,
        tokens: &'a [Token],
        owner: DoOwner,
    ) -> Read<'a, Listed> {
        match self {
            Level::Above(below) => { list(&**below, alloc, names, tokens, owner) }
            Level::Base => Err(syntax(tokens)),
        }
    }

    #[cycle(levels)]
    fn targets<'a>(
        &self,
        alloc: Global,
        names: &mut Names,
        found: Targets,
        tokens: &'a [Token],
        target_use: TargetUse,
    ) -> Read<'a, Targets> {
        match self {
            Level::Above(below) => { targets(&**below, alloc, names, found, tokens, target_use) }
            Level::Base => Err(syntax(tokens)),
        }
    }

    #[cycle(levels)]
    fn block<'a>(
        &self,
        alloc: Global,
        names: &mut Names,
        tokens: &'a [Token],
        style: BlockStyle,
    ) -> Read<'a, Definition<Tree>> {
        match self {
            Level::Above(below) => { block(&**below, alloc, names, tokens, style) }
            Level::Base => Err(syntax(tokens)),
        }
    }

    #[cycle(levels)]
    fn sections<'a>(
        &self,
        alloc: Global,
        names: &mut Names,
        form: Compound,
        tokens: &'a [Token],
    ) -> Read<'a, Vec<Section>> {
        match self {
            Level::Above(below) => { sections(&**below, alloc, names, form, tokens) }
            Level::Base => Err(syntax(tokens)),
        }
    }
}
