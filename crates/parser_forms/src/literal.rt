//! The pieces of literals.
ghost use Rattle.std.specs.Prelude.{◌≡◌, ◌<◌, ◌≤◌, length, IfOk};
ghost use Rattle.parser_tree.specs.Parts.{piece_node};
ghost use Rattle.parser_tokens.specs.Tokens as front;
ghost use Rattle.parser_nodes.specs.Leaf as leaf;
ghost use Rattle.parser_forms.specs.Reading.{Reads, Shortens};
ghost use Rattle.parser_forms.specs.Literals as rules;
ghost use Rattle.parser_forms.specs.Literals.{pieces_view};

use crate::{Inner, Read};
use parser_ahead::names::Names;
use parser_nodes::leaf::leaf;
use parser_tokens::expect::{Wanted, expect};
use parser_tokens::failure::syntax;
use parser_tokens::tokens::{bytes_at, character_at, first, skip};
use parser_tokens::word::Word;
use parser_tree::{Piece, Tree};
use rb_base::Bytes;
use rb_syntax::{Outside, Token};
use std::alloc::{AllocError, Global};

/// Whether a word ends a literal, or a key in quotes.
fn ends_literal(word: Word) -> bool
    ensures { result ≡ rules.ends_literal word }
{
    matches!(word, Word::LiteralEnd | Word::Other(Outside::QuotedLabel))
}

/// Whether a word ends a literal.
pub fn is_literal_end(word: Word) -> bool
    ensures { result ≡ rules.is_literal_end word }
{
    matches!(word, Word::LiteralEnd)
}

/// A variable that stands as a piece, or a construct outside the language.
fn leaf_piece<'a>(alloc: Global, names: &mut Names, tokens: &'a [Token]) -> Read<'a, Piece<Tree>>
    ensures value { Reads piece_node result names.new (rules.leaf_piece (leaf.leaf tokens.now) names.old tokens.now) }
    ensures shorter { Shortens tokens.now result }
{
    match leaf(alloc, tokens)? {
        Some((tree, rest)) => Ok((Piece::Interpolation(tree), rest)),
        None => Err(syntax(tokens)),
    }
}

/// A piece of a literal.
fn piece<'a, I: Inner>(
    inner: &I,
    alloc: Global,
    names: &mut Names,
    tokens: &'a [Token],
) -> Read<'a, Piece<Tree>>
    ensures value { Reads piece_node result names.new (rules.piece (I.inside inner.now) names.old tokens.now) }
    ensures shorter { Shortens tokens.now result }
{
    match first(tokens) {
        Word::Piece => {
            let bytes = Bytes::from_slice(alloc, bytes_at(tokens))?;
            Ok((Piece::Text(bytes), skip(tokens)))
        }
        Word::InterpolationBegin => {
            let behind = skip(tokens);
            let (tree, rest) = inner.statements(alloc, names, behind)?;
            let rest = expect(rest, Wanted::InterpolationEnd)?;
            Ok((Piece::Interpolation(tree), rest))
        }
        Word::InstanceVariable => leaf_piece(alloc, names, tokens),
        Word::GlobalVariable => leaf_piece(alloc, names, tokens),
        Word::Other(_) => leaf_piece(alloc, names, tokens),
        _ => Err(syntax(tokens)),
    }
}

/// The piece at the front, behind those that were found.
#[tactic(auto, using(crate::proofs::Turns::piece_pushes))]
fn next_piece<'a, I: Inner>(
    inner: &I,
    alloc: Global,
    names: &mut Names,
    found: Vec<Piece<Tree>>,
    tokens: &'a [Token],
) -> Read<'a, Vec<Piece<Tree>>>
    ensures value { Reads pieces_view result names.new
        (rules.next_piece (I.inside inner.now) (pieces_view found) names.old tokens.now) }
    ensures shorter { Shortens tokens.now result }
{
    let mut list = found;
    let (piece, rest) = piece(inner, alloc, names, tokens)?;
    list.push(piece)?;
    Ok((list, rest))
}

/// The pieces of a literal, behind those that were found.
#[tactic(auto, using(crate::proofs::Turns::piece_turns))]
pub fn pieces<'a, I: Inner>(
    inner: &I,
    alloc: Global,
    names: &mut Names,
    found: Vec<Piece<Tree>>,
    tokens: &'a [Token],
) -> Read<'a, Vec<Piece<Tree>>>
    ensures value { Reads pieces_view result names.new
        (rules.pieces (I.inside inner.now) (pieces_view found) names.old tokens.now) }
    ensures within { IfOk result (λ p. length p.1.now ≤ length tokens.now) }
{
    let mut list = found;
    let mut rest = tokens;
    'pieces: while !ends_literal(first(rest)) {
        let (more, after) = next_piece(inner, alloc, names, list, rest)?;
        list = more;
        rest = after;
    }
    Ok((list, rest))
}

/// Whether a word begins a string.
fn begins_string(word: Word) -> bool
    ensures { result ≡ rules.begins_string word }
{
    matches!(word, Word::StringBegin | Word::Character)
}

fn is_character(word: Word) -> bool
    ensures { result ≡ rules.is_character word }
{
    matches!(word, Word::Character)
}

/// The string of one byte at the front, behind the pieces found.
#[tactic(auto, using(crate::proofs::Turns::piece_pushes))]
fn character<'a>(
    alloc: Global,
    found: Vec<Piece<Tree>>,
    tokens: &'a [Token],
) -> Result<Vec<Piece<Tree>>, AllocError>
    ensures { IfOk result (λ list. pieces_view list ≡ rules.with_character (pieces_view found) tokens.now) }
{
    let mut list = found;
    let byte = character_at(tokens);
    list.push(Piece::Text(Bytes::from_slice(alloc, &[byte])?))?;
    Ok(list)
}

/// The string at the front, behind the pieces found.
pub fn string<'a, I: Inner>(
    inner: &I,
    alloc: Global,
    names: &mut Names,
    found: Vec<Piece<Tree>>,
    tokens: &'a [Token],
) -> Read<'a, Vec<Piece<Tree>>>
    ensures value { Reads pieces_view result names.new
        (rules.string (I.inside inner.now) (pieces_view found) names.old tokens.now) }
    ensures within { IfOk result (λ p. length p.1.now ≤ length (front.behind tokens.now)) }
{
    if is_character(first(tokens)) {
        return Ok((character(alloc, found, tokens)?, skip(tokens)));
    }
    let (list, rest) = pieces(inner, alloc, names, found, skip(tokens))?;
    if !is_literal_end(first(rest)) {
        return Err(syntax(rest));
    }
    Ok((list, skip(rest)))
}

/// Neighbouring strings, as one, behind the pieces found.
#[tactic(auto, using(crate::proofs::Turns::string_turns))]
pub fn strings<'a, I: Inner>(
    inner: &I,
    alloc: Global,
    names: &mut Names,
    found: Vec<Piece<Tree>>,
    tokens: &'a [Token],
) -> Read<'a, Vec<Piece<Tree>>>
    ensures value { Reads pieces_view result names.new
        (rules.strings (I.inside inner.now) (pieces_view found) names.old tokens.now) }
    ensures within { IfOk result (λ p. length p.1.now ≤ length tokens.now) }
{
    let mut list = found;
    let mut rest = tokens;
    'strings: while begins_string(first(rest)) {
        let (more, after) = string(inner, alloc, names, list, rest)?;
        list = more;
        rest = after;
    }
    Ok((list, rest))
}
