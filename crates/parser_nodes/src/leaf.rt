//! The primaries of one word, and the few that have no statements within.
ghost use Rattle.std.specs.Prelude.{◌≡◌, ◌≢◌, ◌<◌, ◌≤◌, pos, neg_ℤ, length, IfOk, IfSome, IsSome, IsTrue};
ghost use Rattle.std.specs.Option.{option_map};
ghost use Rattle.parser_tree.specs.Node as node;
ghost use Rattle.parser_tree.specs.View.{form_view, view};
ghost use Rattle.parser_tokens.specs.Tokens as front;
ghost use Rattle.parser_nodes.specs.Leaf as made;

use parser_tokens::operators::is_sign;
use parser_tokens::tokens::{bytes_at, first, integer_at, place_at, skip};
use parser_tokens::word::Word;
use parser_tree::{Tree, TreeForm};
use rb_base::{Bytes, List};
use rb_syntax::{Keyword, Outside, Punctuator, Token};
use std::alloc::{AllocError, Global};

/// The form of a primary and the tokens behind it.
type Leaf<'a> = Result<Option<(TreeForm, &'a [Token])>, AllocError>;

/// A construct outside the language that has no parts.
#[tactic(auto, using(parser_tree::proofs::Views::views))]
fn bare(alloc: Global, what: Outside, at: u32) -> TreeForm
    ensures { form_view result ≡ made.bare what at }
{
    TreeForm::Outside {
        what,
        at,
        parts: Vec::new(alloc),
    }
}

/// An integer without a sign; 2^63 has no place among those of the language.
#[tactic(auto, using(crate::proofs::Integers::casts))]
fn positive_form(alloc: Global, n: u64, at: u32) -> TreeForm
    ensures { form_view result ≡ made.positive_node n at }
{
    if n < 9223372036854775808 {
        TreeForm::Integer(n as i64)
    } else {
        bare(alloc, Outside::WideInteger, at)
    }
}

/// The number with a `-` before it.
#[tactic(auto, using(crate::proofs::Integers::casts))]
fn negated(n: u64) -> i64
    requires { n ≤ 9223372036854775808 }
    ensures { result ≡ neg_ℤ (pos n) }
{
    if n < 9223372036854775808 {
        -(n as i64)
    } else {
        i64::MIN
    }
}

/// The integer behind a `-`.
fn negative_form(alloc: Global, n: u64, at: u32) -> TreeForm
    ensures { form_view result ≡ made.negative_node n at }
{
    if n <= 9223372036854775808 {
        TreeForm::Integer(negated(n))
    } else {
        bare(alloc, Outside::WideInteger, at)
    }
}

/// The tree of a keyword that is a primary alone.
#[tactic(auto, using(parser_tree::proofs::Views::views))]
fn keyword_leaf(alloc: Global, keyword: Keyword, at: u32) -> Option<TreeForm>
    ensures { option_map form_view result ≡ made.keyword_leaf keyword at }
{
    match keyword {
        Keyword::Nil => Some(TreeForm::Nil),
        Keyword::True => Some(TreeForm::True),
        Keyword::False => Some(TreeForm::False),
        Keyword::SelfReference => Some(TreeForm::SelfReference),
        Keyword::Retry => Some(TreeForm::Retry { at }),
        Keyword::Redo => Some(bare(alloc, Outside::Redo, at)),
        Keyword::FileName => Some(bare(alloc, Outside::FileKeyword, at)),
        Keyword::LineNumber => Some(bare(alloc, Outside::LineKeyword, at)),
        Keyword::EncodingName => Some(bare(alloc, Outside::EncodingKeyword, at)),
        Keyword::Return => Some(TreeForm::Return {
            items: Vec::new(alloc),
            at,
        }),
        Keyword::Break => Some(TreeForm::Break {
            items: Vec::new(alloc),
            at,
        }),
        Keyword::Next => Some(TreeForm::Next {
            items: Vec::new(alloc),
            at,
        }),
        _ => None,
    }
}

/// The tree of a token outside the language that is a primary alone.
fn outside_leaf(alloc: Global, what: Outside, at: u32) -> Option<TreeForm>
    ensures { option_map form_view result ≡ made.outside_leaf what at }
{
    match what {
        Outside::Ambiguous | Outside::QuotedLabel => None,
        _ => Some(bare(alloc, what, at)),
    }
}

/// The tree of a word that is a primary alone.
fn word_leaf(alloc: Global, word: Word, tokens: &[Token]) -> Result<Option<TreeForm>, AllocError>
    ensures value { IfOk result (λ t. option_map form_view t ≡ made.word_leaf word tokens.now) }
    ensures there { IfOk result (λ t. IsSome t → word ≢ Word.Finish) }
{
    let name = bytes_at(tokens);
    let at = place_at(tokens);
    match word {
        Word::Constant => Ok(Some(TreeForm::Constant(Bytes::from_slice(alloc, name)?))),
        Word::InstanceVariable => {
            let name = Bytes::from_slice(alloc, name)?;
            Ok(Some(TreeForm::InstanceVariable(name)))
        }
        Word::GlobalVariable => Ok(Some(TreeForm::GlobalVariable(Bytes::from_slice(alloc, name)?))),
        Word::Symbol => Ok(Some(TreeForm::Symbol(Bytes::from_slice(alloc, name)?))),
        Word::Integer => Ok(Some(positive_form(alloc, integer_at(tokens), at))),
        Word::Key(keyword) => Ok(keyword_leaf(alloc, keyword, at)),
        Word::Other(what) => Ok(outside_leaf(alloc, what, at)),
        _ => Ok(None),
    }
}

/// Whether an element of `%w` or `%i` stands at the front.
fn is_element(tokens: &[Token]) -> bool
    ensures value { result ≡ made.is_element (front.first tokens.now) }
    ensures there { IsTrue result → length (front.behind tokens.now) < length tokens.now }
{
    matches!(first(tokens), Word::Element)
}

/// Whether the end of a literal stands at the front.
fn is_literal_end(tokens: &[Token]) -> bool
    ensures value { result ≡ made.is_literal_end (front.first tokens.now) }
    ensures there { IsTrue result → length (front.behind tokens.now) < length tokens.now }
{
    matches!(first(tokens), Word::LiteralEnd)
}

/// Puts the elements of `%w` or `%i` at the end of the list, and gives the tokens behind the literal's end.
#[tactic(auto, using(crate::proofs::Elements::element_turns))]
fn elements<'a>(
    alloc: Global,
    list: &mut List<Bytes>,
    tokens: &'a [Token],
) -> Result<Option<&'a [Token]>, AllocError>
    ensures value { IfOk result (λ r. option_map (λ rest. (list.new, rest.now)) r ≡ made.elements_from list.old
        tokens.now) }
    ensures shorter { IfOk result (λ r. IfSome r (λ rest. length rest.now < length tokens.now)) }
{
    let mut rest = tokens;
    'elements: while is_element(rest) {
        list.push(Bytes::from_slice(alloc, bytes_at(rest))?)?;
        rest = skip(rest);
    }
    if is_literal_end(rest) {
        Ok(Some(skip(rest)))
    } else {
        Ok(None)
    }
}

/// The integer behind a `-` that is its sign.
fn negative(alloc: Global, tokens: &[Token]) -> Option<(TreeForm, &[Token])>
    ensures value { option_map (λ p. (form_view p.0, p.1.now)) result ≡ made.negative tokens.now }
    ensures within { IfSome result (λ p. length p.1.now ≤ length (front.behind tokens.now)) }
{
    let behind = skip(tokens);
    if is_sign(behind) {
        let tree = negative_form(alloc, integer_at(behind), place_at(tokens));
        Some((tree, skip(behind)))
    } else {
        None
    }
}

/// The constant behind `::`.
fn top_constant<'a>(alloc: Global, tokens: &'a [Token]) -> Leaf<'a>
    ensures value { IfOk result (λ r. option_map (λ p. (form_view p.0, p.1.now)) r ≡ made.top_constant
        (front.first tokens.now) tokens.now) }
    ensures within { IfOk result (λ r. IfSome r (λ p. length p.1.now ≤ length tokens.now)) }
{
    match first(tokens) {
        Word::Constant => {
            let name = Bytes::from_slice(alloc, bytes_at(tokens))?;
            Ok(Some((TreeForm::TopConstant(name), skip(tokens))))
        }
        _ => Ok(None),
    }
}

/// The `%w` whose elements stand at the front.
fn words<'a>(alloc: Global, tokens: &'a [Token]) -> Leaf<'a>
    ensures value { IfOk result (λ r. option_map (λ p. (form_view p.0, p.1.now)) r ≡ made.with_elements node.words
        (made.elements tokens.now)) }
    ensures shorter { IfOk result (λ r. IfSome r (λ p. length p.1.now < length tokens.now)) }
{
    let mut list = List::new(alloc);
    match elements(alloc, &mut list, tokens)? {
        Some(rest) => Ok(Some((TreeForm::Words(list), rest))),
        None => Ok(None),
    }
}

/// The `%i` whose elements stand at the front.
fn symbols<'a>(alloc: Global, tokens: &'a [Token]) -> Leaf<'a>
    ensures value { IfOk result (λ r. option_map (λ p. (form_view p.0, p.1.now)) r ≡ made.with_elements node.symbols
        (made.elements tokens.now)) }
    ensures shorter { IfOk result (λ r. IfSome r (λ p. length p.1.now < length tokens.now)) }
{
    let mut list = List::new(alloc);
    match elements(alloc, &mut list, tokens)? {
        Some(rest) => Ok(Some((TreeForm::Symbols(list), rest))),
        None => Ok(None),
    }
}

/// The primary that a mark begins.
fn mark_leaf<'a>(alloc: Global, mark: Punctuator, tokens: &'a [Token]) -> Leaf<'a>
    ensures value { IfOk result (λ r. option_map (λ p. (form_view p.0, p.1.now)) r ≡ made.mark_leaf mark tokens.now) }
    ensures within { IfOk result (λ r. IfSome r (λ p. length p.1.now ≤ length (front.behind tokens.now))) }
{
    match mark {
        Punctuator::Minus => Ok(negative(alloc, tokens)),
        Punctuator::ColonColon => top_constant(alloc, skip(tokens)),
        _ => Ok(None),
    }
}

/// The form of the primary at the front, where it is one of these, and the tokens behind it.
#[tactic(auto, unfolding(crate::specs::Leaf::leaf))]
fn leaf_form<'a>(alloc: Global, tokens: &'a [Token]) -> Leaf<'a>
    ensures value { IfOk result (λ r. option_map (λ p. (form_view p.0, p.1.now)) r ≡ made.leaf tokens.now) }
    ensures shorter { IfOk result (λ r. IfSome r (λ p. length p.1.now < length tokens.now)) }
{
    let word = first(tokens);
    match word {
        Word::WordsBegin => words(alloc, skip(tokens)),
        Word::SymbolsBegin => symbols(alloc, skip(tokens)),
        Word::Mark(mark) => mark_leaf(alloc, mark, tokens),
        _ => match word_leaf(alloc, word, tokens)? {
            Some(form) => Ok(Some((form, skip(tokens)))),
            None => Ok(None),
        },
    }
}

/// The primary at the front, where it is one of these, and the tokens behind it.
pub fn leaf<'a>(
    alloc: Global,
    tokens: &'a [Token],
) -> Result<Option<(Tree, &'a [Token])>, AllocError>
    ensures value { IfOk result (λ r. option_map (λ p. (view p.0, p.1.now)) r ≡ made.leaf tokens.now) }
    ensures shorter { IfOk result (λ r. IfSome r (λ p. length p.1.now < length tokens.now)) }
{
    match leaf_form(alloc, tokens)? {
        Some((form, rest)) => Ok(Some((form.into_tree(alloc)?, rest))),
        None => Ok(None),
    }
}
