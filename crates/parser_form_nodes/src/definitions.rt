//! The trees of method definitions, the paths of classes and modules, `alias` and `undef` (ISO/IEC 30170:2012, 13).
ghost use Rattle.std.specs.Prelude.{◌≡◌, ◌<◌, length, IsSome, IfOk, option_map};
ghost use Rattle.parser_tokens.specs.Reads.{Gives};
ghost use Rattle.parser_tokens.specs.Tokens as front;
ghost use Rattle.parser_tree.specs.Node as node;
ghost use Rattle.parser_tree.specs.Parts.{boxed, class_path, definition_node, path_node, trees};
ghost use Rattle.parser_tree.specs.View.{form_view, view};
ghost use Rattle.parser_form_nodes.specs.Definitions as made;
ghost use Rattle.parser_form_nodes.specs.Parameters.{block_view};

use parser_ahead::names::Names;
use parser_ahead::primary::{is_comma, is_method};
use parser_tokens::failure::{Failure, syntax};
use parser_tokens::tokens::{bytes_at, first, place_at, skip};
use parser_tokens::word::Word;
use parser_tree::{Definition, Scope, Tree, TreeForm};
use rb_base::{Bytes, List};
use rb_syntax::{Outside, Punctuator, Token};
use std::alloc::{AllocError, Global};

/// What a method is defined on, and its name. `outside` is the place of a name that isn't of ASCII.
#[derive(Drop)]
pub struct MethodHead {
    pub singleton: Option<Tree>,
    pub name: Bytes,
    pub outside: Option<u32>,
}

/// Whether the name of a method stands at the front, and where it isn't of ASCII its place.
fn name_place(tokens: &[Token]) -> Option<Option<u32>>
    ensures value { result ≡ made.name_place (front.first tokens.now) tokens.now }
    ensures there { IsSome result → length (front.behind tokens.now) < length tokens.now }
{
    match first(tokens) {
        Word::Identifier | Word::Constant | Word::MethodName => Some(None),
        Word::Other(Outside::NonAsciiName) => Some(Some(place_at(tokens))),
        _ => None,
    }
}

/// The name at the front, behind what the method is defined on.
pub fn method_name<'a>(
    alloc: Global,
    singleton: Option<Tree>,
    tokens: &'a [Token],
) -> Result<(MethodHead, &'a [Token]), Failure>
    ensures value { Gives (λ r. (made.head_view r.0, r.1.now)) result (made.method_name (boxed singleton) tokens.now) }
    ensures shorter { IfOk result (λ r. length r.1.now < length tokens.now) }
{
    let Some(outside) = name_place(tokens) else {
        return Err(syntax(tokens));
    };
    let name = Bytes::from_slice(alloc, bytes_at(tokens))?;
    let head = MethodHead {
        singleton,
        name,
        outside,
    };
    Ok((head, skip(tokens)))
}

/// A name that is a local, or is called without arguments.
#[tactic(auto, using(parser_tree::proofs::Views::views))]
fn called_name(known: bool, name: Bytes) -> TreeForm
    ensures { form_view result ≡ made.called_name known name }
{
    if known {
        TreeForm::Local(name)
    } else {
        TreeForm::Call {
            receiver: None,
            name,
            arguments: None,
            block: None,
        }
    }
}

/// What a method is defined on, where it is a word of this kind with this name.
fn named_singleton(
    alloc: Global,
    names: &Names,
    word: Word,
    name: &[u8],
) -> Result<Option<TreeForm>, AllocError>
    ensures { IfOk result (λ t. option_map form_view t ≡ made.named_singleton word names.now name.now) }
{
    match word {
        Word::Constant => Ok(Some(TreeForm::Constant(Bytes::from_slice(alloc, name)?))),
        Word::Identifier => {
            let called = Bytes::from_slice(alloc, name)?;
            Ok(Some(called_name(names.is_known(name), called)))
        }
        Word::MethodName => {
            if name == b"self".as_slice() {
                Ok(Some(TreeForm::SelfReference))
            } else {
                Ok(None)
            }
        }
        _ => Ok(None),
    }
}

/// The tree of a form that may be there.
fn tree_of(alloc: Global, form: Option<TreeForm>) -> Result<Option<Tree>, AllocError>
    ensures { IfOk result (λ t. option_map view t ≡ option_map form_view form) }
{
    match form {
        Some(form) => Ok(Some(form.into_tree(alloc)?)),
        None => Ok(None),
    }
}

/// What a method is defined on, where it is a name with a dot behind it: a constant, a local, a call without
/// arguments, or `self`.
#[tactic(auto, unfolding(crate::specs::Definitions::singleton_at))]
pub fn singleton_at(
    alloc: Global,
    names: &Names,
    tokens: &[Token],
) -> Result<Option<Tree>, AllocError>
    ensures { IfOk result (λ t. option_map view t ≡ made.singleton_at names.now tokens.now) }
{
    match first(skip(tokens)) {
        Word::Mark(Punctuator::Dot) => {
            let form = named_singleton(alloc, names, first(tokens), bytes_at(tokens))?;
            tree_of(alloc, form)
        }
        _ => Ok(None),
    }
}

/// The trees of what a method is defined on and of its body.
fn method_parts(alloc: Global, singleton: Option<Tree>, body: Tree) -> Result<Vec<Tree>, AllocError>
    ensures { IfOk result (λ v. trees v.items ≡ made.nodes_then (boxed singleton) (view body)) }
{
    let mut parts = Vec::new(alloc);
    if let Some(tree) = singleton {
        parts.push(tree)?;
    }
    parts.push(body)?;
    Ok(parts)
}

/// A method whose name isn't of ASCII is outside the language, with what it is defined on and its body.
#[tactic(auto, using(parser_tree::proofs::Views::views))]
fn outside_method(at: u32, parts: Vec<Tree>) -> TreeForm
    ensures { form_view result ≡ made.outside_method at (trees parts.items) }
{
    TreeForm::Outside {
        what: Outside::NonAsciiName,
        at,
        parts,
    }
}

/// A method over its parts.
#[tactic(auto, using(parser_tree::proofs::Views::views))]
fn define_of(singleton: Option<Tree>, name: Bytes, definition: Definition<Tree>) -> TreeForm
    ensures { form_view result ≡ node.define (boxed singleton) name (definition_node definition) }
{
    TreeForm::Define {
        singleton,
        name,
        definition,
    }
}

/// The tree of a method. One whose name isn't of ASCII is outside the language.
pub fn method_tree(
    alloc: Global,
    head: MethodHead,
    definition: Definition<Tree>,
) -> Result<Tree, AllocError>
    ensures { IfOk result (λ t. view t ≡ made.method_node (made.head_view head) (block_view definition)) }
{
    let MethodHead {
        singleton,
        name,
        outside,
    } = head;
    match outside {
        Some(at) => {
            let parts = method_parts(alloc, singleton, definition.body)?;
            outside_method(at, parts).into_tree(alloc)
        }
        None => define_of(singleton, name, definition).into_tree(alloc),
    }
}

/// Where a class or module stands, and its name; none where this is no path of constants.
pub fn class_path(tree: Tree) -> Option<(Scope<Tree>, Bytes)>
    ensures { option_map path_node result ≡ class_path (view tree) }
{
    Box::into_inner(tree).into_path()
}

fn is_global(word: Word) -> bool
    ensures { result ≡ made.is_global word }
{
    matches!(
        word,
        Word::GlobalVariable | Word::Other(Outside::SpecialGlobal)
    )
}

/// An alias of global variables, outside the language.
#[tactic(auto, using(parser_tree::proofs::Views::views))]
fn global_alias(alloc: Global, at: u32) -> TreeForm
    ensures { form_view result ≡ made.global_alias at }
{
    TreeForm::Outside {
        what: Outside::GlobalAlias,
        at,
        parts: Vec::new(alloc),
    }
}

/// What stands behind `alias`, whose place is `at`: two names or symbols, or two global variables, which are outside
/// the language.
pub fn alias<'a>(
    alloc: Global,
    at: u32,
    tokens: &'a [Token],
) -> Result<(Tree, &'a [Token]), Failure>
    ensures value { Gives (λ r. (view r.0, r.1.now)) result (made.alias at tokens.now) }
    ensures shorter { IfOk result (λ r. length r.1.now < length tokens.now) }
{
    let behind = skip(tokens);
    let rest = skip(behind);
    if is_global(first(tokens)) && is_global(first(behind)) {
        return Ok((global_alias(alloc, at).into_tree(alloc)?, rest));
    }
    if !is_method(tokens) {
        return Err(syntax(tokens));
    }
    if !is_method(behind) {
        return Err(syntax(behind));
    }
    let new = Bytes::from_slice(alloc, bytes_at(tokens))?;
    let old = Bytes::from_slice(alloc, bytes_at(behind))?;
    Ok((TreeForm::Alias(new, old).into_tree(alloc)?, rest))
}

/// The tree of `undef` over its names.
#[tactic(auto, using(crate::proofs::Names::undef_views))]
fn undef_tree(alloc: Global, names: List<Bytes>) -> Result<Tree, AllocError>
    ensures { IfOk result (λ t. view t ≡ node.undef_node names) }
{
    TreeForm::Undef(names).into_tree(alloc)
}

/// What stands behind `undef`: names and symbols with commas between them.
#[tactic(auto, using(crate::proofs::Names::undef_turns))]
pub fn undef<'a>(alloc: Global, tokens: &'a [Token]) -> Result<(Tree, &'a [Token]), Failure>
    ensures value { Gives (λ r. (view r.0, r.1.now)) result (made.undef tokens.now) }
    ensures shorter { IfOk result (λ r. length r.1.now < length tokens.now) }
{
    let mut list: List<Bytes> = List::new(alloc);
    let mut rest = tokens;
    'names: loop {
        if !is_method(rest) {
            return Err(syntax(rest));
        }
        list.push(Bytes::from_slice(alloc, bytes_at(rest))?)?;
        rest = skip(rest);
        if !is_comma(rest) {
            let tree = undef_tree(alloc, list)?;
            return Ok((tree, rest));
        }
        rest = skip(rest);
    }
}
