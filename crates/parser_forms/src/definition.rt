//! Blocks, lambdas, methods, classes and modules.
ghost use Rattle.std.specs.Prelude.{◌≡◌, ◌++◌, ◌<◌, ◌≤◌, length, map, IfOk, OnOk};
ghost use Rattle.parser_tree.specs.Parts.{optional_node, path_node, plain_view};
ghost use Rattle.parser_tree.specs.View.{form_view, view};
ghost use Rattle.parser_tokens.specs.Tokens as front;
ghost use Rattle.parser_tokens.specs.Reads.{Gives};
ghost use Rattle.parser_nodes.specs.Nodes.{boxed_view};
ghost use Rattle.parser_form_nodes.specs.Definitions.{head_view};
ghost use Rattle.parser_form_nodes.specs.Parameters.{parameters_view, block_view};
ghost use Rattle.parser_forms.specs.Reading.{Reads, Shortens};
ghost use Rattle.parser_forms.specs.Definitions as rules;

use crate::parameter::{
    block_parameters, is_assign, is_open_parenthesis, lambda_parameters, open_parameters,
};
use crate::{Inner, Read};
use parser_ahead::names::Names;
use parser_ahead::primary::{BlockStyle, DoOwner, Place, lambda_block_at};
use parser_ahead::sections::Compound;
use parser_form_nodes::definitions::{
    MethodHead, class_path, method_name, method_tree, singleton_at,
};
use parser_form_nodes::parameters::definition;
use parser_form_nodes::sections::body_tree;
use parser_tokens::expect::{Wanted, expect, expect_closing};
use parser_tokens::failure::syntax;
use parser_tokens::tokens::{first, place_at, skip};
use parser_tokens::word::Word;
use parser_tree::{Definition, OptionalParameter, ParameterList, PlainBody, Scope, Tree, TreeForm};
use rb_base::Bytes;
use rb_syntax::{Outside, Punctuator, Token};
use std::alloc::{AllocError, Global};

/// Statements, to behind the brace that closes them.
fn braces<'a, I: Inner>(
    inner: &I,
    alloc: Global,
    names: &mut Names,
    tokens: &'a [Token],
) -> Read<'a, Tree>
    ensures value { Reads view result names.new (rules.braces (I.inside inner.now) names.old tokens.now) }
    ensures within { IfOk result (λ p. length p.1.now ≤ length tokens.now) }
{
    let (body, rest) = inner.statements(alloc, names, tokens)?;
    Ok((body, expect(rest, Wanted::CloseBrace)?))
}

/// A body with its clauses, to behind its `end`.
fn body<'a, I: Inner>(
    inner: &I,
    alloc: Global,
    names: &mut Names,
    tokens: &'a [Token],
) -> Read<'a, Tree>
    ensures value { Reads view result names.new (rules.body (I.inside inner.now) names.old tokens.now) }
    ensures within { IfOk result (λ p. length p.1.now ≤ length tokens.now) }
{
    let (parts, rest) = inner.sections(alloc, names, Compound::Body, tokens)?;
    Ok((body_tree(alloc, parts)?, rest))
}

/// The statements of a block, to behind its end.
fn styled_body<'a, I: Inner>(
    inner: &I,
    alloc: Global,
    names: &mut Names,
    tokens: &'a [Token],
    style: BlockStyle,
) -> Read<'a, Tree>
    ensures value { Reads view result names.new (rules.body_by (I.inside inner.now) style names.old tokens.now) }
    ensures within { IfOk result (λ p. length p.1.now ≤ length tokens.now) }
{
    match style {
        BlockStyle::Brace => braces(inner, alloc, names, tokens),
        BlockStyle::Do => body(inner, alloc, names, tokens),
    }
}

/// The statements of a block, to behind its end. Its names begin at `mark`.
fn block_body<'a, I: Inner>(
    inner: &I,
    alloc: Global,
    names: &mut Names,
    mark: usize,
    list: ParameterList<Tree>,
    style: BlockStyle,
    at: u32,
    tokens: &'a [Token],
) -> Read<'a, Definition<Tree>>
    ensures value { Reads block_view result names.new
        (rules.block_body (I.inside inner.now) style at mark (parameters_view list) names.old tokens.now) }
    ensures within { IfOk result (λ p. length p.1.now ≤ length tokens.now) }
{
    let (body, rest) = styled_body(inner, alloc, names, tokens, style)?;
    Ok((definition(alloc, names, mark, list, body, at)?, rest))
}

/// The block at the front.
#[tactic(auto, unfolding(crate::specs::Definitions::block))]
pub fn block<'a, I: Inner>(
    inner: &I,
    alloc: Global,
    names: &mut Names,
    tokens: &'a [Token],
    style: BlockStyle,
) -> Read<'a, Definition<Tree>>
    ensures value { Reads block_view result names.new (rules.block (I.inside inner.now) names.old tokens.now style) }
    ensures within { IfOk result (λ p. length p.1.now ≤ length tokens.now) }
{
    let at = place_at(tokens);
    let mark = names.len();
    let (list, rest) = block_parameters(inner, alloc, names, skip(tokens))?;
    block_body(inner, alloc, names, mark, list, style, at, rest)
}

/// The block of a lambda, which may have the parameters where none stand behind the arrow.
fn lambda_body<'a, I: Inner>(
    inner: &I,
    alloc: Global,
    names: &mut Names,
    bare: bool,
    mark: usize,
    list: ParameterList<Tree>,
    style: BlockStyle,
    at: u32,
    tokens: &'a [Token],
) -> Read<'a, Definition<Tree>>
    ensures value { Reads block_view result names.new
        (rules.lambda_body (I.inside inner.now) bare style at mark (parameters_view list) names.old tokens.now) }
    ensures within { IfOk result (λ p. length p.1.now ≤ length tokens.now) }
{
    let behind = skip(tokens);
    if !bare {
        return block_body(inner, alloc, names, mark, list, style, at, behind);
    }
    let (list, behind) = block_parameters(inner, alloc, names, behind)?;
    block_body(inner, alloc, names, mark, list, style, at, behind)
}

/// What stands behind `->`, whose place is `at`.
#[tactic(auto, using(parser_tree::proofs::Views::views), unfolding(crate::specs::Definitions::lambda))]
pub fn lambda<'a, I: Inner>(
    inner: &I,
    alloc: Global,
    names: &mut Names,
    tokens: &'a [Token],
    at: u32,
    owner: DoOwner,
) -> Read<'a, Tree>
    ensures value { Reads view result names.new (rules.lambda (I.inside inner.now) at names.old tokens.now owner) }
    ensures within { IfOk result (λ p. length p.1.now ≤ length tokens.now) }
{
    let mark = names.len();
    let bare = lambda_block_at(owner, tokens).is_some();
    let (list, rest) = lambda_parameters(inner, alloc, names, tokens)?;
    let Some(style) = lambda_block_at(owner, rest) else {
        return Err(syntax(rest));
    };
    let (definition, rest) = lambda_body(inner, alloc, names, bare, mark, list, style, at, rest)?;
    let tree = TreeForm::Lambda(definition).into_tree(alloc)?;
    Ok((tree, rest))
}

/// A method on the value of an expression in parentheses.
fn value_head<'a, I: Inner>(
    inner: &I,
    alloc: Global,
    names: &mut Names,
    tokens: &'a [Token],
) -> Read<'a, MethodHead>
    ensures value { Reads head_view result names.new (rules.value_head (I.inside inner.now) names.old tokens.now) }
    ensures within { IfOk result (λ p. length p.1.now ≤ length tokens.now) }
{
    let behind = skip(tokens);
    let (place, owner) = (Place::Command, DoOwner::Call);
    let (tree, rest) = inner.expression(alloc, names, behind, place, owner)?;
    let rest = expect_closing(rest, Wanted::CloseParenthesis)?;
    let rest = expect(rest, Wanted::Dot)?;
    let singleton = Some(tree);
    let (head, rest) = method_name(alloc, singleton, rest)?;
    Ok((head, rest))
}

/// What a method is defined on, and its name.
#[tactic(auto, unfolding(crate::specs::Definitions::method_head))]
fn method_head<'a, I: Inner>(
    inner: &I,
    alloc: Global,
    names: &mut Names,
    tokens: &'a [Token],
) -> Read<'a, MethodHead>
    ensures value { Reads head_view result names.new (rules.method_head (I.inside inner.now) names.old tokens.now) }
    ensures within { IfOk result (λ p. length p.1.now ≤ length tokens.now) }
{
    if is_open_parenthesis(first(tokens)) {
        return value_head(inner, alloc, names, tokens);
    }
    match singleton_at(alloc, names, tokens)? {
        Some(tree) => {
            let singleton = Some(tree);
            let (head, rest) = method_name(alloc, singleton, skip(skip(tokens)))?;
            Ok((head, rest))
        }
        None => {
            let (head, rest) = method_name(alloc, None, tokens)?;
            Ok((head, rest))
        }
    }
}

/// Puts the defaults of optional parameters at the end.
fn put_defaults(
    parts: &mut Vec<Tree>,
    optional: Vec<OptionalParameter<Tree>>,
) -> Result<(), AllocError>
    ensures { OnOk result (map view parts.new.items ≡ map view parts.old.items
        ++ rules.defaults (map optional_node optional.items)) }
{
    for parameter in optional {
        parts.push(parameter.value)?;
    }
    Ok(())
}

/// A method without an end, outside the language, with what its parameters hold. `at` is the place of its `=`.
#[tactic(auto, using(crate::proofs::Defaults::default_parts))]
fn endless_form(list: ParameterList<Tree>, at: u32, value: Tree) -> Result<TreeForm, AllocError>
    ensures { IfOk result (λ t. form_view t ≡ rules.endless (parameters_view list) at (view value)) }
{
    let mut parts = list.outside;
    put_defaults(&mut parts, list.optional)?;
    parts.push(value)?;
    let what = Outside::EndlessMethod;
    Ok(TreeForm::Outside { what, at, parts })
}

/// A method without an end.
fn endless_method<'a, I: Inner>(
    inner: &I,
    alloc: Global,
    scope: &mut Names,
    list: ParameterList<Tree>,
    tokens: &'a [Token],
) -> Read<'a, Tree>
    ensures value { Reads view result scope.new
        (rules.endless_method (I.inside inner.now) (parameters_view list) scope.old tokens.now) }
    ensures within { IfOk result (λ p. length p.1.now ≤ length tokens.now) }
{
    let at = place_at(tokens);
    let (tree, rest) = inner.argument(alloc, scope, skip(tokens), DoOwner::Call)?;
    Ok((endless_form(list, at, tree)?.into_tree(alloc)?, rest))
}

/// A method with its body.
fn whole_method<'a, I: Inner>(
    inner: &I,
    alloc: Global,
    scope: &mut Names,
    head: MethodHead,
    list: ParameterList<Tree>,
    at: u32,
    tokens: &'a [Token],
) -> Read<'a, Tree>
    ensures value { Reads view result scope.new
        (rules.whole_method (I.inside inner.now) at (head_view head) (parameters_view list) scope.old tokens.now) }
    ensures within { IfOk result (λ p. length p.1.now ≤ length tokens.now) }
{
    let (body, rest) = body(inner, alloc, scope, tokens)?;
    let definition = definition(alloc, scope, 0, list, body, at)?;
    Ok((method_tree(alloc, head, definition)?, rest))
}

/// A method behind its parameters.
fn method_rest<'a, I: Inner>(
    inner: &I,
    alloc: Global,
    scope: &mut Names,
    head: MethodHead,
    list: ParameterList<Tree>,
    at: u32,
    tokens: &'a [Token],
) -> Read<'a, Tree>
    ensures value { Reads view result scope.new
        (rules.method_rest (I.inside inner.now) at (head_view head) (parameters_view list) scope.old tokens.now) }
    ensures within { IfOk result (λ p. length p.1.now ≤ length tokens.now) }
{
    if is_assign(tokens) {
        endless_method(inner, alloc, scope, list, tokens)
    } else {
        whole_method(inner, alloc, scope, head, list, at, tokens)
    }
}

/// What stands behind `def`, whose place is `at`.
#[tactic(auto, unfolding(crate::specs::Definitions::define))]
pub fn define<'a, I: Inner>(
    inner: &I,
    alloc: Global,
    names: &mut Names,
    tokens: &'a [Token],
    at: u32,
) -> Read<'a, Tree>
    ensures value { Reads view result names.new (rules.define (I.inside inner.now) at names.old tokens.now) }
    ensures within { IfOk result (λ p. length p.1.now ≤ length tokens.now) }
{
    let (head, rest) = method_head(inner, alloc, names, tokens)?;
    let mut scope = Names::new(alloc);
    let (list, rest) = open_parameters(inner, alloc, &mut scope, rest)?;
    let (tree, rest) = method_rest(inner, alloc, &mut scope, head, list, at, rest)?;
    Ok((tree, rest))
}

/// The body of a class or a module, which knows no names but those of its own text.
fn class_body<'a, I: Inner>(
    inner: &I,
    alloc: Global,
    tokens: &'a [Token],
) -> Read<'a, PlainBody<Tree>>
    ensures value { Gives (λ p. (plain_view p.0, p.1.now)) result (rules.class_body (I.inside inner.now) tokens.now) }
    ensures within { IfOk result (λ p. length p.1.now ≤ length tokens.now) }
{
    let mut scope = Names::new(alloc);
    let (body, rest) = body(inner, alloc, &mut scope, tokens)?;
    let locals = scope.locals_from(alloc, 0)?;
    Ok((PlainBody { locals, body }, rest))
}

/// The same behind the heading.
fn separated_body<'a, I: Inner>(
    inner: &I,
    alloc: Global,
    tokens: &'a [Token],
) -> Read<'a, PlainBody<Tree>>
    ensures value { Gives (λ p. (plain_view p.0, p.1.now)) result
        (rules.separated_body (I.inside inner.now) tokens.now) }
    ensures within { IfOk result (λ p. length p.1.now ≤ length tokens.now) }
{
    class_body(inner, alloc, expect(tokens, Wanted::Separator)?)
}

/// The path of a class or module.
fn path<'a, I: Inner>(
    inner: &I,
    alloc: Global,
    names: &mut Names,
    tokens: &'a [Token],
) -> Read<'a, (Scope<Tree>, Bytes)>
    ensures value { Reads path_node result names.new (rules.path (I.inside inner.now) names.old tokens.now) }
    ensures within { IfOk result (λ p. length p.1.now ≤ length tokens.now) }
{
    let (tree, rest) = inner.operation(alloc, names, tokens, 1, DoOwner::Call)?;
    match class_path(tree) {
        Some(found) => Ok((found, rest)),
        None => Err(syntax(tokens)),
    }
}

/// What stands behind `class <<`.
#[tactic(auto, using(parser_tree::proofs::Views::views))]
fn singleton_class<'a, I: Inner>(
    inner: &I,
    alloc: Global,
    names: &mut Names,
    tokens: &'a [Token],
) -> Read<'a, Tree>
    ensures value { Reads view result names.new (rules.singleton_class (I.inside inner.now) names.old tokens.now) }
    ensures within { IfOk result (λ p. length p.1.now ≤ length tokens.now) }
{
    let (place, owner) = (Place::Command, DoOwner::Call);
    let (tree, rest) = inner.expression(alloc, names, skip(tokens), place, owner)?;
    let (body, rest) = separated_body(inner, alloc, rest)?;
    let tree = TreeForm::SingletonClass(tree, body).into_tree(alloc)?;
    Ok((tree, rest))
}

fn is_less(word: Word) -> bool
    ensures { result ≡ rules.is_less word }
{
    matches!(word, Word::Mark(Punctuator::Less))
}

fn is_shift(word: Word) -> bool
    ensures { result ≡ rules.is_shift word }
{
    matches!(word, Word::Mark(Punctuator::ShiftLeft))
}

/// The superclass, or none.
fn parent<'a, I: Inner>(
    inner: &I,
    alloc: Global,
    names: &mut Names,
    tokens: &'a [Token],
) -> Read<'a, Option<Tree>>
    ensures value { Reads boxed_view result names.new (rules.parent (I.inside inner.now) names.old tokens.now) }
    ensures within { IfOk result (λ p. length p.1.now ≤ length tokens.now) }
{
    if !is_less(first(tokens)) {
        return Ok((None, tokens));
    }
    let (place, owner) = (Place::Command, DoOwner::Call);
    let (tree, rest) = inner.expression(alloc, names, skip(tokens), place, owner)?;
    Ok((Some(tree), rest))
}

/// A class with its path.
#[tactic(auto, using(parser_tree::proofs::Views::views))]
fn named_class<'a, I: Inner>(
    inner: &I,
    alloc: Global,
    names: &mut Names,
    tokens: &'a [Token],
) -> Read<'a, Tree>
    ensures value { Reads view result names.new (rules.named_class (I.inside inner.now) names.old tokens.now) }
    ensures within { IfOk result (λ p. length p.1.now ≤ length tokens.now) }
{
    let ((scope, name), rest) = path(inner, alloc, names, tokens)?;
    let (parent, rest) = parent(inner, alloc, names, rest)?;
    let (body, rest) = separated_body(inner, alloc, rest)?;
    let tree = TreeForm::Class {
        scope,
        name,
        parent,
        body,
    }
    .into_tree(alloc)?;
    Ok((tree, rest))
}

/// What stands behind `class`.
#[tactic(auto, unfolding(crate::specs::Definitions::class_form))]
pub fn class_form<'a, I: Inner>(
    inner: &I,
    alloc: Global,
    names: &mut Names,
    tokens: &'a [Token],
) -> Read<'a, Tree>
    ensures value { Reads view result names.new (rules.class_form (I.inside inner.now) names.old tokens.now) }
    ensures within { IfOk result (λ p. length p.1.now ≤ length tokens.now) }
{
    if is_shift(first(tokens)) {
        singleton_class(inner, alloc, names, tokens)
    } else {
        named_class(inner, alloc, names, tokens)
    }
}

/// What stands behind `module`.
#[tactic(auto, using(parser_tree::proofs::Views::views), unfolding(crate::specs::Definitions::module_form))]
pub fn module_form<'a, I: Inner>(
    inner: &I,
    alloc: Global,
    names: &mut Names,
    tokens: &'a [Token],
) -> Read<'a, Tree>
    ensures value { Reads view result names.new (rules.module_form (I.inside inner.now) names.old tokens.now) }
    ensures within { IfOk result (λ p. length p.1.now ≤ length tokens.now) }
{
    let ((scope, name), rest) = path(inner, alloc, names, tokens)?;
    let (body, rest) = class_body(inner, alloc, rest)?;
    let tree = TreeForm::Module { scope, name, body }.into_tree(alloc)?;
    Ok((tree, rest))
}
