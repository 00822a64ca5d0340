//! Primaries with their postfixes.
ghost use Rattle.std.specs.Prelude.{◌≡◌, ◌≢◌, ◌<◌, ◌≤◌, length, IfOk, IsSome, IsTrue};
ghost use Rattle.parser_tree.specs.Node as node;
ghost use Rattle.parser_tree.specs.Node.{nodes};
ghost use Rattle.parser_tree.specs.View.{form_view, items_of, view};
ghost use Rattle.parser_nodes.specs.Listed.{items_view};
ghost use Rattle.parser_forms.specs.Literals.{pieces_view};
ghost use Rattle.parser_tokens.specs.Tokens as front;
ghost use Rattle.parser_ahead.specs.Primary as begins;
ghost use Rattle.parser_nodes.specs.Leaf as leaf_of;
ghost use Rattle.parser_nodes.specs.Calls.{callee_view, operand_view, given_view};
ghost use Rattle.parser_forms.specs.Reading.{Reads, Shortens};
ghost use Rattle.parser_operands.specs.Operands as rules;

use parser_ahead::names::Names;
use parser_ahead::primary::{DoOwner, Place, Primary, block_at, is_name, primary_at};
use parser_forms::bracket::{call_arguments, elements, hash, sectioned, yielded};
use parser_forms::definition::{class_form, define, lambda, module_form};
use parser_forms::literal::{is_literal_end, pieces, string, strings};
use parser_forms::parameter::is_open_parenthesis;
use parser_forms::{Inner, Read};
use parser_nodes::leaf::leaf;
use parser_nodes::listed::array_tree;
use parser_nodes::nodes::{defined_tree, prefix_tree};
use parser_nodes::operand::{Callee, Operand, call_tree, operand_tree};
use parser_tokens::expect::{Wanted, expect, expect_closing};
use parser_tokens::failure::syntax;
use parser_tokens::operators::{Prefix, prefix_at};
use parser_tokens::starts::{Postfix, begins_argument, opens_arguments, postfix_at};
use parser_tokens::tokens::{bytes_at, first, place_at, skip};
use parser_tokens::word::Word;
use parser_tree::{Arguments, Piece, Tree, TreeForm, UnaryOperator};
use rb_base::Bytes;
use rb_syntax::{Item, Outside, Token};
use std::alloc::{AllocError, Global};

/// The loosest level of operators in the operand behind a prefix.
fn operand_level(sign: Prefix) -> u8
    ensures { result ≡ rules.operand_level sign }
{
    match sign {
        Prefix::Not => 1,
        Prefix::Operation(UnaryOperator::Plus | UnaryOperator::Complement) => 1,
        Prefix::Operation(UnaryOperator::Minus) => 2,
    }
}

/// Whether a word is a plain name.
fn is_identifier(word: Word) -> bool
    ensures { result ≡ rules.is_identifier word }
{
    matches!(word, Word::Identifier)
}

/// Whether a word is the name of a constant.
fn is_constant(word: Word) -> bool
    ensures { result ≡ rules.is_constant word }
{
    matches!(word, Word::Constant)
}

/// Whether a word is a name that isn't of ASCII.
fn is_outside_name(tokens: &[Token]) -> bool
    ensures value { result ≡ rules.is_outside_name (front.first tokens.now) }
    ensures there { IsTrue result → length (front.behind tokens.now) < length tokens.now }
{
    matches!(first(tokens), Word::Other(Outside::NonAsciiName))
}

/// Whether an operand begins a command: it is a name, and arguments begin behind it.
pub fn begins_command(operand: &Operand, tokens: &[Token]) -> bool
    ensures { result ≡ rules.begins_command (operand_view operand.now) tokens.now }
{
    match operand {
        Operand::Callee(_) => begins_argument(tokens),
        Operand::Whole(_) => false,
    }
}

/// The postfix at the front, where it doesn't begin the arguments of a command.
fn continues(operand: &Operand, tokens: &[Token], commands: bool) -> Option<Postfix>
    ensures value { result ≡ rules.continues (operand_view operand.now) tokens.now commands }
    ensures there { IsSome result → length (front.behind tokens.now) < length tokens.now }
{
    if commands && begins_command(operand, tokens) {
        None
    } else {
        postfix_at(tokens)
    }
}

/// Whether arguments have what follows `&`.
pub fn has_block(arguments: &Option<Arguments<Tree>>) -> bool
    ensures { result ≡ rules.has_block (given_view arguments.now) }
{
    match arguments {
        Some(arguments) => arguments.block.is_some(),
        None => false,
    }
}

/// A string over its pieces.
#[tactic(auto, using(parser_tree::proofs::Views::views))]
fn text_form(pieces: Vec<Piece<Tree>>) -> TreeForm
    ensures { form_view result ≡ node.text (nodes (pieces_view pieces)) }
{
    TreeForm::Text(pieces)
}

/// A symbol in quotes over its pieces.
#[tactic(auto, using(parser_tree::proofs::Views::views))]
fn symbol_form(pieces: Vec<Piece<Tree>>) -> TreeForm
    ensures { form_view result ≡ node.symbol_text (nodes (pieces_view pieces)) }
{
    TreeForm::SymbolText(pieces)
}

/// An item of a receiver.
#[tactic(auto, using(parser_nodes::proofs::Lists::item_trees))]
fn index_form(receiver: Tree, items: Vec<Item<Tree>>) -> TreeForm
    ensures { form_view result ≡ node.index (view receiver) (items_of (items_view items)) }
{
    TreeForm::Index(receiver, items)
}

/// A call without a block; a name alone may begin a command yet.
fn unblocked(
    alloc: Global,
    callee: Callee,
    arguments: Option<Arguments<Tree>>,
) -> Result<Operand, AllocError>
    ensures { IfOk result (λ o. operand_view o ≡ rules.unblocked (callee_view callee) (given_view arguments)) }
{
    match arguments {
        None => Ok(Operand::Callee(callee)),
        Some(arguments) => {
            let tree = call_tree(alloc, callee, Some(arguments), None)?;
            Ok(Operand::Whole(tree))
        }
    }
}

/// Whether the sign is `::`.
fn is_scope(postfix: Postfix) -> bool
    ensures { result ≡ rules.scoped postfix }
{
    match postfix {
        Postfix::Scope => true,
        Postfix::Dot | Postfix::Safe | Postfix::Index => false,
    }
}

/// A method of a receiver.
fn postfix_callee(
    alloc: Global,
    receiver: Tree,
    name: Bytes,
    postfix: Postfix,
    at: u32,
) -> Result<Callee, AllocError>
    ensures { IfOk result (λ c. callee_view c ≡ rules.postfix_callee (view receiver) name postfix at) }
{
    match postfix {
        Postfix::Safe => {
            let mut parts = Vec::new(alloc);
            parts.push(receiver)?;
            let what = Outside::SafeNavigation;
            Ok(Callee::Outside { what, at, parts })
        }
        Postfix::Scope => {
            let scoped = true;
            Ok(Callee::Method {
                receiver,
                name,
                scoped,
            })
        }
        Postfix::Dot | Postfix::Index => {
            let scoped = false;
            Ok(Callee::Method {
                receiver,
                name,
                scoped,
            })
        }
    }
}

/// What a name behind a receiver is called with where it isn't of ASCII.
fn outside_callee(alloc: Global, receiver: Tree, at: u32) -> Result<Callee, AllocError>
    ensures { IfOk result (λ c. callee_view c ≡ rules.outside_name at (view receiver)) }
{
    let mut parts = Vec::new(alloc);
    parts.push(receiver)?;
    let what = Outside::NonAsciiName;
    Ok(Callee::Outside { what, at, parts })
}

/// The block that stands directly behind a call.
fn with_block<'a, I: Inner>(
    inner: &I,
    alloc: Global,
    names: &mut Names,
    callee: Callee,
    arguments: Option<Arguments<Tree>>,
    tokens: &'a [Token],
    owner: DoOwner,
) -> Read<'a, Operand>
    ensures value { Reads operand_view result names.new
        (rules.with_block (I.inside inner.now) (callee_view callee) (given_view arguments) names.old tokens.now owner) }
    ensures within { IfOk result (λ p. length p.1.now ≤ length tokens.now) }
{
    let Some(style) = block_at(owner, tokens) else {
        return Ok((unblocked(alloc, callee, arguments)?, tokens));
    };
    if has_block(&arguments) {
        return Err(syntax(tokens));
    }
    let (definition, rest) = inner.block(alloc, names, tokens, style)?;
    let tree = call_tree(alloc, callee, arguments, Some(definition))?;
    Ok((Operand::Whole(tree), rest))
}

/// The arguments in parentheses and the block that stand directly behind a name.
#[tactic(auto, unfolding(crate::specs::Operands::suffix))]
fn suffix<'a, I: Inner>(
    inner: &I,
    alloc: Global,
    names: &mut Names,
    callee: Callee,
    tokens: &'a [Token],
    owner: DoOwner,
) -> Read<'a, Operand>
    ensures value { Reads operand_view result names.new
        (rules.suffix (I.inside inner.now) (callee_view callee) names.old tokens.now owner) }
    ensures within { IfOk result (λ p. length p.1.now ≤ length tokens.now) }
{
    if !opens_arguments(tokens) {
        return with_block(inner, alloc, names, callee, None, tokens, owner);
    }
    let (arguments, rest) = call_arguments(inner, alloc, names, skip(tokens))?;
    with_block(inner, alloc, names, callee, Some(arguments), rest, owner)
}

/// A primary of one word.
fn leaf_primary<'a>(alloc: Global, names: &mut Names, tokens: &'a [Token]) -> Read<'a, Tree>
    ensures value { Reads view result names.new (rules.leaf_primary (leaf_of.leaf tokens.now) names.old tokens.now) }
    ensures shorter { Shortens tokens.now result }
{
    match leaf(alloc, tokens)? {
        Some(found) => Ok(found),
        None => Err(syntax(tokens)),
    }
}

/// The string at the front, and those side by side with it.
#[tactic(auto, using(parser_tree::proofs::Views::views))]
fn text<'a, I: Inner>(
    inner: &I,
    alloc: Global,
    names: &mut Names,
    tokens: &'a [Token],
) -> Read<'a, Tree>
    ensures value { Reads view result names.new (rules.text (I.inside inner.now) names.old tokens.now) }
    ensures within { IfOk result (λ p. length p.1.now ≤ length (front.behind tokens.now)) }
{
    let list = Vec::new(alloc);
    let (found, rest) = string(inner, alloc, names, list, tokens)?;
    let (pieces, rest) = strings(inner, alloc, names, found, rest)?;
    let tree = text_form(pieces).into_tree(alloc)?;
    Ok((tree, rest))
}

/// The pieces behind the begin of a symbol in quotes.
#[tactic(auto, using(parser_tree::proofs::Views::views))]
fn quoted_symbol<'a, I: Inner>(
    inner: &I,
    alloc: Global,
    names: &mut Names,
    tokens: &'a [Token],
) -> Read<'a, Tree>
    ensures value { Reads view result names.new (rules.quoted_symbol (I.inside inner.now) names.old tokens.now) }
    ensures within { IfOk result (λ p. length p.1.now ≤ length tokens.now) }
{
    let list = Vec::new(alloc);
    let (pieces, rest) = pieces(inner, alloc, names, list, tokens)?;
    if !is_literal_end(first(rest)) {
        return Err(syntax(rest));
    }
    let tree = symbol_form(pieces).into_tree(alloc)?;
    Ok((tree, skip(rest)))
}

/// Statements behind an opening parenthesis.
fn group<'a, I: Inner>(
    inner: &I,
    alloc: Global,
    names: &mut Names,
    tokens: &'a [Token],
) -> Read<'a, Tree>
    ensures value { Reads view result names.new (rules.group (I.inside inner.now) names.old tokens.now) }
    ensures within { IfOk result (λ p. length p.1.now ≤ length tokens.now) }
{
    let (tree, rest) = inner.statements(alloc, names, tokens)?;
    let rest = expect(rest, Wanted::CloseParenthesis)?;
    Ok((tree, rest))
}

/// The elements behind an opening bracket.
#[tactic(auto, using(parser_nodes::proofs::Lists::item_trees))]
fn array<'a, I: Inner>(
    inner: &I,
    alloc: Global,
    names: &mut Names,
    tokens: &'a [Token],
) -> Read<'a, Tree>
    ensures value { Reads view result names.new (rules.array (I.inside inner.now) names.old tokens.now) }
    ensures within { IfOk result (λ p. length p.1.now ≤ length tokens.now) }
{
    let (items, rest) = elements(inner, alloc, names, tokens, Wanted::CloseBracket)?;
    let tree = array_tree(alloc, items)?;
    Ok((tree, rest))
}

/// The expression behind `defined?` and an opening parenthesis.
fn defined<'a, I: Inner>(
    inner: &I,
    alloc: Global,
    names: &mut Names,
    tokens: &'a [Token],
) -> Read<'a, Tree>
    ensures value { Reads view result names.new (rules.defined (I.inside inner.now) names.old tokens.now) }
    ensures within { IfOk result (λ p. length p.1.now ≤ length tokens.now) }
{
    let (tree, rest) = inner.expression(alloc, names, tokens, Place::Command, DoOwner::Call)?;
    let rest = expect_closing(rest, Wanted::CloseParenthesis)?;
    let tree = defined_tree(alloc, tree)?;
    Ok((tree, rest))
}

/// A primary that is no name.
#[tactic(auto, unfolding(crate::specs::Operands::compound))]
fn compound<'a, I: Inner>(
    inner: &I,
    alloc: Global,
    names: &mut Names,
    start: Primary,
    tokens: &'a [Token],
    owner: DoOwner,
) -> Read<'a, Tree>
    requires { start ≢ Primary.Leaf → length (front.behind tokens.now) < length tokens.now }
    ensures value { Reads view result names.new (rules.compound (I.inside inner.now) start names.old tokens.now owner) }
    ensures shorter { Shortens tokens.now result }
{
    let at = place_at(tokens);
    let behind = skip(tokens);
    match start {
        Primary::Text => text(inner, alloc, names, tokens),
        Primary::QuotedSymbol => quoted_symbol(inner, alloc, names, behind),
        Primary::Group => group(inner, alloc, names, behind),
        Primary::Bracket => array(inner, alloc, names, behind),
        Primary::Brace => hash(inner, alloc, names, behind),
        Primary::Lambda => lambda(inner, alloc, names, behind, at, owner),
        Primary::Defined => defined(inner, alloc, names, skip(behind)),
        Primary::Compound(form) => sectioned(inner, alloc, names, form, behind),
        Primary::Define => define(inner, alloc, names, behind, at),
        Primary::Class => class_form(inner, alloc, names, behind),
        Primary::Module => module_form(inner, alloc, names, behind),
        Primary::Yield => yielded(inner, alloc, names, behind, at),
        Primary::Leaf | Primary::Local | Primary::Name | Primary::OutsideName | Primary::Super =>
            leaf_primary(alloc, names, tokens),
    }
}

/// What the primary at the front begins with; all but a leaf begin with a token.
#[tactic(auto, using(crate::proofs::Turns::primary_there))]
fn start_at(names: &Names, tokens: &[Token]) -> Primary
    ensures value { result ≡ begins.primary_at names.now tokens.now }
    ensures there { result ≢ Primary.Leaf → length (front.behind tokens.now) < length tokens.now }
{
    primary_at(names, tokens)
}

/// A primary; a name that is called has its arguments in parentheses and its block.
#[tactic(auto, unfolding(crate::specs::Operands::primary_by))]
fn primary<'a, I: Inner>(
    inner: &I,
    alloc: Global,
    names: &mut Names,
    tokens: &'a [Token],
    owner: DoOwner,
) -> Read<'a, Operand>
    ensures value { Reads operand_view result names.new (rules.primary (I.inside inner.now) names.old tokens.now owner) }
    ensures shorter { Shortens tokens.now result }
{
    let at = place_at(tokens);
    let behind = skip(tokens);
    match start_at(names, tokens) {
        Primary::Local => {
            let name = Bytes::from_slice(alloc, bytes_at(tokens))?;
            let tree = TreeForm::Local(name).into_tree(alloc)?;
            Ok((Operand::Whole(tree), behind))
        }
        Primary::Name => {
            let identifier = is_identifier(first(tokens));
            let name = Bytes::from_slice(alloc, bytes_at(tokens))?;
            let callee = Callee::Name { name, identifier };
            suffix(inner, alloc, names, callee, behind, owner)
        }
        Primary::OutsideName => {
            let what = Outside::NonAsciiName;
            let parts = Vec::new(alloc);
            let callee = Callee::Outside { what, at, parts };
            suffix(inner, alloc, names, callee, behind, owner)
        }
        Primary::Super => suffix(inner, alloc, names, Callee::Super { at }, behind, owner),
        other => {
            let (tree, rest) = compound(inner, alloc, names, other, tokens, owner)?;
            Ok((Operand::Whole(tree), rest))
        }
    }
}

/// The items in brackets behind a receiver.
#[tactic(auto, using(parser_nodes::proofs::Lists::item_trees))]
fn indexed<'a, I: Inner>(
    inner: &I,
    alloc: Global,
    names: &mut Names,
    receiver: Tree,
    tokens: &'a [Token],
) -> Read<'a, Operand>
    ensures value { Reads operand_view result names.new
        (rules.indexed (I.inside inner.now) (view receiver) names.old tokens.now) }
    ensures shorter { Shortens tokens.now result }
{
    let behind = skip(tokens);
    let (items, rest) = elements(inner, alloc, names, behind, Wanted::CloseBracket)?;
    let tree = index_form(receiver, items).into_tree(alloc)?;
    Ok((Operand::Whole(tree), rest))
}

/// `.(`, which calls the method `call`.
fn called<'a, I: Inner>(
    inner: &I,
    alloc: Global,
    names: &mut Names,
    receiver: Tree,
    postfix: Postfix,
    tokens: &'a [Token],
) -> Read<'a, Operand>
    ensures value { Reads operand_view result names.new
        (rules.called (I.inside inner.now) (view receiver) postfix names.old tokens.now) }
    ensures shorter { Shortens tokens.now result }
{
    let name = Bytes::from_slice(alloc, b"call")?;
    let callee = postfix_callee(alloc, receiver, name, postfix, place_at(tokens))?;
    let (arguments, rest) = call_arguments(inner, alloc, names, skip(skip(tokens)))?;
    let tree = call_tree(alloc, callee, Some(arguments), None)?;
    Ok((Operand::Whole(tree), rest))
}

/// Whether the name at the front, behind a sign, is a constant within its receiver.
fn is_scoped_constant(postfix: Postfix, tokens: &[Token]) -> bool
    ensures { result ≡ rules.is_scoped_constant postfix tokens.now }
{
    is_scope(postfix) && is_constant(first(tokens)) && !opens_arguments(skip(tokens))
}

/// A name of ASCII behind a sign, with what follows it.
fn plain_named<'a, I: Inner>(
    inner: &I,
    alloc: Global,
    names: &mut Names,
    receiver: Tree,
    postfix: Postfix,
    tokens: &'a [Token],
    owner: DoOwner,
) -> Read<'a, Operand>
    ensures value { Reads operand_view result names.new
        (rules.plain_named (I.inside inner.now) (view receiver) postfix names.old tokens.now owner) }
    ensures within { IfOk result (λ p. length p.1.now ≤ length (front.behind (front.behind tokens.now))) }
{
    let behind = skip(tokens);
    let name = Bytes::from_slice(alloc, bytes_at(behind))?;
    if is_scoped_constant(postfix, behind) {
        let tree = TreeForm::ScopedConstant(receiver, name).into_tree(alloc)?;
        return Ok((Operand::Whole(tree), skip(behind)));
    }
    let callee = postfix_callee(alloc, receiver, name, postfix, place_at(tokens))?;
    suffix(inner, alloc, names, callee, skip(behind), owner)
}

/// The name behind a sign, with what follows it.
fn named<'a, I: Inner>(
    inner: &I,
    alloc: Global,
    names: &mut Names,
    receiver: Tree,
    postfix: Postfix,
    tokens: &'a [Token],
    owner: DoOwner,
) -> Read<'a, Operand>
    ensures value { Reads operand_view result names.new
        (rules.named (I.inside inner.now) (view receiver) postfix names.old tokens.now owner) }
    ensures shorter { Shortens tokens.now result }
{
    let behind = skip(tokens);
    if is_outside_name(behind) {
        let callee = outside_callee(alloc, receiver, place_at(behind))?;
        return suffix(inner, alloc, names, callee, skip(behind), owner);
    }
    if !is_name(behind) {
        return Err(syntax(behind));
    }
    plain_named(inner, alloc, names, receiver, postfix, tokens, owner)
}

/// What stands behind `.`, `&.` or `::`.
fn dotted<'a, I: Inner>(
    inner: &I,
    alloc: Global,
    names: &mut Names,
    receiver: Tree,
    postfix: Postfix,
    tokens: &'a [Token],
    owner: DoOwner,
) -> Read<'a, Operand>
    ensures value { Reads operand_view result names.new
        (rules.dotted (I.inside inner.now) (view receiver) postfix names.old tokens.now owner) }
    ensures shorter { Shortens tokens.now result }
{
    if !is_scope(postfix) && is_open_parenthesis(first(skip(tokens))) {
        return called(inner, alloc, names, receiver, postfix, tokens);
    }
    named(inner, alloc, names, receiver, postfix, tokens, owner)
}

/// A postfix behind its receiver; it stands at the front.
#[tactic(auto, unfolding(crate::specs::Operands::postfixed))]
fn postfixed<'a, I: Inner>(
    inner: &I,
    alloc: Global,
    names: &mut Names,
    receiver: Tree,
    postfix: Postfix,
    tokens: &'a [Token],
    owner: DoOwner,
) -> Read<'a, Operand>
    ensures value { Reads operand_view result names.new
        (rules.postfixed (I.inside inner.now) (view receiver) postfix names.old tokens.now owner) }
    ensures shorter { Shortens tokens.now result }
{
    match postfix {
        Postfix::Index => indexed(inner, alloc, names, receiver, tokens),
        Postfix::Dot | Postfix::Safe | Postfix::Scope => {
            dotted(inner, alloc, names, receiver, postfix, tokens, owner)
        }
    }
}

/// The postfixes behind a primary.
#[tactic(auto, using(crate::proofs::Turns::chain_turns))]
pub fn chain_from<'a, I: Inner>(
    inner: &I,
    alloc: Global,
    names: &mut Names,
    operand: Operand,
    tokens: &'a [Token],
    commands: bool,
    owner: DoOwner,
) -> Read<'a, Operand>
    ensures value { Reads operand_view result names.new
        (rules.chain_from (I.inside inner.now) (operand_view operand) names.old tokens.now commands owner) }
    ensures within { IfOk result (λ p. length p.1.now ≤ length tokens.now) }
{
    let mut operand = operand;
    let mut rest = tokens;
    'postfixes: while let Some(postfix) = continues(&operand, rest, commands) {
        let receiver = operand_tree(alloc, operand)?;
        let (next, after) = postfixed(inner, alloc, names, receiver, postfix, rest, owner)?;
        operand = next;
        rest = after;
    }
    Ok((operand, rest))
}

/// A primary with its postfixes.
#[tactic(auto, unfolding(crate::specs::Operands::chain))]
pub fn chain<'a, I: Inner>(
    inner: &I,
    alloc: Global,
    names: &mut Names,
    tokens: &'a [Token],
    commands: bool,
    owner: DoOwner,
) -> Read<'a, Operand>
    ensures value { Reads operand_view result names.new
        (rules.chain (I.inside inner.now) names.old tokens.now commands owner) }
    ensures shorter { Shortens tokens.now result }
{
    let (operand, rest) = primary(inner, alloc, names, tokens, owner)?;
    chain_from(inner, alloc, names, operand, rest, commands, owner)
}

/// A primary with its postfixes, and the operators before it.
#[tactic(auto, unfolding(crate::specs::Operands::operand))]
pub fn operand<'a, I: Inner>(
    inner: &I,
    alloc: Global,
    names: &mut Names,
    tokens: &'a [Token],
    commands: bool,
    owner: DoOwner,
) -> Read<'a, Operand>
    ensures value { Reads operand_view result names.new
        (rules.operand (I.inside inner.now) names.old tokens.now commands owner) }
    ensures shorter { Shortens tokens.now result }
{
    match prefix_at(tokens) {
        Some(sign) => {
            let behind = skip(tokens);
            let (found, rest) = inner.operation(alloc, names, behind, operand_level(sign), owner)?;
            let tree = prefix_tree(alloc, sign, found)?;
            Ok((Operand::Whole(tree), rest))
        }
        None => chain(inner, alloc, names, tokens, commands, owner),
    }
}
