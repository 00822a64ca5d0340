//! Parameters.
ghost use Rattle.std.specs.Prelude.{◌≡◌, ◌<◌, ◌≤◌, if◌then◌else◌, length, IfOk, IsTrue};
ghost use Rattle.parser_tree.specs.Node.{none, outside};
ghost use Rattle.parser_tree.specs.View.{form_view};
ghost use Rattle.parser_tokens.specs.Tokens as front;
ghost use Rattle.parser_tokens.specs.Reads.{Gives};
ghost use Rattle.parser_tokens.specs.Starts as starts;
ghost use Rattle.parser_form_nodes.specs.Parameters.{parameter_view, parameters_view};
ghost use Rattle.parser_forms.specs.Reading.{Reads, Shortens};
ghost use Rattle.parser_forms.specs.Parameters as rules;

use crate::{Inner, Read};
use parser_ahead::groups::TargetUse;
use parser_ahead::names::Names;
use parser_ahead::primary::{DoOwner, is_comma};
use parser_form_nodes::parameters::{
    AnyParameter, begins_parameter, may_follow, no_parameters, put_parameter, with_comma,
};
use parser_form_nodes::targets::Targets;
use parser_nodes::nodes::outside_tree;
use parser_tokens::expect::{Wanted, expect, expect_closing};
use parser_tokens::failure::{Failure, syntax};
use parser_tokens::starts::begins_value;
use parser_tokens::tokens::{bytes_at, first, place_at, skip, skip_if};
use parser_tokens::word::Word;
use parser_tree::{Parameter, ParameterList, RestParameter, Tree, TreeForm};
use rb_base::Bytes;
use rb_syntax::{Outside, Punctuator, Token};
use std::alloc::{AllocError, Global};

/// Whether a word is an opening parenthesis.
pub fn is_open_parenthesis(word: Word) -> bool
    ensures { result ≡ starts.is_open_parenthesis word }
{
    matches!(word, Word::Mark(Punctuator::OpenParenthesis))
}

/// Whether a word is a plain name.
fn is_identifier(word: Word) -> bool
    ensures { result ≡ rules.is_identifier word }
{
    matches!(word, Word::Identifier)
}

/// Whether `=` stands at the front.
pub fn is_assign(tokens: &[Token]) -> bool
    ensures value { result ≡ rules.is_assign (front.first tokens.now) }
    ensures there { IsTrue result → length (front.behind tokens.now) < length tokens.now }
{
    matches!(first(tokens), Word::Mark(Punctuator::Assign))
}

fn is_open_bar(word: Word) -> bool
    ensures { result ≡ rules.is_open_bar word }
{
    matches!(word, Word::Mark(Punctuator::OpenBar))
}

fn is_semicolon(word: Word) -> bool
    ensures { result ≡ rules.is_semicolon word }
{
    matches!(word, Word::Semicolon)
}

/// A construct outside the language, without parts.
#[tactic(auto, using(parser_tree::proofs::Views::views))]
fn outside_form(alloc: Global, what: Outside, at: u32) -> TreeForm
    ensures { form_view result ≡ outside what at none }
{
    let parts = Vec::new(alloc);
    TreeForm::Outside { what, at, parts }
}

/// A parameter outside the language.
fn outside_parameter(alloc: Global, what: Outside, at: u32) -> Result<AnyParameter, AllocError>
    ensures { IfOk result (λ p. parameter_view p ≡ rules.outside_alone_parameter what at) }
{
    let tree = outside_form(alloc, what, at).into_tree(alloc)?;
    Ok(AnyParameter::Outside(tree))
}

/// A parameter with a mark and a name.
fn marked_name<'a>(
    alloc: Global,
    names: &mut Names,
    mark: Punctuator,
    tokens: &'a [Token],
) -> Read<'a, AnyParameter>
    ensures value { Reads parameter_view result names.new (rules.marked_name mark names.old tokens.now) }
    ensures within { IfOk result (λ p. length p.1.now ≤ length (front.behind tokens.now)) }
{
    let behind = skip(tokens);
    let rest = skip(behind);
    let name = bytes_at(behind);
    names.declare(alloc, name, true)?;
    match mark {
        Punctuator::Star => {
            let name = Bytes::from_slice(alloc, name)?;
            Ok((AnyParameter::Rest(RestParameter::Named(name)), rest))
        }
        Punctuator::Ampersand => {
            let name = Bytes::from_slice(alloc, name)?;
            Ok((AnyParameter::Block(name), rest))
        }
        Punctuator::StarStar => {
            let what = Outside::DoubleSplat;
            Ok((outside_parameter(alloc, what, place_at(tokens))?, rest))
        }
        _ => Err(syntax(tokens)),
    }
}

/// A parameter with a mark alone.
fn marked_alone<'a>(
    alloc: Global,
    names: &mut Names,
    mark: Punctuator,
    tokens: &'a [Token],
) -> Read<'a, AnyParameter>
    ensures value { Reads parameter_view result names.new (rules.marked_alone mark names.old tokens.now) }
    ensures within { IfOk result (λ p. length p.1.now ≤ length (front.behind tokens.now)) }
{
    match mark {
        Punctuator::Star => Ok((AnyParameter::Rest(RestParameter::Unnamed), skip(tokens))),
        Punctuator::StarStar => {
            let what = Outside::DoubleSplat;
            Ok((
                outside_parameter(alloc, what, place_at(tokens))?,
                skip(tokens),
            ))
        }
        _ => Err(syntax(tokens)),
    }
}

/// A parameter with a mark.
fn marked_parameter<'a>(
    alloc: Global,
    names: &mut Names,
    mark: Punctuator,
    tokens: &'a [Token],
) -> Read<'a, AnyParameter>
    ensures value { Reads parameter_view result names.new (rules.mark_at mark names.old tokens.now) }
    ensures within { IfOk result (λ p. length p.1.now ≤ length (front.behind tokens.now)) }
{
    if is_identifier(first(skip(tokens))) {
        marked_name(alloc, names, mark, tokens)
    } else {
        marked_alone(alloc, names, mark, tokens)
    }
}

/// A name, with a default or none.
fn named_parameter<'a, I: Inner>(
    inner: &I,
    alloc: Global,
    names: &mut Names,
    tokens: &'a [Token],
) -> Read<'a, AnyParameter>
    ensures value { Reads parameter_view result names.new (rules.named (I.inside inner.now) names.old tokens.now) }
    ensures within { IfOk result (λ p. length p.1.now ≤ length (front.behind tokens.now)) }
{
    let behind = skip(tokens);
    let name = Bytes::from_slice(alloc, bytes_at(tokens))?;
    names.declare(alloc, bytes_at(tokens), true)?;
    if !is_assign(behind) {
        return Ok((AnyParameter::Required(Parameter::Name(name)), behind));
    }
    let (value, rest) = inner.argument(alloc, names, skip(behind), DoOwner::Call)?;
    Ok((AnyParameter::Optional(name, value), rest))
}

/// A label, with a default or none.
fn keyword_parameter<'a, I: Inner>(
    inner: &I,
    alloc: Global,
    names: &mut Names,
    tokens: &'a [Token],
) -> Read<'a, AnyParameter>
    ensures value { Reads parameter_view result names.new (rules.keyword (I.inside inner.now) names.old tokens.now) }
    ensures within { IfOk result (λ p. length p.1.now ≤ length (front.behind tokens.now)) }
{
    let at = place_at(tokens);
    let behind = skip(tokens);
    let what = Outside::KeywordParameter;
    names.declare(alloc, bytes_at(tokens), true)?;
    if !begins_value(first(behind)) {
        return Ok((outside_parameter(alloc, what, at)?, behind));
    }
    let (value, rest) = inner.argument(alloc, names, behind, DoOwner::Call)?;
    let tree = outside_tree(alloc, what, at, value)?;
    Ok((AnyParameter::Outside(tree), rest))
}

/// A pattern in parentheses.
#[tactic(auto, using(parser_tree::proofs::Views::views))]
fn pattern<'a, I: Inner>(
    inner: &I,
    alloc: Global,
    names: &mut Names,
    tokens: &'a [Token],
) -> Read<'a, AnyParameter>
    ensures value { Reads parameter_view result names.new (rules.pattern (I.inside inner.now) names.old tokens.now) }
    ensures within { IfOk result (λ p. length p.1.now ≤ length (front.behind tokens.now)) }
{
    let none = Targets::new(alloc);
    let behind = skip(tokens);
    let (group, rest) = inner.targets(alloc, names, none, behind, TargetUse::Pattern)?;
    if !group.several {
        return Err(syntax(rest));
    }
    let rest = expect_closing(rest, Wanted::CloseParenthesis)?;
    let tree = TreeForm::Targets(group.list).into_tree(alloc)?;
    let pattern = Parameter::Pattern(tree);
    Ok((AnyParameter::Required(pattern), rest))
}

/// A parameter.
#[tactic(auto, unfolding(crate::specs::Parameters::parameter_at))]
fn parameter<'a, I: Inner>(
    inner: &I,
    alloc: Global,
    names: &mut Names,
    tokens: &'a [Token],
) -> Read<'a, AnyParameter>
    ensures value { Reads parameter_view result names.new (rules.parameter (I.inside inner.now) names.old tokens.now) }
    ensures shorter { Shortens tokens.now result }
{
    match first(tokens) {
        Word::Identifier => named_parameter(inner, alloc, names, tokens),
        Word::Label => keyword_parameter(inner, alloc, names, tokens),
        Word::Mark(Punctuator::OpenParenthesis) => pattern(inner, alloc, names, tokens),
        Word::Mark(mark) => marked_parameter(alloc, names, mark, tokens),
        Word::Other(what) => {
            let at = place_at(tokens);
            Ok((outside_parameter(alloc, what, at)?, skip(tokens)))
        }
        _ => Err(syntax(tokens)),
    }
}

/// Parameters with commas between them, and whether a comma stands behind the last.
#[tactic(auto, using(crate::proofs::Turns::parameter_turns))]
fn parameters<'a, I: Inner>(
    inner: &I,
    alloc: Global,
    names: &mut Names,
    tokens: &'a [Token],
) -> Read<'a, (ParameterList<Tree>, bool)>
    ensures value { Reads rules.list_view result names.new (rules.parameters (I.inside inner.now) names.old tokens.now) }
    ensures within { IfOk result (λ p. length p.1.now ≤ length tokens.now) }
{
    let mut list = no_parameters(alloc);
    let mut rest = tokens;
    let mut more = true;
    let mut comma = false;
    'parameters: while more && begins_parameter(first(rest)) {
        let (parameter, after) = parameter(inner, alloc, names, rest)?;
        if !may_follow(&list, &parameter) {
            return Err(syntax(rest));
        }
        put_parameter(&mut list, parameter)?;
        more = is_comma(after);
        comma = more;
        rest = skip_if(more, after);
    }
    Ok(((list, comma), rest))
}

/// The variables of a block or a lambda alone, behind a semicolon.
#[tactic(auto, using(crate::proofs::Turns::local_turns))]
fn block_locals<'a>(
    alloc: Global,
    names: &mut Names,
    tokens: &'a [Token],
) -> Result<&'a [Token], Failure>
    ensures value { Gives (λ rest. (names.new, rest.now)) result (rules.block_locals names.old tokens.now) }
    ensures within { IfOk result (λ rest. length rest.now ≤ length tokens.now) }
{
    let mut rest = tokens;
    let mut more = is_semicolon(first(rest));
    'names: while more {
        let behind = skip(rest);
        if !is_identifier(first(behind)) {
            return Err(syntax(behind));
        }
        names.declare(alloc, bytes_at(behind), false)?;
        rest = skip(behind);
        more = is_comma(rest);
    }
    Ok(rest)
}

/// What a comma behind the parameters of a block makes of them.
fn comma_rest(list: ParameterList<Tree>, comma: bool) -> ParameterList<Tree>
    ensures { parameters_view result ≡ rules.comma_rest (parameters_view list, comma) }
{
    let mut list = list;
    if comma {
        with_comma(&mut list);
    }
    list
}

/// The parameters between bars, the first of which stands at the front.
fn barred<'a, I: Inner>(
    inner: &I,
    alloc: Global,
    names: &mut Names,
    tokens: &'a [Token],
) -> Read<'a, ParameterList<Tree>>
    ensures value { Reads parameters_view result names.new (rules.barred (I.inside inner.now) names.old tokens.now) }
    ensures within { IfOk result (λ p. length p.1.now ≤ length tokens.now) }
{
    let (found, rest) = parameters(inner, alloc, names, skip(tokens))?;
    let (list, comma) = found;
    let rest = block_locals(alloc, names, rest)?;
    let rest = expect(rest, Wanted::CloseBar)?;
    Ok((comma_rest(list, comma), rest))
}

/// The parameters between bars, or none.
pub fn block_parameters<'a, I: Inner>(
    inner: &I,
    alloc: Global,
    names: &mut Names,
    tokens: &'a [Token],
) -> Read<'a, ParameterList<Tree>>
    ensures value { Reads parameters_view result names.new
        (rules.block_parameters (I.inside inner.now) names.old tokens.now) }
    ensures within { IfOk result (λ p. length p.1.now ≤ length tokens.now) }
{
    if is_open_bar(first(tokens)) {
        barred(inner, alloc, names, tokens)
    } else {
        Ok((no_parameters(alloc), tokens))
    }
}

/// Parameters without a comma behind the last.
fn bare_parameters<'a, I: Inner>(
    inner: &I,
    alloc: Global,
    names: &mut Names,
    tokens: &'a [Token],
) -> Read<'a, ParameterList<Tree>>
    ensures value { Reads parameters_view result names.new
        (rules.bare_parameters (I.inside inner.now) names.old tokens.now) }
    ensures within { IfOk result (λ p. length p.1.now ≤ length tokens.now) }
{
    let (found, rest) = parameters(inner, alloc, names, tokens)?;
    let (list, comma) = found;
    if comma {
        return Err(syntax(rest));
    }
    Ok((list, rest))
}

/// The parameters of a method: in parentheses, or alone.
#[tactic(auto, unfolding(crate::specs::Parameters::open_parameters))]
pub fn open_parameters<'a, I: Inner>(
    inner: &I,
    alloc: Global,
    names: &mut Names,
    tokens: &'a [Token],
) -> Read<'a, ParameterList<Tree>>
    ensures value { Reads parameters_view result names.new
        (rules.open_parameters (I.inside inner.now) names.old tokens.now) }
    ensures within { IfOk result (λ p. length p.1.now ≤ length tokens.now) }
{
    if !is_open_parenthesis(first(tokens)) {
        return bare_parameters(inner, alloc, names, tokens);
    }
    let (list, rest) = bare_parameters(inner, alloc, names, skip(tokens))?;
    Ok((list, expect_closing(rest, Wanted::CloseParenthesis)?))
}

/// The parameters of a lambda: in parentheses, maybe with variables of its own behind a semicolon, or alone.
#[tactic(auto, unfolding(crate::specs::Parameters::lambda_parameters))]
pub fn lambda_parameters<'a, I: Inner>(
    inner: &I,
    alloc: Global,
    names: &mut Names,
    tokens: &'a [Token],
) -> Read<'a, ParameterList<Tree>>
    ensures value { Reads parameters_view result names.new
        (rules.lambda_parameters (I.inside inner.now) names.old tokens.now) }
    ensures within { IfOk result (λ p. length p.1.now ≤ length tokens.now) }
{
    if !is_open_parenthesis(first(tokens)) {
        return bare_parameters(inner, alloc, names, tokens);
    }
    let (list, rest) = bare_parameters(inner, alloc, names, skip(tokens))?;
    let rest = block_locals(alloc, names, rest)?;
    Ok((list, expect_closing(rest, Wanted::CloseParenthesis)?))
}
