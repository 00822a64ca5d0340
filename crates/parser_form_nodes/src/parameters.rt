//! The parameters of methods, blocks and lambdas, and their definitions (ISO/IEC 30170:2012, 11.3.3 and 13.3.2).
ghost use Rattle.std.specs.Prelude.{◌≡◌, take, IfOk, OnOk};
ghost use Rattle.parser_ahead.specs.Names.{locals_from};
ghost use Rattle.parser_tree.specs.Parts.{parameter_node};
ghost use Rattle.parser_tree.specs.View.{view};
ghost use Rattle.parser_form_nodes.specs.Parameters as made;

use parser_ahead::names::Names;
use parser_tokens::word::Word;
use parser_tree::{Definition, OptionalParameter, Parameter, ParameterList, RestParameter, Tree};
use rb_base::{Bytes, List};
use rb_syntax::{Outside, Punctuator};
use std::alloc::{AllocError, Global};

/// A parameter of any kind.
#[derive(Drop)]
pub enum AnyParameter {
    Required(Parameter<Tree>),
    /// A name and its default.
    Optional(Bytes, Tree),
    Rest(RestParameter),
    Block(Bytes),
    /// Outside the language.
    Outside(Tree),
}

/// No parameters. It takes no memory.
pub fn no_parameters(alloc: Global) -> ParameterList<Tree>
    ensures { made.parameters_view result ≡ made.no_parameters }
{
    ParameterList {
        required: Vec::new(alloc),
        optional: Vec::new(alloc),
        rest: RestParameter::Absent,
        post: Vec::new(alloc),
        block: None,
        outside: Vec::new(alloc),
    }
}

fn is_there(rest: &RestParameter) -> bool
    ensures { result ≡ made.is_there rest.now }
{
    match rest {
        RestParameter::Absent => false,
        RestParameter::Unnamed | RestParameter::Named(_) => true,
    }
}

/// Whether an optional or a rest parameter may follow: behind it stand neither a rest parameter nor required ones.
fn takes_optional(list: &ParameterList<Tree>) -> bool
    ensures { result ≡ made.takes_optional (made.parameters_view list.now) }
{
    !is_there(&list.rest) && list.post.is_empty()
}

/// Whether a parameter may follow those of the list: nothing follows the block, and no optional or rest parameter
/// follows a rest parameter or a required one behind it.
pub fn may_follow(list: &ParameterList<Tree>, parameter: &AnyParameter) -> bool
    ensures { result ≡ made.may_follow (made.parameter_view parameter.now) (made.parameters_view list.now) }
{
    if list.block.is_some() {
        return false;
    }
    match parameter {
        AnyParameter::Optional(_, _) | AnyParameter::Rest(_) => takes_optional(list),
        AnyParameter::Required(_) | AnyParameter::Block(_) | AnyParameter::Outside(_) => true,
    }
}

fn put_required(
    list: &mut ParameterList<Tree>,
    parameter: Parameter<Tree>,
) -> Result<(), AllocError>
    ensures { OnOk result (made.parameters_view list.new
        ≡ made.with_required (parameter_node parameter) (made.parameters_view list.old)) }
{
    if list.optional.is_empty() && !is_there(&list.rest) {
        list.required.push(parameter)?;
    } else {
        list.post.push(parameter)?;
    }
    Ok(())
}

/// Puts a parameter at the end. A required one behind an optional or the rest parameter stands behind these.
pub fn put_parameter(
    list: &mut ParameterList<Tree>,
    parameter: AnyParameter,
) -> Result<(), AllocError>
    ensures { OnOk result (made.parameters_view list.new
        ≡ made.put_parameter (made.parameter_view parameter) (made.parameters_view list.old)) }
{
    match parameter {
        AnyParameter::Required(parameter) => put_required(list, parameter)?,
        AnyParameter::Optional(name, value) => {
            list.optional.push(OptionalParameter { name, value })?;
        }
        AnyParameter::Rest(rest) => list.rest = rest,
        AnyParameter::Block(name) => list.block = Some(name),
        AnyParameter::Outside(tree) => list.outside.push(tree)?,
    }
    Ok(())
}

/// Whether there is one required parameter, and none of the others.
fn is_one(list: &ParameterList<Tree>) -> bool
    ensures { result ≡ made.is_one (made.parameters_view list.now) }
{
    list.required.len() == 1
        && list.optional.is_empty()
        && !is_there(&list.rest)
        && list.post.is_empty()
        && list.block.is_none()
}

/// What a comma behind the parameters of a block makes of them: behind one alone it stands for a rest parameter
/// without a name.
pub fn with_comma(list: &mut ParameterList<Tree>)
    ensures { made.parameters_view list.new ≡ made.with_comma (made.parameters_view list.old) }
{
    if is_one(list) {
        list.rest = RestParameter::Unnamed;
    }
}

/// Whether a word begins a parameter.
pub fn begins_parameter(word: Word) -> bool
    ensures { result ≡ made.begins_parameter word }
{
    match word {
        Word::Identifier | Word::Label | Word::Other(Outside::NonAsciiName) => true,
        Word::Mark(
            Punctuator::Star
            | Punctuator::StarStar
            | Punctuator::Ampersand
            | Punctuator::OpenParenthesis,
        ) => true,
        _ => false,
    }
}

/// The definition of a block, a lambda or a method, whose opening word stands at `at`. Its own names begin at `mark`;
/// they are its locals, but for the parameters, and are forgotten.
pub fn definition(
    alloc: Global,
    names: &mut Names,
    mark: usize,
    parameters: ParameterList<Tree>,
    body: Tree,
    at: u32,
) -> Result<Definition<Tree>, AllocError>
    ensures whole { IfOk result (λ d. made.block_view d
        ≡ made.block_of at (made.parameters_view parameters) (locals_from mark names.old) (view body)) }
    ensures names { OnOk result (names.new ≡ take mark names.old) }
{
    let locals: List<Bytes> = names.locals_from(alloc, mark)?;
    names.forget_from(mark);
    Ok(Definition {
        parameters,
        locals,
        body,
        at,
    })
}
