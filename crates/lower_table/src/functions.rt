//! Parameters and bodies of methods, blocks and lambdas, and bodies without parameters.
ghost use Rattle.std.specs.Prelude.{◌≡◌, ◌++◌, IfOk, OnOk};
ghost use Rattle.parser_tree.specs.Node as node;
ghost use Rattle.parser_tree.specs.PartsBy.{boxed_by, definition_by, optionals_by, parameter_by, parameters_by, tree_by};
ghost use Rattle.ir_core.specs.View.{core_view, local_of, locals_of, maybe_local, parameters_of};
ghost use Rattle.ir_core.specs.CoreForm as form;
ghost use Rattle.ir_core.specs.Forms as built;
ghost use Rattle.ir_core.specs.Parts as part;
ghost use Rattle.lower_table.specs.Lowering as table;
ghost use Rattle.lower_table.specs.Kept.{assigned_before};
ghost use Rattle.lower_table.specs.Parts as read;

use crate::lists::lower_maybe;
use crate::lower::{Lower, deeper};
use ir_builder::control::after;
use ir_builder::leaf::{local, named, same_local, set_local};
use ir_core::{Body, Core, Local, Parameters, Term};
use parser_tree::{
    Definition, OptionalParameter, Parameter, ParameterList, PlainBody, RestParameter,
};
use rb_base::Bytes;
use rb_syntax::Item;
use std::alloc::{AllocError, Global};

#[tactic(auto, using(crate::proofs::Wholes::wholes))]
fn parameter_local<T: Lower>(
    alloc: Global,
    place: usize,
    parameter: &Parameter<Box<T>>,
) -> Result<Local, AllocError>
    ensures { IfOk result (λ x. local_of x ≡ read.parameter_local place (parameter_by T.node parameter.now)) }
{
    match parameter {
        Parameter::Name(name) => named(alloc, name.as_slice()),
        Parameter::Pattern(_) => Ok(Local::Pattern(place)),
    }
}

/// The parameters from place `first` on.
#[tactic(auto, using(crate::proofs::Turns::list_turns))]
fn parameter_locals<T: Lower>(
    alloc: Global,
    first: usize,
    parameters: &[Parameter<Box<T>>],
) -> Result<Vec<Local>, AllocError>
    ensures { IfOk result (λ v. locals_of v.items ≡
        read.parameter_locals first (parameters_by T.node parameters.now)) }
{
    let mut locals = Vec::new(alloc);
    let mut place = first;
    for parameter in parameters {
        let variable = parameter_local(alloc, place, parameter)?;
        locals.push(variable)?;
        place = deeper(place, 1)?;
    }
    Ok(locals)
}

#[tactic(auto, using(crate::proofs::Turns::list_turns))]
fn optional_locals<T: Lower>(
    alloc: Global,
    parameters: &[OptionalParameter<Box<T>>],
) -> Result<Vec<Local>, AllocError>
    ensures { IfOk result (λ v. locals_of v.items ≡ read.optional_locals (optionals_by T.node parameters.now)) }
{
    let mut locals = Vec::new(alloc);
    for parameter in parameters {
        let variable = named(alloc, parameter.name.as_slice())?;
        locals.push(variable)?;
    }
    Ok(locals)
}

fn rest_of(alloc: Global, rest: &RestParameter) -> Result<Option<Local>, AllocError>
    ensures { IfOk result (λ x. maybe_local x ≡ read.rest_of rest.now) }
{
    match rest {
        RestParameter::Absent => Ok(None),
        RestParameter::Unnamed => Ok(Some(Local::Rest)),
        RestParameter::Named(name) => {
            let variable = named(alloc, name.as_slice())?;
            Ok(Some(variable))
        }
    }
}

fn block_of(alloc: Global, block: &Option<Bytes>) -> Result<Option<Local>, AllocError>
    ensures { IfOk result (λ x. maybe_local x ≡ read.block_of block.now) }
{
    match block {
        None => Ok(None),
        Some(name) => {
            let variable = named(alloc, name.as_slice())?;
            Ok(Some(variable))
        }
    }
}

/// The local variables of these names.
#[tactic(auto, using(crate::proofs::Turns::list_turns))]
fn named_locals(alloc: Global, names: &[Bytes]) -> Result<Vec<Local>, AllocError>
    ensures { IfOk result (λ v. locals_of v.items ≡ table.locals_of names.now) }
{
    let mut locals = Vec::new(alloc);
    for name in names {
        let variable = named(alloc, name.as_slice())?;
        locals.push(variable)?;
    }
    Ok(locals)
}

/// The parameters of a definition; those after the rest are numbered after the required ones.
#[tactic(auto, using(crate::proofs::Counts::counted))]
fn lower_parameters<T: Lower>(
    alloc: Global,
    list: &ParameterList<Box<T>>,
) -> Result<Parameters, AllocError>
    ensures { IfOk result (λ p. parameters_of p ≡
        read.parameters (parameters_by T.node list.now.required.items)
        (optionals_by T.node list.now.optional.items) list.now.rest
        (parameters_by T.node list.now.post.items) list.now.block) }
{
    let required = parameter_locals(alloc, 0, &list.required)?;
    let optional = optional_locals(alloc, &list.optional)?;
    let rest = rest_of(alloc, &list.rest)?;
    let post = parameter_locals(alloc, list.required.len(), &list.post)?;
    let block = block_of(alloc, &list.block)?;
    Ok(Parameters {
        required,
        optional,
        rest,
        post,
        block,
    })
}

/// The default of an optional parameter, assigned.
fn lower_optional<T: Lower>(
    alloc: Global,
    passed: &[Item<Local>],
    parameter: &OptionalParameter<Box<T>>,
) -> Result<Core, AllocError>
    ensures { IfOk result (λ c. core_view c ≡ form.set_local (form.named parameter.now.name)
        (table.core (table.passes passed.now) 0 (tree_by T.node parameter.now.value))) }
{
    let value = parameter.value.lower(alloc, passed, 0)?;
    let variable = named(alloc, parameter.name.as_slice())?;
    set_local(alloc, variable, value)
}

#[tactic(auto, using(ir_core::proofs::Lists::form_turns))]
fn lower_optionals<T: Lower>(
    alloc: Global,
    passed: &[Item<Local>],
    parameters: &Vec<OptionalParameter<Box<T>>>,
) -> Result<Vec<Core>, AllocError>
    ensures { IfOk result (λ v. part.cores v.items ≡
        table.core_all (table.passes passed.now) 0 (optionals_by T.node parameters.now.items)) }
{
    let mut all = Vec::new(alloc);
    for parameter in parameters {
        let core = lower_optional(alloc, passed, parameter)?;
        all.push(core)?;
    }
    Ok(all)
}

/// Puts the assignment of a pattern at the end.
#[tactic(auto, using(crate::proofs::Pushes::pushes))]
fn add_pattern<T: Lower>(
    alloc: Global,
    passed: &[Item<Local>],
    all: &mut Vec<Core>,
    place: usize,
    parameter: &Parameter<Box<T>>,
) -> Result<(), AllocError>
    ensures { OnOk result (part.cores all.new.items ≡ built.append (part.cores all.old.items)
        (table.patterned (table.passes passed.now) place (parameter_by T.node parameter.now))) }
{
    match parameter {
        Parameter::Name(_) => Ok(()),
        Parameter::Pattern(targets) => {
            let value = local(alloc, Local::Pattern(place))?;
            let core = targets.store(alloc, passed, 0, value)?;
            all.push(core)?;
            Ok(())
        }
    }
}

/// The assignments of the patterns among parameters from place `first` on.
#[tactic(auto, using(crate::proofs::Pushes::pushes))]
fn lower_patterns<T: Lower>(
    alloc: Global,
    passed: &[Item<Local>],
    first: usize,
    parameters: &[Parameter<Box<T>>],
) -> Result<Vec<Core>, AllocError>
    ensures { IfOk result (λ v. part.cores v.items ≡
        table.patterns (table.passes passed.now) first (parameters_by T.node parameters.now)) }
{
    let mut all = Vec::new(alloc);
    let mut place = first;
    for parameter in parameters {
        add_pattern(alloc, passed, &mut all, place, parameter)?;
        place = deeper(place, 1)?;
    }
    Ok(all)
}

/// What is done before a body: defaults and patterns are assigned.
#[tactic(auto, using(crate::proofs::Pushes::appends))]
fn assign_parameters<T: Lower>(
    alloc: Global,
    passed: &[Item<Local>],
    list: &ParameterList<Box<T>>,
) -> Result<Vec<Core>, AllocError>
    ensures { IfOk result (λ v. part.cores v.items ≡
        assigned_before (table.passes passed.now) (parameters_by T.node list.now.required.items)
        (optionals_by T.node list.now.optional.items) (parameters_by T.node list.now.post.items)) }
{
    let mut all = lower_optionals(alloc, passed, &list.optional)?;
    let mut required = lower_patterns(alloc, passed, 0, &list.required)?;
    let mut post = lower_patterns(alloc, passed, list.required.len(), &list.post)?;
    required.append(&mut post)?;
    all.append(&mut required)?;
    Ok(all)
}

/// The form of a definition's body.
fn lower_form<T: Lower>(
    alloc: Global,
    passed: &[Item<Local>],
    definition: &Definition<Box<T>>,
) -> Result<Core, AllocError>
    ensures { IfOk result (λ c. core_view c ≡
        built.after (assigned_before (table.passes passed.now)
        (parameters_by T.node definition.now.parameters.required.items)
        (optionals_by T.node definition.now.parameters.optional.items)
        (parameters_by T.node definition.now.parameters.post.items))
        (table.core (table.passes passed.now) 0 (tree_by T.node definition.now.body))) }
{
    let before = assign_parameters(alloc, passed, &definition.parameters)?;
    let body = definition.body.lower(alloc, passed, 0)?;
    after(alloc, before, body)
}

/// The body of a definition with these parameters.
fn body_with<T: Lower>(
    alloc: Global,
    passed: &[Item<Local>],
    parameters: Parameters,
    definition: &Definition<Box<T>>,
) -> Result<Body<Core>, AllocError>
    ensures parameters { IfOk result (λ b. b.parameters ≡ parameters) }
    ensures locals { IfOk result (λ b. locals_of b.locals.items ≡ table.locals_of definition.now.locals) }
    ensures form { IfOk result (λ b. core_view b.form ≡
        built.after (assigned_before (table.passes passed.now)
        (parameters_by T.node definition.now.parameters.required.items)
        (optionals_by T.node definition.now.parameters.optional.items)
        (parameters_by T.node definition.now.parameters.post.items))
        (table.core (table.passes passed.now) 0 (tree_by T.node definition.now.body))) }
{
    let form = lower_form(alloc, passed, definition)?;
    let locals = named_locals(alloc, definition.locals.as_slice())?;
    Ok(Body {
        parameters,
        locals,
        form,
    })
}

/// The body of a block or a lambda.
fn lower_body<T: Lower>(
    alloc: Global,
    passed: &[Item<Local>],
    definition: &Definition<Box<T>>,
) -> Result<Body<Core>, AllocError>
    ensures { IfOk result (λ b. part.body_form b ≡
        table.body_of (table.passes passed.now) (definition_by T.node definition.now)) }
{
    let parameters = lower_parameters(alloc, &definition.parameters)?;
    let body = body_with(alloc, passed, parameters, definition)?;
    Ok(body)
}

/// Parameters of a body that has none.
fn no_parameters(alloc: Global) -> Parameters
    ensures { parameters_of result ≡ form.no_parameters }
{
    Parameters {
        required: Vec::new(alloc),
        optional: Vec::new(alloc),
        rest: None,
        post: Vec::new(alloc),
        block: None,
    }
}

/// The body of a main program, a class or a module.
pub fn lower_plain<T: Lower>(
    alloc: Global,
    body: &PlainBody<Box<T>>,
) -> Result<Body<Core>, AllocError>
    ensures { IfOk result (λ b. part.body_form b ≡ table.program body.now.locals (tree_by T.node body.now.body)) }
{
    let locals = named_locals(alloc, body.locals.as_slice())?;
    let form = body.body.lower(alloc, &[], 0)?;
    Ok(Body {
        parameters: no_parameters(alloc),
        locals,
        form,
    })
}

/// A block by its body.
pub fn function(alloc: Global, body: Body<Core>) -> Result<Core, AllocError>
    ensures { IfOk result (λ c. core_view c ≡ form.function (part.body_form body)) }
{
    Term::Fn(Box::new(alloc, body)?).into_core(alloc)
}

/// The block of a call.
pub fn lower_function<T: Lower>(
    alloc: Global,
    passed: &[Item<Local>],
    definition: &Definition<Box<T>>,
) -> Result<Core, AllocError>
    ensures { IfOk result (λ c. core_view c ≡
        form.function (table.body_of (table.passes passed.now) (definition_by T.node definition.now))) }
{
    let body = lower_body(alloc, passed, definition)?;
    function(alloc, body)
}

/// `->(x) { }`
pub fn lower_lambda<T: Lower>(
    alloc: Global,
    passed: &[Item<Local>],
    definition: &Definition<Box<T>>,
) -> Result<Core, AllocError>
    ensures { IfOk result (λ c. core_view c ≡
        form.lambda (table.body_of (table.passes passed.now) (definition_by T.node definition.now))) }
{
    let body = lower_body(alloc, passed, definition)?;
    Term::Lambda(Box::new(alloc, body)?).into_core(alloc)
}

/// Puts parameters at the end, each an item by itself.
#[tactic(auto, using(crate::proofs::Turns::list_turns))]
fn add_plain(
    alloc: Global,
    items: &mut Vec<Item<Local>>,
    locals: &[Local],
) -> Result<(), AllocError>
    ensures { OnOk result (table.passes items.new.items ≡
        table.passes items.old.items ++ read.plain (locals_of locals.now)) }
{
    for variable in locals {
        let variable = same_local(alloc, variable)?;
        items.push(Item::Plain(variable))?;
    }
    Ok(())
}

#[tactic(auto, using(crate::proofs::Turns::list_turns))]
fn add_rest(
    alloc: Global,
    items: &mut Vec<Item<Local>>,
    rest: &Option<Local>,
) -> Result<(), AllocError>
    ensures { OnOk result (table.passes items.new.items ≡
        table.passes items.old.items ++ read.splats (maybe_local rest.now)) }
{
    match rest {
        None => Ok(()),
        Some(variable) => {
            let variable = same_local(alloc, variable)?;
            items.push(Item::Splat(variable))?;
            Ok(())
        }
    }
}

/// What a `super` without arguments passes in a method with these parameters.
#[tactic(auto, using(crate::proofs::Turns::list_turns))]
fn passed_of(alloc: Global, parameters: &Parameters) -> Result<Vec<Item<Local>>, AllocError>
    ensures { IfOk result (λ v. table.passes v.items ≡ read.passed (parameters_of parameters.now)) }
{
    let mut items = Vec::new(alloc);
    add_plain(alloc, &mut items, &parameters.required)?;
    add_plain(alloc, &mut items, &parameters.optional)?;
    add_rest(alloc, &mut items, &parameters.rest)?;
    add_plain(alloc, &mut items, &parameters.post)?;
    Ok(items)
}

/// A method's body; its own parameters are what a `super` without arguments passes.
fn lower_method<T: Lower>(
    alloc: Global,
    definition: &Definition<Box<T>>,
) -> Result<Body<Core>, AllocError>
    ensures { IfOk result (λ b. part.body_form b ≡ table.body_of (table.passed_by (definition_by T.node definition.now))
        (definition_by T.node definition.now)) }
{
    let parameters = lower_parameters(alloc, &definition.parameters)?;
    let given = passed_of(alloc, &parameters)?;
    let body = body_with(alloc, &given, parameters, definition)?;
    Ok(body)
}

fn define(
    alloc: Global,
    singleton: Option<Core>,
    name: &[u8],
    body: Body<Core>,
) -> Result<Core, AllocError>
    ensures { IfOk result (λ c. core_view c ≡
        table.defined_on (part.boxed singleton) name.now (part.body_form body)) }
{
    let name = Bytes::from_slice(alloc, name)?;
    let body = Box::new(alloc, body)?;
    match singleton {
        None => Term::Def(name, body).into_core(alloc),
        Some(singleton) => Term::DefOn(singleton, name, body).into_core(alloc),
    }
}

/// `def`
pub fn lower_define<T: Lower>(
    alloc: Global,
    passed: &[Item<Local>],
    depth: usize,
    singleton: &Option<Box<T>>,
    name: &[u8],
    definition: &Definition<Box<T>>,
) -> Result<Core, AllocError>
    ensures { IfOk result (λ c. core_view c ≡
        table.core (table.passes passed.now) depth (node.define (boxed_by T.node singleton.now) name.now
        (definition_by T.node definition.now))) }
{
    let singleton = lower_maybe(alloc, passed, depth, singleton)?;
    let body = lower_method(alloc, definition)?;
    define(alloc, singleton, name, body)
}
