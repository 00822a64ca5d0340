//! Whether the names of parameters differ.
ghost use Rattle.std.specs.Prelude.{◌≡◌, ◌++◌, ◌∷◌, [], IfOk, OnOk};
ghost use Rattle.parser_tree.specs.PartsBy.{optionals_by, parameter_by, parameters_by};
ghost use Rattle.parser_checks.specs.Doubled as doubled;

use crate::placed::Placed;
use parser_tree::{OptionalParameter, Parameter, ParameterList, RestParameter};
use rb_base::{Bytes, List};
use std::alloc::{AllocError, Global};
use text_set::TextSet;

type Collected = Result<(), AllocError>;

/// Puts a name after others.
pub fn put_name(name: &[u8], alloc: Global, names: &mut List<Bytes>) -> Collected
    ensures { OnOk result (names.new ≡ names.old ++ name.now ∷ []) }
{
    names.push(Bytes::from_slice(alloc, name)?)?;
    Ok(())
}

fn parameter_names<T: Placed>(
    parameter: &Parameter<Box<T>>,
    alloc: Global,
    names: &mut List<Bytes>,
) -> Collected
    ensures { OnOk result (names.new ≡ names.old ++ doubled.bound (parameter_by T.node parameter.now)) }
{
    match parameter {
        Parameter::Name(name) => put_name(name.as_slice(), alloc, names),
        Parameter::Pattern(tree) => tree.bound_names(alloc, names),
    }
}

#[tactic(auto, using(crate::proofs::Names::name_laws))]
fn required_names<T: Placed>(
    parameters: &Vec<Parameter<Box<T>>>,
    alloc: Global,
    names: &mut List<Bytes>,
) -> Collected
    ensures { OnOk result (names.new ≡ names.old ++ doubled.all_bound (parameters_by T.node parameters.now.items)) }
{
    for parameter in parameters {
        parameter_names(parameter, alloc, names)?;
    }
    Ok(())
}

#[tactic(auto, using(crate::proofs::Names::name_laws))]
fn optional_names<T: Placed>(
    parameters: &Vec<OptionalParameter<Box<T>>>,
    alloc: Global,
    names: &mut List<Bytes>,
) -> Collected
    ensures { OnOk result (names.new ≡ names.old ++ doubled.all_bound (optionals_by T.node parameters.now.items)) }
{
    for parameter in parameters {
        put_name(parameter.name.as_slice(), alloc, names)?;
    }
    Ok(())
}

#[tactic(auto, using(crate::proofs::Names::name_laws))]
fn rest_name(rest: &RestParameter, alloc: Global, names: &mut List<Bytes>) -> Collected
    ensures { OnOk result (names.new ≡ names.old ++ doubled.rest_bound rest.now) }
{
    match rest {
        RestParameter::Named(name) => put_name(name.as_slice(), alloc, names),
        RestParameter::Absent | RestParameter::Unnamed => Ok(()),
    }
}

#[tactic(auto, using(crate::proofs::Names::name_laws))]
fn block_name(block: &Option<Bytes>, alloc: Global, names: &mut List<Bytes>) -> Collected
    ensures { OnOk result (names.new ≡ names.old ++ doubled.block_bound block.now) }
{
    match block {
        Some(name) => put_name(name.as_slice(), alloc, names),
        None => Ok(()),
    }
}

/// The names of parameters in the order of the text.
#[tactic(auto, using(crate::proofs::Names::name_laws))]
fn names_of<T: Placed>(
    alloc: Global,
    list: &ParameterList<Box<T>>,
) -> Result<List<Bytes>, AllocError>
    ensures { IfOk result (λ names. names ≡ doubled.names_by T.node list.now) }
{
    let mut names: List<Bytes> = List::new(alloc);
    required_names(&list.required, alloc, &mut names)?;
    optional_names(&list.optional, alloc, &mut names)?;
    rest_name(&list.rest, alloc, &mut names)?;
    required_names(&list.post, alloc, &mut names)?;
    block_name(&list.block, alloc, &mut names)?;
    Ok(names)
}

/// Whether a name begins with `_`.
fn begins_low(name: &[u8]) -> bool
    ensures { result ≡ doubled.begins_low name.now }
{
    match name.get(0) {
        Some(byte) => *byte == b'_',
        None => false,
    }
}

/// Whether no name stands twice; those that begin with `_` may.
fn are_distinct(alloc: Global, names: &[Bytes]) -> Result<bool, AllocError>
    ensures { IfOk result (λ b. b ≡ doubled.are_distinct [] names.now) }
{
    let mut seen = TextSet::new(alloc);
    for name in names {
        let text = name.as_slice();
        if !begins_low(text) {
            if !seen.add(text)? {
                return Ok(false);
            }
        }
    }
    Ok(true)
}

/// Whether no two parameters have one name.
pub fn parameters_differ<T: Placed>(
    alloc: Global,
    list: &ParameterList<Box<T>>,
) -> Result<bool, AllocError>
    ensures { IfOk result (λ b. b ≡ doubled.are_distinct [] (doubled.names_by T.node list.now)) }
{
    let names = names_of(alloc, list)?;
    are_distinct(alloc, names.as_slice())
}
