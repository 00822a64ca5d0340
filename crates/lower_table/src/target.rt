//! Abbreviated assignments to what has no trees in it: one table of what each target reads and stores.
ghost use Rattle.std.specs.Prelude.{◌≡◌, IfOk};
ghost use Rattle.ir_core.specs.View.{core_view};
ghost use Rattle.lower_table.specs.Targets.{read_form, guarded_form, store_form, operated_form};

use crate::places::attribute_store;
use ir_builder::calls::{asks, asks_about, send_alone, send_one};
use ir_builder::control::{both, either, seq};
use ir_builder::hidden::local_number;
use ir_builder::leaf::{
    constant, global_variable, instance_variable, local, named, scoped_constant, set_constant,
    set_global_variable, set_instance_variable, set_local, set_scoped_constant,
};
use ir_core::Core;
use parser_tree::AssignmentOperator;
use rb_syntax::DefinedKind;
use std::alloc::{AllocError, Global};

/// A target whose trees are done: hidden local `of` holds what stands before `::` or `.`.
#[derive(Clone, Copy)]
pub enum Target<'a> {
    Local(&'a [u8]),
    InstanceVariable(&'a [u8]),
    GlobalVariable(&'a [u8]),
    Constant(&'a [u8]),
    ScopedConstant { of: usize, name: &'a [u8] },
    Attribute { of: usize, name: &'a [u8] },
}

/// What a target holds.
fn read_target<'a>(alloc: Global, target: Target<'a>) -> Result<Core, AllocError>
    ensures { IfOk result (λ c. core_view c ≡ read_form target.entry) }
{
    match target {
        Target::Local(name) => {
            let variable = named(alloc, name)?;
            local(alloc, variable)
        }
        Target::InstanceVariable(name) => instance_variable(alloc, name),
        Target::GlobalVariable(name) => global_variable(alloc, name),
        Target::Constant(name) => constant(alloc, name),
        Target::ScopedConstant { of, name } => {
            let scope = local_number(alloc, of)?;
            scoped_constant(alloc, scope, name)
        }
        Target::Attribute { of, name } => {
            let receiver = local_number(alloc, of)?;
            send_alone(alloc, receiver, name)
        }
    }
}

/// The same, or nil where there is no such constant.
fn read_guarded<'a>(alloc: Global, target: Target<'a>) -> Result<Core, AllocError>
    ensures { IfOk result (λ c. core_view c ≡ guarded_form target.entry) }
{
    match target {
        Target::Local(_)
        | Target::InstanceVariable(_)
        | Target::GlobalVariable(_)
        | Target::Attribute { .. } => read_target(alloc, target),
        Target::Constant(name) => {
            let asked = asks(alloc, DefinedKind::Constant, name)?;
            let read = read_target(alloc, target)?;
            both(alloc, asked, read)
        }
        Target::ScopedConstant { of, name } => {
            let scope = local_number(alloc, of)?;
            let asked = asks_about(alloc, DefinedKind::Constant, name, Some(scope))?;
            let read = read_target(alloc, target)?;
            both(alloc, asked, read)
        }
    }
}

/// The store of a value in a target.
fn store_target<'a>(alloc: Global, target: Target<'a>, value: Core) -> Result<Core, AllocError>
    ensures { IfOk result (λ c. core_view c ≡ store_form target.entry (core_view value)) }
{
    match target {
        Target::Local(name) => {
            let variable = named(alloc, name)?;
            set_local(alloc, variable, value)
        }
        Target::InstanceVariable(name) => set_instance_variable(alloc, name, value),
        Target::GlobalVariable(name) => set_global_variable(alloc, name, value),
        Target::Constant(name) => set_constant(alloc, name, value),
        Target::ScopedConstant { of, name } => {
            let scope = local_number(alloc, of)?;
            set_scoped_constant(alloc, scope, name, value)
        }
        Target::Attribute { of, name } => {
            let stores = attribute_store(alloc, of, name, value)?;
            seq(alloc, stores)
        }
    }
}

/// `target op= value`
pub fn operate_target<'a>(
    alloc: Global,
    target: Target<'a>,
    operator: AssignmentOperator,
    value: Core,
) -> Result<Core, AllocError>
    ensures { IfOk result (λ c. core_view c ≡ operated_form target.entry operator (core_view value)) }
{
    match operator {
        AssignmentOperator::Operation(operator) => {
            let read = read_target(alloc, target)?;
            let value = send_one(alloc, read, operator.name(), value)?;
            store_target(alloc, target, value)
        }
        AssignmentOperator::And => {
            let read = read_target(alloc, target)?;
            let stored = store_target(alloc, target, value)?;
            both(alloc, read, stored)
        }
        AssignmentOperator::Or => {
            let read = read_guarded(alloc, target)?;
            let stored = store_target(alloc, target, value)?;
            either(alloc, read, stored)
        }
    }
}
