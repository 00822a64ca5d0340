//! What `defined?` asks about each form.
ghost use Rattle.std.specs.Prelude.{◌≡◌, IfOk};
ghost use Rattle.rb_syntax.specs.declared.core_form.DefinedKind.TheVariants as kind;
ghost use Rattle.ir_core.specs.View.{core_view};
ghost use Rattle.ir_core.specs.Forms.{asks_of_form};
ghost use Rattle.lower_table.specs.Lowering as table;
ghost use Rattle.parser_tree.specs.PartsBy.{boxed_by, tree_by, trees_by};

use crate::lower::Lower;
use ir_builder::calls::{asks, asks_of};
use ir_core::{Core, Local};
use rb_syntax::{DefinedKind, Item};
use std::alloc::{AllocError, Global};

/// A question about a method that a value has.
pub fn ask_method<T: Lower>(
    alloc: Global,
    passed: &[Item<Local>],
    depth: usize,
    receiver: &Box<T>,
    name: &[u8],
) -> Result<Core, AllocError>
    ensures { IfOk result (λ c. core_view c ≡
        asks_of_form kind.Method name.now (table.core (table.passes passed.now) depth (tree_by T.node receiver.now))) }
{
    let receiver = receiver.lower(alloc, passed, depth)?;
    asks_of(alloc, DefinedKind::Method, name, receiver)
}

/// A question about a call.
pub fn ask_call<T: Lower>(
    alloc: Global,
    passed: &[Item<Local>],
    depth: usize,
    receiver: &Option<Box<T>>,
    name: &[u8],
) -> Result<Core, AllocError>
    ensures { IfOk result (λ c. core_view c ≡
        table.defined_call name.now (table.maybe (table.passes passed.now) depth (boxed_by T.node receiver.now))) }
{
    match receiver {
        None => asks(alloc, DefinedKind::Method, name),
        Some(receiver) => ask_method(alloc, passed, depth, receiver, name),
    }
}

/// A question about a constant of a class or module.
pub fn ask_scoped<T: Lower>(
    alloc: Global,
    passed: &[Item<Local>],
    depth: usize,
    scope: &Box<T>,
    name: &[u8],
) -> Result<Core, AllocError>
    ensures { IfOk result (λ c. core_view c ≡
        asks_of_form kind.Constant name.now (table.core (table.passes passed.now) depth (tree_by T.node scope.now))) }
{
    let scope = scope.lower(alloc, passed, depth)?;
    asks_of(alloc, DefinedKind::Constant, name, scope)
}

/// A question about statements: one is asked about itself.
pub fn ask_statements<T: Lower>(
    alloc: Global,
    passed: &[Item<Local>],
    depth: usize,
    trees: &Vec<Box<T>>,
) -> Result<Core, AllocError>
    ensures { IfOk result (λ c. core_view c ≡
        table.asks_only (table.defined_all (table.passes passed.now) depth (trees_by T.node trees.now.items))) }
{
    match trees.as_slice() {
        [] => asks(alloc, DefinedKind::Expression, b""),
        [only] => only.ask(alloc, passed, depth),
        _ => asks(alloc, DefinedKind::Expression, b""),
    }
}
