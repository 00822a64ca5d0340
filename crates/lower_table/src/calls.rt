//! Calls of methods, and of the method that this one hides.
ghost use Rattle.std.specs.Prelude.{◌≡◌, ◌&&◌, IfOk};
ghost use Rattle.parser_tree.specs.Node as node;
ghost use Rattle.ir_core.specs.View.{core_view};
ghost use Rattle.ir_core.specs.CoreForm as form;
ghost use Rattle.ir_core.specs.Parts as part;
ghost use Rattle.lower_table.specs.Lowering as table;
ghost use Rattle.lower_table.specs.Parts as read;
ghost use Rattle.parser_tree.specs.PartsBy.{arguments_by, block_by, boxed_by};

use crate::functions::lower_function;
use crate::lists::{lower_items, lower_maybe};
use crate::lower::Lower;
use ir_builder::calls::{call, has_block, passed_items, super_call};
use ir_core::{Core, Local, Receiver};
use parser_tree::{Arguments, Definition};
use rb_syntax::Item;
use std::alloc::{AllocError, Global};

fn lower_arguments<T: Lower>(
    alloc: Global,
    passed: &[Item<Local>],
    depth: usize,
    arguments: &Option<Arguments<Box<T>>>,
) -> Result<Vec<Item<Core>>, AllocError>
    ensures { IfOk result (λ v. part.items v.items ≡
        table.call_items (table.passes passed.now) depth (arguments_by T.node arguments.now)) }
{
    match arguments {
        None => Ok(Vec::new(alloc)),
        Some(arguments) => {
            let items = lower_items(alloc, passed, depth, &arguments.items)?;
            Ok(items)
        }
    }
}

/// What follows `&`.
fn lower_passed_block<T: Lower>(
    alloc: Global,
    passed: &[Item<Local>],
    depth: usize,
    arguments: &Option<Arguments<Box<T>>>,
) -> Result<Option<Core>, AllocError>
    ensures { IfOk result (λ o. part.boxed o ≡
        table.call_block (table.passes passed.now) depth (arguments_by T.node arguments.now)) }
{
    match arguments {
        None => Ok(None),
        Some(arguments) => {
            let block = lower_maybe(alloc, passed, depth, &arguments.block)?;
            Ok(block)
        }
    }
}

/// The block that a call has, else what follows `&`.
fn lower_block<T: Lower>(
    alloc: Global,
    passed: &[Item<Local>],
    depth: usize,
    arguments: &Option<Arguments<Box<T>>>,
    block: &Option<Definition<Box<T>>>,
) -> Result<Option<Core>, AllocError>
    ensures { IfOk result (λ o. part.boxed o ≡
        table.block_or (table.passes passed.now) (block_by T.node block.now) (table.call_block
        (table.passes passed.now) depth (arguments_by T.node arguments.now))) }
{
    match block {
        Some(definition) => {
            let function = lower_function(alloc, passed, definition)?;
            Ok(Some(function))
        }
        None => {
            let block = lower_passed_block(alloc, passed, depth, arguments)?;
            Ok(block)
        }
    }
}

/// What a call without receiver is sent to.
fn receiver_alone<T: Lower>(
    arguments: &Option<Arguments<Box<T>>>,
    block: &Option<Definition<Box<T>>>,
) -> Receiver<Core>
    ensures { part.receiver_form result ≡
        table.receiver_of form.absent (arguments_by T.node arguments.now) (block_by T.node block.now) }
{
    match arguments {
        Some(_) => Receiver::OnSelf,
        None => match block {
            Some(_) => Receiver::OnSelf,
            None => Receiver::Bare,
        },
    }
}

fn lower_receiver<T: Lower>(
    alloc: Global,
    passed: &[Item<Local>],
    depth: usize,
    receiver: &Option<Box<T>>,
    arguments: &Option<Arguments<Box<T>>>,
    block: &Option<Definition<Box<T>>>,
) -> Result<Receiver<Core>, AllocError>
    ensures { IfOk result (λ r. part.receiver_form r ≡
        table.receiver_of (table.maybe (table.passes passed.now) depth (boxed_by T.node receiver.now))
        (arguments_by T.node arguments.now) (block_by T.node block.now)) }
{
    match receiver {
        Some(receiver) => {
            let receiver = receiver.lower(alloc, passed, depth)?;
            Ok(Receiver::To(receiver))
        }
        None => Ok(receiver_alone(arguments, block)),
    }
}

/// Whether arguments have no items and nothing follows `&`.
#[tactic(auto, using(crate::proofs::Empty::empties))]
fn passes_nothing<T: Lower>(arguments: &Option<Arguments<Box<T>>>) -> bool
    ensures { result ≡
        (read.is_none (read.items_of (arguments_by T.node arguments.now)) && read.is_none (read.passed_block
        (arguments_by T.node arguments.now))) }
{
    match arguments {
        None => true,
        Some(arguments) => {
            if !arguments.items.is_empty() {
                return false;
            }
            match &arguments.block {
                None => true,
                Some(_) => false,
            }
        }
    }
}

/// Whether a call is `block_given?` alone.
fn is_block_given<T: Lower>(
    name: &[u8],
    receiver: &Option<Box<T>>,
    arguments: &Option<Arguments<Box<T>>>,
    block: &Option<Definition<Box<T>>>,
) -> bool
    ensures { result ≡
        table.is_block_given name.now (boxed_by T.node receiver.now) (arguments_by T.node arguments.now)
        (block_by T.node block.now) }
{
    if name != b"block_given?".as_slice() {
        return false;
    }
    match receiver {
        Some(_) => false,
        None => match block {
            Some(_) => false,
            None => passes_nothing(arguments),
        },
    }
}

/// The call of a method.
pub fn lower_call<T: Lower>(
    alloc: Global,
    passed: &[Item<Local>],
    depth: usize,
    receiver: &Option<Box<T>>,
    name: &[u8],
    arguments: &Option<Arguments<Box<T>>>,
    block: &Option<Definition<Box<T>>>,
) -> Result<Core, AllocError>
    ensures { IfOk result (λ c. core_view c ≡
        table.core (table.passes passed.now) depth (node.call (boxed_by T.node receiver.now) name.now
        (arguments_by T.node arguments.now) (block_by T.node block.now))) }
{
    if is_block_given(name, receiver, arguments, block) {
        return has_block(alloc);
    }
    let receiver = lower_receiver(alloc, passed, depth, receiver, arguments, block)?;
    let items = lower_arguments(alloc, passed, depth, arguments)?;
    let block = lower_block(alloc, passed, depth, arguments, block)?;
    call(alloc, receiver, name, items, block)
}

/// The items of `super`: without arguments and parentheses what the method was given.
fn super_items<T: Lower>(
    alloc: Global,
    passed: &[Item<Local>],
    depth: usize,
    arguments: &Option<Arguments<Box<T>>>,
) -> Result<Vec<Item<Core>>, AllocError>
    ensures { IfOk result (λ v. part.items v.items ≡
        table.super_of (table.passes passed.now) (arguments_by T.node arguments.now) (table.call_items
        (table.passes passed.now) depth (arguments_by T.node arguments.now))) }
{
    match arguments {
        None => passed_items(alloc, passed),
        Some(arguments) => {
            let items = lower_items(alloc, passed, depth, &arguments.items)?;
            Ok(items)
        }
    }
}

/// `super`
pub fn lower_super<T: Lower>(
    alloc: Global,
    passed: &[Item<Local>],
    depth: usize,
    arguments: &Option<Arguments<Box<T>>>,
    block: &Option<Definition<Box<T>>>,
) -> Result<Core, AllocError>
    ensures { IfOk result (λ c. core_view c ≡
        form.super_form (table.super_of (table.passes passed.now) (arguments_by T.node arguments.now)
        (table.call_items (table.passes passed.now) depth (arguments_by T.node arguments.now))) (table.block_or
        (table.passes passed.now) (block_by T.node block.now) (table.call_block (table.passes passed.now) depth
        (arguments_by T.node arguments.now)))) }
{
    let items = super_items(alloc, passed, depth, arguments)?;
    let block = lower_block(alloc, passed, depth, arguments, block)?;
    super_call(alloc, items, block)
}
