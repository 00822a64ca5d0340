//! `return`, `break` and `next`, with what they leave with, and `yield`.
ghost use Rattle.std.specs.Prelude.{◌≡◌, IfOk};
ghost use Rattle.parser_tree.specs.PartsBy.{item_by, items_by};
ghost use Rattle.ir_core.specs.View.{core_view};
ghost use Rattle.ir_core.specs.CoreForm as form;
ghost use Rattle.lower_table.specs.Lowering as table;
ghost use Rattle.lower_table.specs.Joined.{jump_form};

use crate::lists::{lower_array, lower_items};
use crate::lower::Lower;
use ir_builder::calls::yield_call;
use ir_builder::leaf::{array, nil};
use ir_core::{Core, Local, Term};
use rb_syntax::Item;
use std::alloc::{AllocError, Global};

/// The value of one item: the elements of a splat are an Array.
pub fn lower_single<T: Lower>(
    alloc: Global,
    passed: &[Item<Local>],
    depth: usize,
    item: &Item<Box<T>>,
) -> Result<Core, AllocError>
    ensures { IfOk result (λ c. core_view c ≡
        table.single (table.passes passed.now) depth (item_by T.node item.now)) }
{
    match item {
        Item::Plain(e) => e.lower(alloc, passed, depth),
        Item::Splat(e) => {
            let core = e.lower(alloc, passed, depth)?;
            let mut items = Vec::new(alloc);
            items.push(Item::Splat(core))?;
            array(alloc, items)
        }
    }
}

/// What a jump leaves with: nothing is nil, and several values are an Array.
fn lower_value<T: Lower>(
    alloc: Global,
    passed: &[Item<Local>],
    depth: usize,
    items: &Vec<Item<Box<T>>>,
) -> Result<Core, AllocError>
    ensures { IfOk result (λ c. core_view c ≡
        table.value (table.passes passed.now) depth (items_by T.node items.now.items)) }
{
    match items.as_slice() {
        [] => nil(alloc),
        [item] => lower_single(alloc, passed, depth, item),
        _ => lower_array(alloc, passed, depth, items),
    }
}

/// Which jump.
#[derive(Clone, Copy, Debug, PartialEq, Eq)]
pub enum Jump {
    Return,
    Break,
    Next,
}

/// `return`, `break` and `next`.
pub fn lower_jump<T: Lower>(
    alloc: Global,
    passed: &[Item<Local>],
    depth: usize,
    jump: Jump,
    items: &Vec<Item<Box<T>>>,
) -> Result<Core, AllocError>
    ensures { IfOk result (λ c. core_view c ≡
        jump_form jump (table.value (table.passes passed.now) depth (items_by T.node items.now.items))) }
{
    let value = lower_value(alloc, passed, depth, items)?;
    match jump {
        Jump::Return => Term::Return(value).into_core(alloc),
        Jump::Break => Term::Break(value).into_core(alloc),
        Jump::Next => Term::Next(value).into_core(alloc),
    }
}

/// `yield`
pub fn lower_yield<T: Lower>(
    alloc: Global,
    passed: &[Item<Local>],
    depth: usize,
    items: &Vec<Item<Box<T>>>,
) -> Result<Core, AllocError>
    ensures { IfOk result (λ c. core_view c ≡
        form.yield_form (table.items (table.passes passed.now) depth (items_by T.node items.now.items))) }
{
    let items = lower_items(alloc, passed, depth, items)?;
    yield_call(alloc, items)
}
