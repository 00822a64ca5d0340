//! Abbreviated assignments: what a target holds is read once, and the value is stored once.
ghost use Rattle.std.specs.Prelude.{◌≡◌, ◌+◌, IfOk};
ghost use Rattle.parser_tree.specs.Node as node;
ghost use Rattle.ir_core.specs.View.{core_view};
ghost use Rattle.ir_core.specs.CoreForm as form;
ghost use Rattle.lower_table.specs.Lowering as table;
ghost use Rattle.parser_tree.specs.PartsBy.{boxed_by, items_by, tree_by};

use crate::lower::{Lower, deeper};
use crate::places::{after_kept, index_call, index_store, keep_index};
use crate::target::{Target, operate_target};
use ir_builder::calls::send_one;
use ir_builder::control::{both, either, seq};
use ir_core::{Core, Local};
use parser_tree::AssignmentOperator;
use rb_syntax::Item;
use std::alloc::{AllocError, Global};

/// `e::C op= v`
pub fn operate_scoped<T: Lower>(
    alloc: Global,
    passed: &[Item<Local>],
    depth: usize,
    scope: &Box<T>,
    name: &[u8],
    operator: AssignmentOperator,
    value: Core,
) -> Result<Core, AllocError>
    ensures { IfOk result (λ c. core_view c ≡
        table.scoped_operated depth (table.core (table.passes passed.now) (depth + 1) (tree_by T.node scope.now)) name.now operator
        (core_view value)) }
{
    let inner = deeper(depth, 1)?;
    let scope = scope.lower(alloc, passed, inner)?;
    let target = Target::ScopedConstant { of: depth, name };
    let operated = operate_target(alloc, target, operator, value)?;
    let mut rest = Vec::new(alloc);
    rest.push(operated)?;
    after_kept(alloc, depth, scope, rest)
}

/// `o.x op= v`
pub fn operate_attribute<T: Lower>(
    alloc: Global,
    passed: &[Item<Local>],
    depth: usize,
    receiver: &Option<Box<T>>,
    name: &[u8],
    operator: AssignmentOperator,
    value: Core,
) -> Result<Core, AllocError>
    ensures { IfOk result (λ c. core_view c ≡
        table.attribute_operated depth name.now (table.maybe (table.passes passed.now) (depth + 2)
        (boxed_by T.node receiver.now)) operator (core_view value)) }
{
    match receiver {
        None => Ok(value),
        Some(receiver) => {
            let inner = deeper(depth, 2)?;
            let receiver = receiver.lower(alloc, passed, inner)?;
            let target = Target::Attribute { of: depth, name };
            let operated = operate_target(alloc, target, operator, value)?;
            let mut rest = Vec::new(alloc);
            rest.push(operated)?;
            after_kept(alloc, depth, receiver, rest)
        }
    }
}

fn set_index<T: Lower>(
    alloc: Global,
    depth: usize,
    items: &Vec<Item<Box<T>>>,
    value: Core,
) -> Result<Core, AllocError>
    ensures { IfOk result (λ c. core_view c ≡
        form.seq (table.index_store depth (items_by T.node items.now.items) (core_view value))) }
{
    let stores = index_store(alloc, depth, items, value)?;
    seq(alloc, stores)
}

fn operated_index<T: Lower>(
    alloc: Global,
    depth: usize,
    items: &Vec<Item<Box<T>>>,
    operator: AssignmentOperator,
    value: Core,
) -> Result<Core, AllocError>
    ensures { IfOk result (λ c. core_view c ≡
        table.operated operator (table.index_call depth (items_by T.node items.now.items)) (table.index_call depth
        (items_by T.node items.now.items)) (λ f. form.seq (table.index_store depth
        (items_by T.node items.now.items) f)) (core_view value)) }
{
    let read = index_call(alloc, depth, items)?;
    match operator {
        AssignmentOperator::Operation(operator) => {
            let value = send_one(alloc, read, operator.name(), value)?;
            set_index(alloc, depth, items, value)
        }
        AssignmentOperator::And => {
            let stored = set_index(alloc, depth, items, value)?;
            both(alloc, read, stored)
        }
        AssignmentOperator::Or => {
            let stored = set_index(alloc, depth, items, value)?;
            either(alloc, read, stored)
        }
    }
}

/// `a[i] op= v`
#[tactic(auto, using(crate::proofs::Pushes::appends))]
pub fn operate_index<T: Lower>(
    alloc: Global,
    passed: &[Item<Local>],
    depth: usize,
    receiver: &Box<T>,
    items: &Vec<Item<Box<T>>>,
    operator: AssignmentOperator,
    value: Core,
) -> Result<Core, AllocError>
    ensures { IfOk result (λ c. core_view c ≡
        table.operate (table.passes passed.now) depth (node.index (tree_by T.node receiver.now)
        (items_by T.node items.now.items)) operator (core_view value)) }
{
    let mut statements = keep_index(alloc, passed, depth, receiver, items)?;
    let operated = operated_index(alloc, depth, items, operator, value)?;
    statements.push(operated)?;
    seq(alloc, statements)
}

/// `x op= v`
pub fn lower_operated<T: Lower>(
    alloc: Global,
    passed: &[Item<Local>],
    depth: usize,
    target: &Box<T>,
    operator: AssignmentOperator,
    value: &Box<T>,
) -> Result<Core, AllocError>
    ensures { IfOk result (λ c. core_view c ≡
        table.core (table.passes passed.now) depth (node.operator_assign (tree_by T.node target.now) operator
        (tree_by T.node value.now))) }
{
    let inner = target.past_operated(depth)?;
    let value = value.lower(alloc, passed, inner)?;
    target.operate(alloc, passed, depth, operator, value)
}
