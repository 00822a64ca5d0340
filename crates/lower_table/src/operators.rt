//! Operators, and other forms of two trees.
ghost use Rattle.std.specs.Prelude.{◌≡◌, IfOk};
ghost use Rattle.parser_tree.specs.Node as node;
ghost use Rattle.ir_core.specs.View.{core_view};
ghost use Rattle.lower_table.specs.Lowering as table;
ghost use Rattle.lower_table.specs.Joined.{joined_form};
ghost use Rattle.parser_tree.specs.PartsBy.{items_by, tree_by};

use crate::lists::lower_items;
use crate::lower::Lower;
use ir_builder::calls::{send, send_alone, send_one};
use ir_builder::control::{both, either, rescued};
use ir_builder::leaf::scoped_constant;
use ir_core::{Core, Local, Term};
use parser_tree::{BinaryOperator, UnaryOperator};
use rb_syntax::Item;
use std::alloc::{AllocError, Global};

/// `!e`
pub fn lower_not<T: Lower>(
    alloc: Global,
    passed: &[Item<Local>],
    depth: usize,
    operand: &Box<T>,
) -> Result<Core, AllocError>
    ensures { IfOk result (λ c. core_view c ≡
        table.core (table.passes passed.now) depth (node.not_node (tree_by T.node operand.now))) }
{
    let operand = operand.lower(alloc, passed, depth)?;
    send_alone(alloc, operand, b"!")
}

/// `-e` and its kin.
pub fn lower_unary<T: Lower>(
    alloc: Global,
    passed: &[Item<Local>],
    depth: usize,
    operator: UnaryOperator,
    operand: &Box<T>,
) -> Result<Core, AllocError>
    ensures { IfOk result (λ c. core_view c ≡
        table.core (table.passes passed.now) depth (node.unary operator (tree_by T.node operand.now))) }
{
    let operand = operand.lower(alloc, passed, depth)?;
    send_alone(alloc, operand, operator.name())
}

/// `a op b`
pub fn lower_operation<T: Lower>(
    alloc: Global,
    passed: &[Item<Local>],
    depth: usize,
    left: &Box<T>,
    operator: BinaryOperator,
    right: &Box<T>,
) -> Result<Core, AllocError>
    ensures { IfOk result (λ c. core_view c ≡
        table.core (table.passes passed.now) depth (node.operation (tree_by T.node left.now) operator (tree_by T.node right.now))) }
{
    let left = left.lower(alloc, passed, depth)?;
    let right = right.lower(alloc, passed, depth)?;
    send_one(alloc, left, operator.name(), right)
}

/// How two trees are joined of which the second is done or not.
#[derive(Clone, Copy, Debug, PartialEq, Eq)]
pub enum Joined {
    /// `a && b`
    And,
    /// `a || b`
    Or,
    /// `a rescue b`
    Rescue,
}

/// `a && b`, `a || b` and `a rescue b`.
pub fn lower_joined<T: Lower>(
    alloc: Global,
    passed: &[Item<Local>],
    depth: usize,
    joined: Joined,
    left: &Box<T>,
    right: &Box<T>,
) -> Result<Core, AllocError>
    ensures { IfOk result (λ c. core_view c ≡
        joined_form joined (table.core (table.passes passed.now) depth (tree_by T.node left.now)) (table.core
        (table.passes passed.now) depth (tree_by T.node right.now))) }
{
    let left = left.lower(alloc, passed, depth)?;
    let right = right.lower(alloc, passed, depth)?;
    match joined {
        Joined::And => both(alloc, left, right),
        Joined::Or => either(alloc, left, right),
        Joined::Rescue => rescued(alloc, left, right),
    }
}

/// `a..b` and `a...b`, the dots at `at`.
pub fn lower_range<T: Lower>(
    alloc: Global,
    passed: &[Item<Local>],
    depth: usize,
    from: &Box<T>,
    to: &Box<T>,
    exclusive: bool,
    at: u32,
) -> Result<Core, AllocError>
    ensures { IfOk result (λ c. core_view c ≡
        table.core (table.passes passed.now) depth (node.range (tree_by T.node from.now) (tree_by T.node to.now) exclusive at)) }
{
    let from = from.lower(alloc, passed, depth)?;
    let to = to.lower(alloc, passed, depth)?;
    Term::Range {
        from,
        to,
        exclusive,
    }
    .into_core(alloc)
}

/// `a[i]`
pub fn lower_index<T: Lower>(
    alloc: Global,
    passed: &[Item<Local>],
    depth: usize,
    receiver: &Box<T>,
    items: &Vec<Item<Box<T>>>,
) -> Result<Core, AllocError>
    ensures { IfOk result (λ c. core_view c ≡
        table.core (table.passes passed.now) depth (node.index (tree_by T.node receiver.now) (items_by T.node items.now.items))) }
{
    let receiver = receiver.lower(alloc, passed, depth)?;
    let items = lower_items(alloc, passed, depth, items)?;
    send(alloc, receiver, b"[]", items)
}

/// `e::C`
pub fn lower_scoped<T: Lower>(
    alloc: Global,
    passed: &[Item<Local>],
    depth: usize,
    scope: &Box<T>,
    name: &[u8],
) -> Result<Core, AllocError>
    ensures { IfOk result (λ c. core_view c ≡
        table.core (table.passes passed.now) depth (node.scoped_constant (tree_by T.node scope.now) name.now)) }
{
    let scope = scope.lower(alloc, passed, depth)?;
    scoped_constant(alloc, scope, name)
}
