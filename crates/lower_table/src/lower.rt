ghost use Rattle.std.specs.Prelude.{◌≡◌, ◌+◌, true, IfOk};
ghost use Rattle.parser_tree.specs.Node.{Node};
ghost use Rattle.ir_core.specs.View.{core_view};
ghost use Rattle.lower_table.specs.Lowering as table;
ghost use Rattle.lower_table.specs.Parts.{is_tree};

use ir_core::{Core, Local};
use parser_tree::AssignmentOperator;
use rb_syntax::Item;
use std::alloc::{AllocError, Global};

/// What stands for the node of a tree, and not of a part of one.
pub trait Whole {
    ghost node: { Self → Node };

    /// The hidden locals that are in use for the value of an assignment to the tree.
    fn past(&self, depth: usize) -> Result<usize, AllocError>
        ensures { IfOk result (λ n. n ≡ depth + table.width (node self.now)) };

    ghost whole: { (t : Self) → is_tree (node t) ≡ true };
}

/// What is lowered. `passed` is what a `super` without arguments passes where the tree
/// stands, and `depth` the number of hidden locals in use around it.
pub trait Lower: Whole {
    /// The core of the tree.
    fn lower(&self, alloc: Global, passed: &[Item<Local>], depth: usize) -> Result<Core, AllocError>
        ensures { IfOk result (λ c. core_view c ≡ table.core (table.passes passed.now) depth (Self.node self.now)) };

    /// The assignment of a value to the tree, a target.
    fn store(
        &self,
        alloc: Global,
        passed: &[Item<Local>],
        depth: usize,
        value: Core,
    ) -> Result<Core, AllocError>
        ensures { IfOk result (λ c. core_view c ≡
            table.store (table.passes passed.now) depth (Self.node self.now) (core_view value)) };

    /// The abbreviated assignment of a value to the tree, a target.
    fn operate(
        &self,
        alloc: Global,
        passed: &[Item<Local>],
        depth: usize,
        operator: AssignmentOperator,
        value: Core,
    ) -> Result<Core, AllocError>
        ensures { IfOk result (λ c. core_view c ≡
            table.operate (table.passes passed.now) depth (Self.node self.now) operator (core_view value)) };

    /// What `defined?` asks about the tree.
    fn ask(&self, alloc: Global, passed: &[Item<Local>], depth: usize) -> Result<Core, AllocError>
        ensures { IfOk result (λ c. core_view c ≡ table.defined (table.passes passed.now) depth (Self.node self.now)) };

    /// The hidden locals that are in use for the value of an abbreviated assignment to the tree.
    fn past_operated(&self, depth: usize) -> Result<usize, AllocError>
        ensures { IfOk result (λ n. n ≡ depth + table.operated_width (Self.node self.now)) };
}

/// The number of hidden locals in use with some more; there is no memory for as many as have no number.
pub fn deeper(depth: usize, more: usize) -> Result<usize, AllocError>
    ensures { IfOk result (λ n. n ≡ depth + more) }
{
    depth.checked_add(more).ok_or(AllocError)
}
