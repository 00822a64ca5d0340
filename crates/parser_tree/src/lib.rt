//! Trees of the grammar, one variant for each rule. A tree is a box, also inside another; contracts see the whole as a
//! `Node` (specs/Node.antt, specs/View.antt).
//!
//! For the crates above, specs/Parts.antt has the nodes of a tree's parts, and proofs/Views.antt the node of each tree
//! whose parts lie in lists and options. specs/PartsBy.antt and proofs/ViewsBy.antt say the same by any function on the
//! trees in them: what a walk over trees says of its steps.
//!
//! Types: [`Tree`], a box over a [`TreeForm`] with its parts, [`Source`], the body of a whole source,
//! [`BinaryOperator`], [`UnaryOperator`], [`AssignmentOperator`].
#![tactic(auto)]

pub mod operator;
pub mod tree;

pub use operator::{AssignmentOperator, BinaryOperator, UnaryOperator};
pub use tree::{
    Arguments, Definition, OptionalParameter, Parameter, ParameterList, Piece, PlainBody,
    RescueBody, RescueClause, RestParameter, Scope, Source, TargetList, Tree, TreeForm, WhenClause,
};
