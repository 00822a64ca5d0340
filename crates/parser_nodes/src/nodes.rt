//! The trees of operators, conditions and assignments.
ghost use Rattle.std.specs.Prelude.{◌≡◌, IfOk};
ghost use Rattle.parser_tree.specs.Node as node;
ghost use Rattle.parser_tree.specs.View.{view};
ghost use Rattle.parser_nodes.specs.Nodes as made;

use parser_tokens::operators::{Assignment, Infix, Junction, Prefix};
use parser_tokens::word::Modifier;
use parser_tree::{BinaryOperator, Tree, TreeForm};
use rb_syntax::{Branch, Outside};
use std::alloc::{AllocError, Global};

/// A construct outside the language with two parts.
#[tactic(auto, using(parser_tree::proofs::Views::views))]
fn outside_pair(
    alloc: Global,
    what: Outside,
    at: u32,
    left: Tree,
    right: Tree,
) -> Result<Tree, AllocError>
    ensures { IfOk result (λ t. view t ≡ made.outside_pair what at (view left) (view right)) }
{
    let mut parts = Vec::new(alloc);
    parts.push(left)?;
    parts.push(right)?;
    TreeForm::Outside { what, at, parts }.into_tree(alloc)
}

fn range_tree(
    alloc: Global,
    exclusive: bool,
    at: u32,
    left: Tree,
    right: Tree,
) -> Result<Tree, AllocError>
    ensures { IfOk result (λ t. view t ≡ node.range (view left) (view right) exclusive at) }
{
    TreeForm::Range {
        from: left,
        to: right,
        exclusive,
        at,
    }
    .into_tree(alloc)
}

fn operation_tree(
    alloc: Global,
    operator: BinaryOperator,
    left: Tree,
    right: Tree,
) -> Result<Tree, AllocError>
    ensures { IfOk result (λ t. view t ≡ node.operation (view left) operator (view right)) }
{
    TreeForm::Operation(left, operator, right).into_tree(alloc)
}

/// The tree of an operator at `at` between two operands.
pub fn infix_tree(
    alloc: Global,
    sign: Infix,
    at: u32,
    left: Tree,
    right: Tree,
) -> Result<Tree, AllocError>
    ensures { IfOk result (λ t. view t ≡ made.infix_node sign at (view left) (view right)) }
{
    match sign {
        Infix::Operation(operator) => operation_tree(alloc, operator, left, right),
        Infix::And => junction_tree(alloc, Junction::And, left, right),
        Infix::Or => junction_tree(alloc, Junction::Or, left, right),
        Infix::Range => range_tree(alloc, false, at, left, right),
        Infix::RangeExclusive => range_tree(alloc, true, at, left, right),
        Infix::Match => outside_pair(alloc, Outside::MatchOperator, at, left, right),
        Infix::Ambiguous => outside_pair(alloc, Outside::Ambiguous, at, left, right),
    }
}

/// The tree of an operator before its operand.
pub fn prefix_tree(alloc: Global, sign: Prefix, operand: Tree) -> Result<Tree, AllocError>
    ensures { IfOk result (λ t. view t ≡ made.prefix_node sign (view operand)) }
{
    match sign {
        Prefix::Not => TreeForm::Not(operand).into_tree(alloc),
        Prefix::Operation(operator) => TreeForm::Unary(operator, operand).into_tree(alloc),
    }
}

/// The tree of `and` or `or`.
pub fn junction_tree(
    alloc: Global,
    junction: Junction,
    left: Tree,
    right: Tree,
) -> Result<Tree, AllocError>
    ensures { IfOk result (λ t. view t ≡ made.junction_node junction (view left) (view right)) }
{
    match junction {
        Junction::And => TreeForm::And(left, right).into_tree(alloc),
        Junction::Or => TreeForm::Or(left, right).into_tree(alloc),
    }
}

/// What a tree is, as far as the rules ask.
#[derive(Clone, Copy, Debug, PartialEq, Eq)]
pub enum Shape {
    /// A range, with the place of its dots.
    Range(u32),
    /// `begin .. end`, or a body with clauses.
    Begin,
    /// A target of an assignment.
    Target,
    Other,
}

fn outside_shape(what: Outside) -> Shape
    ensures { result ≡ made.outside_shape what }
{
    match what {
        Outside::ClassVariable | Outside::SpecialGlobal => Shape::Target,
        _ => Shape::Other,
    }
}

/// What a tree is.
#[tactic(auto, using(parser_tree::proofs::Views::views), unfolding(crate::specs::Nodes::shape))]
pub fn shape_of(tree: &Tree) -> Shape
    ensures { result ≡ made.shape (view tree.now) }
{
    match &**tree {
        TreeForm::Range { at, .. } => Shape::Range(*at),
        TreeForm::Begin(_) => Shape::Begin,
        TreeForm::Local(_)
        | TreeForm::InstanceVariable(_)
        | TreeForm::GlobalVariable(_)
        | TreeForm::Constant(_)
        | TreeForm::ScopedConstant(_, _)
        | TreeForm::Index(_, _) => Shape::Target,
        TreeForm::Outside { what, .. } => outside_shape(*what),
        TreeForm::Nil
        | TreeForm::True
        | TreeForm::False
        | TreeForm::SelfReference
        | TreeForm::Integer(_)
        | TreeForm::Text(_)
        | TreeForm::Symbol(_)
        | TreeForm::SymbolText(_)
        | TreeForm::Words(_)
        | TreeForm::Symbols(_)
        | TreeForm::TopConstant(_)
        | TreeForm::Array(_)
        | TreeForm::Hash(_)
        | TreeForm::Statements(_)
        | TreeForm::Not(_)
        | TreeForm::Unary(_, _)
        | TreeForm::Operation(_, _, _)
        | TreeForm::And(_, _)
        | TreeForm::Or(_, _)
        | TreeForm::If { .. }
        | TreeForm::Unless { .. }
        | TreeForm::While { .. }
        | TreeForm::For { .. }
        | TreeForm::Case { .. }
        | TreeForm::RescueModifier(_, _)
        | TreeForm::Call { .. }
        | TreeForm::Super { .. }
        | TreeForm::Yield { .. }
        | TreeForm::Defined(_)
        | TreeForm::Lambda(_)
        | TreeForm::Return { .. }
        | TreeForm::Break { .. }
        | TreeForm::Next { .. }
        | TreeForm::Retry { .. }
        | TreeForm::Assign(_, _)
        | TreeForm::OperatorAssign(_, _, _)
        | TreeForm::MultipleAssign(_, _)
        | TreeForm::Targets(_)
        | TreeForm::Define { .. }
        | TreeForm::Class { .. }
        | TreeForm::SingletonClass(_, _)
        | TreeForm::Module { .. }
        | TreeForm::Alias(_, _)
        | TreeForm::Undef(_) => Shape::Other,
    }
}

/// The tree of a condition; a range that is a whole condition is outside the language.
pub fn condition_tree(alloc: Global, tree: Tree) -> Result<Tree, AllocError>
    ensures { IfOk result (λ t. view t ≡ made.condition_node (view tree)) }
{
    match shape_of(&tree) {
        Shape::Range(at) => outside_tree(alloc, Outside::FlipFlop, at, tree),
        Shape::Begin | Shape::Target | Shape::Other => Ok(tree),
    }
}

#[tactic(auto, using(parser_tree::proofs::Views::views))]
fn branch_tree(
    alloc: Global,
    test: Tree,
    body: Tree,
    otherwise: Option<Tree>,
) -> Result<Tree, AllocError>
    ensures { IfOk result (λ t. view t ≡ made.branch_node (view test) (view body) (made.boxed_view otherwise)) }
{
    let mut branches = Vec::new(alloc);
    branches.push(Branch { test, body })?;
    TreeForm::If {
        branches,
        otherwise,
    }
    .into_tree(alloc)
}

/// The tree of `a ? b : c`.
pub fn choice_tree(alloc: Global, test: Tree, yes: Tree, no: Tree) -> Result<Tree, AllocError>
    ensures { IfOk result (λ t. view t ≡ made.choice_node (view test) (view yes) (view no)) }
{
    let test = condition_tree(alloc, test)?;
    branch_tree(alloc, test, yes, Some(no))
}

#[tactic(auto, using(parser_tree::proofs::Views::views))]
fn unless_tree(alloc: Global, test: Tree, body: Tree) -> Result<Tree, AllocError>
    ensures { IfOk result (λ t. view t ≡ made.unless_node (view test) (view body)) }
{
    let test = condition_tree(alloc, test)?;
    TreeForm::Unless {
        test,
        body,
        otherwise: None,
    }
    .into_tree(alloc)
}

fn is_begin(tree: &Tree) -> bool
    ensures { result ≡ made.is_begin (view tree.now) }
{
    matches!(shape_of(tree), Shape::Begin)
}

fn loop_tree(alloc: Global, until: bool, test: Tree, body: Tree) -> Result<Tree, AllocError>
    ensures { IfOk result (λ t. view t ≡ made.loop_node until (view test) (view body)) }
{
    let body_first = is_begin(&body);
    let test = condition_tree(alloc, test)?;
    TreeForm::While {
        until,
        body_first,
        test,
        body,
    }
    .into_tree(alloc)
}

/// The tree of a statement and the part behind its modifier.
pub fn modified_tree(
    alloc: Global,
    modifier: Modifier,
    body: Tree,
    part: Tree,
) -> Result<Tree, AllocError>
    ensures { IfOk result (λ t. view t ≡ made.modified_node modifier (view body) (view part)) }
{
    match modifier {
        Modifier::If => {
            let test = condition_tree(alloc, part)?;
            branch_tree(alloc, test, body, None)
        }
        Modifier::Unless => unless_tree(alloc, part, body),
        Modifier::While => loop_tree(alloc, false, part, body),
        Modifier::Until => loop_tree(alloc, true, part, body),
        Modifier::Rescue => rescued_tree(alloc, body, part),
    }
}

/// The tree of an assignment to a target.
pub fn assignment_tree(
    alloc: Global,
    assignment: Assignment,
    target: Tree,
    value: Tree,
) -> Result<Tree, AllocError>
    ensures { IfOk result (λ t. view t ≡ made.assignment_node assignment (view target) (view value)) }
{
    match assignment {
        Assignment::Plain => TreeForm::Assign(target, value).into_tree(alloc),
        Assignment::Operation(operator) => {
            TreeForm::OperatorAssign(target, operator, value).into_tree(alloc)
        }
    }
}

/// The tree of an assigned value and what replaces it where it raises.
pub fn rescued_tree(alloc: Global, value: Tree, other: Tree) -> Result<Tree, AllocError>
    ensures { IfOk result (λ t. view t ≡ made.rescued_node (view value) (view other)) }
{
    TreeForm::RescueModifier(value, other).into_tree(alloc)
}

/// The tree of `defined?`.
pub fn defined_tree(alloc: Global, operand: Tree) -> Result<Tree, AllocError>
    ensures { IfOk result (λ t. view t ≡ made.defined_node (view operand)) }
{
    TreeForm::Defined(operand).into_tree(alloc)
}

/// A construct outside the language with one part.
#[tactic(auto, using(parser_tree::proofs::Views::views))]
pub fn outside_tree(alloc: Global, what: Outside, at: u32, part: Tree) -> Result<Tree, AllocError>
    ensures { IfOk result (λ t. view t ≡ made.outside_node what at (view part)) }
{
    let mut parts = Vec::new(alloc);
    parts.push(part)?;
    TreeForm::Outside { what, at, parts }.into_tree(alloc)
}
