//! The nodes of a tree, from parts that may be none.
ghost use Rattle.std.specs.Prelude.{◌≡◌, true, false, None, IfOk};
ghost use Rattle.rb_syntax.specs.Operator.{operator_named};
ghost use Rattle.code_generator.specs.Built.{call_of, lines_of, operation_of, puts_of};
ghost use Rattle.code_generator.specs.Emission.{all_forms, cond_form, form, form_in, forms_in, loop_form, only_form, set_form};

use crate::tree::Tree;
use rb_base::Bytes;
use rb_syntax::Operator;
use std::alloc::{AllocError, Global};

/// The operator of a name, if it is one.
#[tactic(auto, unfolding(rb_syntax::specs::Operator::operator_named))]
fn operator_of(name: &[u8]) -> Option<Operator>
    ensures { result ≡ operator_named name.now }
{
    if name == b"+".as_slice() {
        Some(Operator::Plus)
    } else if name == b"-".as_slice() {
        Some(Operator::Minus)
    } else if name == b"*".as_slice() {
        Some(Operator::Times)
    } else if name == b"==".as_slice() {
        Some(Operator::Equal)
    } else if name == b"<".as_slice() {
        Some(Operator::Less)
    } else if name == b"<=".as_slice() {
        Some(Operator::LessEqual)
    } else if name == b">".as_slice() {
        Some(Operator::Greater)
    } else if name == b">=".as_slice() {
        Some(Operator::GreaterEqual)
    } else {
        None
    }
}

/// The only tree of some, if there is one.
#[tactic(auto, using(crate::proofs::Lists::only_laws))]
fn only(trees: Vec<Tree>) -> Option<Tree>
    ensures { form_in result ≡ only_form (all_forms trees.items) }
{
    let mut trees = trees;
    if trees.len() > 1 {
        return None;
    }
    trees.pop()
}

/// The call of an operator by its name, with one item.
fn operation(
    alloc: Global,
    a: Tree,
    name: &[u8],
    items: Vec<Tree>,
) -> Result<Option<Tree>, AllocError>
    ensures { IfOk result (λ tree. form_in tree ≡ operation_of (form a) name.now (all_forms items.items)) }
{
    match (only(items), operator_of(name)) {
        (Some(b), Some(operator)) => {
            let a = Box::new(alloc, a)?;
            let b = Box::new(alloc, b)?;
            Ok(Some(Tree::Operate(operator, a, b)))
        }
        _ => Ok(None),
    }
}

/// The call of an operator by its name.
pub fn operate(
    alloc: Global,
    a: Option<Tree>,
    name: &[u8],
    items: Option<Vec<Tree>>,
) -> Result<Option<Tree>, AllocError>
    ensures { IfOk result (λ tree. form_in tree ≡ call_of false (form_in a) name.now (forms_in items)) }
{
    match (a, items) {
        (Some(a), Some(items)) => operation(alloc, a, name, items),
        _ => Ok(None),
    }
}

/// The call of puts on self, with one item.
fn line(alloc: Global, name: &[u8], items: Vec<Tree>) -> Result<Option<Tree>, AllocError>
    ensures { IfOk result (λ tree. form_in tree ≡ puts_of name.now (all_forms items.items)) }
{
    match only(items) {
        Some(e) if name == b"puts".as_slice() => Ok(Some(Tree::Puts(Box::new(alloc, e)?))),
        _ => Ok(None),
    }
}

/// The call of puts on self.
pub fn puts(
    alloc: Global,
    name: &[u8],
    items: Option<Vec<Tree>>,
) -> Result<Option<Tree>, AllocError>
    ensures { IfOk result (λ tree. form_in tree ≡ call_of true None name.now (forms_in items)) }
{
    match items {
        Some(items) => line(alloc, name, items),
        None => Ok(None),
    }
}

/// Lines in order.
pub fn seq(lines: Option<Vec<Tree>>) -> Option<Tree>
    ensures { form_in result ≡ lines_of (forms_in lines) }
{
    match lines {
        Some(lines) => Some(Tree::Seq(lines)),
        None => None,
    }
}

/// The assignment of a value to a name.
pub fn set_local(
    alloc: Global,
    name: &Bytes,
    value: Option<Tree>,
) -> Result<Option<Tree>, AllocError>
    ensures { IfOk result (λ tree. form_in tree ≡ set_form name.now (form_in value)) }
{
    match value {
        Some(value) => {
            let name = Bytes::from_slice(alloc, name.as_slice())?;
            Ok(Some(Tree::SetLocal(name, Box::new(alloc, value)?)))
        }
        None => Ok(None),
    }
}

/// The choice by a test.
pub fn cond(
    alloc: Global,
    test: Option<Tree>,
    body: Option<Tree>,
    other: Option<Tree>,
) -> Result<Option<Tree>, AllocError>
    ensures { IfOk result (λ tree. form_in tree ≡ cond_form (form_in test) (form_in body) (form_in other)) }
{
    match (test, body, other) {
        (Some(test), Some(body), Some(other)) => {
            let test = Box::new(alloc, test)?;
            let body = Box::new(alloc, body)?;
            let other = Box::new(alloc, other)?;
            Ok(Some(Tree::Cond(test, body, other)))
        }
        _ => Ok(None),
    }
}

/// The loop while a test holds.
pub fn while_loop(
    alloc: Global,
    test: Option<Tree>,
    body: Option<Tree>,
) -> Result<Option<Tree>, AllocError>
    ensures { IfOk result (λ tree. form_in tree ≡ loop_form (form_in test) (form_in body)) }
{
    match (test, body) {
        (Some(test), Some(body)) => {
            let test = Box::new(alloc, test)?;
            let body = Box::new(alloc, body)?;
            Ok(Some(Tree::While(test, body)))
        }
        _ => Ok(None),
    }
}
