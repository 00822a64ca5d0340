//! Classes and modules.
ghost use Rattle.std.specs.Prelude.{◌≡◌, IfOk};
ghost use Rattle.parser_tree.specs.Node as node;
ghost use Rattle.ir_core.specs.View.{core_view, term_view};
ghost use Rattle.ir_core.specs.CoreForm as form;
ghost use Rattle.ir_core.specs.Parts as part;
ghost use Rattle.lower_table.specs.Lowering as table;
ghost use Rattle.parser_tree.specs.PartsBy.{boxed_by, scope_by, tree_by};

use crate::functions::lower_plain;
use crate::lists::lower_maybe;
use crate::lower::Lower;
use ir_builder::leaf::object;
use ir_core::{Body, Core, Local, Term};
use parser_tree::{PlainBody, Scope};
use rb_base::Bytes;
use rb_syntax::Item;
use std::alloc::{AllocError, Global};

/// Where the constant of a class or module stands.
#[tactic(auto, using(crate::proofs::Wholes::wholes))]
fn lower_scope<T: Lower>(
    alloc: Global,
    passed: &[Item<Local>],
    depth: usize,
    scope: &Scope<Box<T>>,
) -> Result<Option<Core>, AllocError>
    ensures { IfOk result (λ o. part.boxed o ≡
        table.scope_form (scope_by T.node scope.now) (table.core (table.passes passed.now) depth (scope_by T.node scope.now))) }
{
    match scope {
        Scope::Innermost => Ok(None),
        Scope::Top => {
            let object = object(alloc)?;
            Ok(Some(object))
        }
        Scope::In(e) => {
            let core = e.lower(alloc, passed, depth)?;
            Ok(Some(core))
        }
    }
}

#[tactic(auto, using(ir_core::proofs::Views::core_views))]
fn class_term(scope: Option<Core>, name: Bytes, parent: Option<Core>, body: Box<Body<Core>>) -> Term
    ensures { term_view result ≡ form.class_form (part.boxed scope) name (part.boxed parent)
        (part.body_form body.value) }
{
    Term::Class {
        scope,
        name,
        parent,
        body,
    }
}

/// `class`
pub fn lower_class<T: Lower>(
    alloc: Global,
    passed: &[Item<Local>],
    depth: usize,
    scope: &Scope<Box<T>>,
    name: &[u8],
    parent: &Option<Box<T>>,
    body: &PlainBody<Box<T>>,
) -> Result<Core, AllocError>
    ensures { IfOk result (λ c. core_view c ≡
        table.core (table.passes passed.now) depth (node.class_node (scope_by T.node scope.now) name.now
        (boxed_by T.node parent.now) body.now.locals (tree_by T.node body.now.body))) }
{
    let scope = lower_scope(alloc, passed, depth, scope)?;
    let name = Bytes::from_slice(alloc, name)?;
    let parent = lower_maybe(alloc, passed, depth, parent)?;
    let body = lower_plain(alloc, body)?;
    class_term(scope, name, parent, Box::new(alloc, body)?).into_core(alloc)
}

/// `class << e`
pub fn lower_singleton_class<T: Lower>(
    alloc: Global,
    passed: &[Item<Local>],
    depth: usize,
    object: &Box<T>,
    body: &PlainBody<Box<T>>,
) -> Result<Core, AllocError>
    ensures { IfOk result (λ c. core_view c ≡
        table.core (table.passes passed.now) depth (node.singleton_class (tree_by T.node object.now)
        body.now.locals (tree_by T.node body.now.body))) }
{
    let object = object.lower(alloc, passed, depth)?;
    let body = lower_plain(alloc, body)?;
    Term::SingletonClass(object, Box::new(alloc, body)?).into_core(alloc)
}

#[tactic(auto, using(ir_core::proofs::Views::core_views))]
fn module_term(scope: Option<Core>, name: Bytes, body: Box<Body<Core>>) -> Term
    ensures { term_view result ≡ form.module_form (part.boxed scope) name (part.body_form body.value) }
{
    Term::Module { scope, name, body }
}

/// `module`
pub fn lower_module<T: Lower>(
    alloc: Global,
    passed: &[Item<Local>],
    depth: usize,
    scope: &Scope<Box<T>>,
    name: &[u8],
    body: &PlainBody<Box<T>>,
) -> Result<Core, AllocError>
    ensures { IfOk result (λ c. core_view c ≡
        table.core (table.passes passed.now) depth (node.module_node (scope_by T.node scope.now) name.now
        body.now.locals (tree_by T.node body.now.body))) }
{
    let scope = lower_scope(alloc, passed, depth, scope)?;
    let name = Bytes::from_slice(alloc, name)?;
    let body = lower_plain(alloc, body)?;
    module_term(scope, name, Box::new(alloc, body)?).into_core(alloc)
}
