//! The walk over a core.
ghost use Rattle.ir_core.specs.View.{term_view};

use crate::extent::Extent;
use crate::step::Step;
use crate::trail::meet;
use crate::walk_forms::{
    walk_begin, walk_call, walk_class, walk_cond, walk_core_and_body, walk_module, walk_plain_call,
    walk_super, walk_two,
};
use crate::walk_parts::{walk_all, walk_inside, walk_items, walk_optional, walk_pairs};
use crate::walked::{Noted, Walked};
use ir_core::Term;

impl Walked for Term {
    ghost form = { λ t. term_view t };

    #[cycle(walk)]
    #[tactic(auto, using(ir_core::proofs::Views::core_views))]
    fn walk<'a>(&'a self, extent: Extent, trail: &mut Vec<Step<'a>>) -> Noted {
        meet(trail, self)?;
        match self {
            Term::Nil
            | Term::True
            | Term::False
            | Term::SelfRef
            | Term::Int(_)
            | Term::Str(_)
            | Term::Sym(_)
            | Term::Local(_)
            | Term::Own(_)
            | Term::Exception
            | Term::Ivar(_)
            | Term::Gvar(_)
            | Term::Const(_)
            | Term::TopConst(_)
            | Term::Retry
            | Term::Alias(_, _)
            | Term::Undef(_) => Ok(()),
            Term::SetLocal(_, e)
            | Term::SetIvar(_, e)
            | Term::SetGvar(_, e)
            | Term::InConst(e, _)
            | Term::SetConst(_, e)
            | Term::Intern(e)
            | Term::Return(e)
            | Term::Break(e)
            | Term::Next(e)
            | Term::Item(e, _)
            | Term::Rest { of: e, .. }
            | Term::Tail { of: e, .. } => e.walk(extent, trail),
            Term::SetInConst(a, _, b)
            | Term::Range { from: a, to: b, .. }
            | Term::And(a, b)
            | Term::Or(a, b) => walk_two(extent, trail, a, b),
            Term::While { test, body, .. } => walk_two(extent, trail, test, body),
            Term::Text(list) | Term::Seq(list) => walk_all(extent, trail, list),
            Term::Array(items) | Term::Yield(items) => walk_items(extent, trail, items),
            Term::Hash(pairs) => walk_pairs(extent, trail, pairs),
            Term::Cond(branches, otherwise) => walk_cond(extent, trail, branches, otherwise),
            Term::Call {
                receiver,
                items,
                ..
            } => walk_plain_call(extent, trail, receiver, items),
            Term::BlockCall {
                receiver,
                items,
                block,
                ..
            } => walk_call(extent, trail, receiver, items, block),
            Term::Super(items, block) => walk_super(extent, trail, items, block),
            Term::Fn(body) | Term::Lambda(body) | Term::Def(_, body) => {
                walk_inside(extent, trail, Step::Enter(&**body), &body.form)
            }
            Term::Begin(begin) => walk_begin(extent, trail, &**begin),
            Term::DefOn(e, _, body) | Term::SingletonClass(e, body) => {
                walk_core_and_body(extent, trail, e, Step::Enter(&**body), &body.form)
            }
            Term::Class {
                scope,
                parent,
                body,
                ..
            } => {
                let beginning = Step::Enter(&**body);
                walk_class(extent, trail, scope, parent, beginning, &body.form)
            }
            Term::Module { scope, body, .. } => {
                walk_module(extent, trail, scope, Step::Enter(&**body), &body.form)
            }
            Term::Defined(_, _, e) => walk_optional(extent, trail, e),
        }
    }
}
