//! The width of a core.
ghost use Rattle.ir_core.specs.View.{term_view};

use crate::measured::Measured;
use crate::splat::has_splat;
use crate::sums::in_order;
use crate::width_forms::{
    array_width, begin_width, call_width, class_width, cond_width, defined_width, hash_width,
    module_width, one, one_and_leaf, plain_call_width, seq_width, super_width, text_width, two,
    while_width, yield_width,
};
use crate::width_parts::Measure;
use ir_core::Term;
use std::alloc::Global;

impl Measured for Term {
    ghost form = { λ t. term_view t };

    #[cycle(width)]
    #[tactic(auto, using(ir_core::proofs::Views::core_views))]
    fn width(&self, alloc: Global) -> Measure {
        match self {
            Term::Nil
            | Term::True
            | Term::False
            | Term::SelfRef
            | Term::Int(_)
            | Term::Str(_)
            | Term::Sym(_)
            | Term::Local(_)
            | Term::Own(_)
            | Term::Exception
            | Term::Ivar(_)
            | Term::Gvar(_)
            | Term::Const(_)
            | Term::TopConst(_)
            | Term::Fn(_)
            | Term::Retry
            | Term::Alias(_, _)
            | Term::Undef(_) => Ok(3),
            Term::Lambda(_) | Term::Def(_, _) => in_order(&[3]),
            Term::SetLocal(_, e)
            | Term::SetIvar(_, e)
            | Term::SetGvar(_, e)
            | Term::InConst(e, _)
            | Term::SetConst(_, e)
            | Term::Intern(e)
            | Term::Return(e)
            | Term::Break(e)
            | Term::Next(e)
            | Term::SingletonClass(e, _)
            | Term::Item(e, _)
            | Term::Rest { of: e, .. }
            | Term::Tail { of: e, .. } => one(alloc, e),
            Term::DefOn(e, _, _) => one_and_leaf(alloc, e),
            Term::SetInConst(a, _, b)
            | Term::Range { from: a, to: b, .. }
            | Term::And(a, b)
            | Term::Or(a, b) => two(alloc, a, b),
            Term::While { test, body, .. } => while_width(alloc, test, body),
            Term::Array(items) => array_width(alloc, items),
            Term::Hash(pairs) => hash_width(alloc, pairs),
            Term::Text(list) => text_width(alloc, list),
            Term::Seq(list) => seq_width(alloc, list),
            Term::Cond(branches, otherwise) => cond_width(alloc, branches, otherwise),
            Term::Call {
                receiver,
                items,
                ..
            } => plain_call_width(alloc, has_splat(items), receiver, items),
            Term::BlockCall {
                receiver,
                items,
                block,
                ..
            } => call_width(alloc, has_splat(items), receiver, items, block),
            Term::Yield(items) => yield_width(alloc, has_splat(items), items),
            Term::Super(items, block) => super_width(alloc, has_splat(items), items, block),
            Term::Begin(begin) => begin_width(alloc, &**begin),
            Term::Class { scope, parent, .. } => class_width(alloc, scope, parent),
            Term::Module { scope, .. } => module_width(alloc, scope),
            Term::Defined(_, _, e) => defined_width(alloc, e),
        }
    }
}
