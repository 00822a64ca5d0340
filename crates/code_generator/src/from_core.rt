//! From cores to trees.
ghost use Rattle.ir_core.specs.View.{term_view};

use crate::formed::{Formed, Made};
use crate::parts::{call_tree, choice_tree, local_tree, seq_tree, set_tree, while_tree};
use crate::tree::Tree;
use ir_core::Term;
use std::alloc::Global;

impl Formed for Term {
    ghost core = { λ t. term_view t };

    #[cycle(trees)]
    #[tactic(auto, using(ir_core::proofs::Views::core_views))]
    fn tree(&self, alloc: Global) -> Made {
        match self {
            Term::Nil => Ok(Some(Tree::Nil)),
            Term::True => Ok(Some(Tree::True)),
            Term::Int(n) => Ok(Some(Tree::Int(*n))),
            Term::Local(variable) => local_tree(alloc, variable),
            Term::SetLocal(variable, value) => set_tree(alloc, variable, value),
            Term::Seq(list) => seq_tree(alloc, list),
            Term::Cond(branches, otherwise) => choice_tree(alloc, branches, otherwise),
            Term::While {
                body_first,
                test,
                body,
            } => while_tree(alloc, *body_first, test, body),
            Term::Call {
                receiver,
                name,
                items,
            } => call_tree(alloc, receiver, name, items),
            Term::BlockCall { .. }
            | Term::False
            | Term::SelfRef
            | Term::Own(_)
            | Term::Exception
            | Term::Str(_)
            | Term::Sym(_)
            | Term::Ivar(_)
            | Term::SetIvar(_, _)
            | Term::Gvar(_)
            | Term::SetGvar(_, _)
            | Term::Const(_)
            | Term::TopConst(_)
            | Term::InConst(_, _)
            | Term::SetConst(_, _)
            | Term::SetInConst(_, _, _)
            | Term::Array(_)
            | Term::Hash(_)
            | Term::Range { .. }
            | Term::Text(_)
            | Term::Intern(_)
            | Term::And(_, _)
            | Term::Or(_, _)
            | Term::Yield(_)
            | Term::Super(_, _)
            | Term::Fn(_)
            | Term::Lambda(_)
            | Term::Begin(_)
            | Term::Return(_)
            | Term::Break(_)
            | Term::Next(_)
            | Term::Retry
            | Term::Def(_, _)
            | Term::DefOn(_, _, _)
            | Term::Class { .. }
            | Term::Module { .. }
            | Term::SingletonClass(_, _)
            | Term::Alias(_, _)
            | Term::Undef(_)
            | Term::Defined(_, _, _)
            | Term::Item(_, _)
            | Term::Rest { .. }
            | Term::Tail { .. } => Ok(None),
        }
    }
}
