//! The code of a core, and of a body of one.
ghost use Rattle.std.specs.Prelude.{◌≡◌, IfOk, IfSome, IfNone};
ghost use Rattle.ir_core.specs.CoreForm.{none};
ghost use Rattle.ir_core.specs.Parts as part;
ghost use Rattle.ir_core.specs.declared.term.Term as term;
ghost use Rattle.gen_forms.specs.Open.{forms_in};
ghost use Rattle.ir_core.specs.View.{term_view, body_view};
ghost use Rattle.gen_forms.specs.Making.{coded_program};

use crate::bodies::{Maker, bodies_of, make, none_started, started};
use crate::branches::{and, choose, or};
use crate::calls::{block_call, call, call_super, yield_to};
use crate::collections::{array, hash, rest_of, tail_of, text};
use crate::context::Context;
use crate::definitions::{class, define_on, method, module, singleton_class};
use crate::emits::{Emits, Emitted, then_do};
use crate::exits::{break_with, next_with, retry, return_value};
use crate::guards::guarded;
use crate::leaves::{
    exception, integer, local, own, range, set_in_constant, set_local, string, top_constant,
};
use crate::loops::{body_first, test_first};
use crate::names::{
    alias, constant, constant_in, global_variable, instance_variable, set_constant,
    set_global_variable, set_instance_variable, symbol_value, undef,
};
use crate::questions::defined;
use crate::sequences::in_turn;
use gen_parts::Emitter;
use ir_core::{Core, Program, Term};
use ir_counts::{Tally, form_tally};
use ir_walk::Measured;
use rb_base::List;
use rite_code::{Irep, Operation};
use scope_resolver::BodyKind;
use std::alloc::{AllocError, Global};

/// The forms of a sequence.
#[tactic(auto, using(ir_core::proofs::Views::core_views))]
fn list_of(core: &Term) -> Option<&Vec<Core>>
    ensures seq { IfSome result (λ list. core.now ≡ term.Seq list.now) }
    ensures some { IfSome result (λ list. forms_in (term_view core.now) ≡ part.cores list.now.items) }
    ensures none { IfNone result (forms_in (term_view core.now) ≡ none) }
{
    match core {
        Term::Seq(list) => Some(list),
        Term::Nil | Term::True | Term::False | Term::SelfRef | Term::Exception | Term::Retry =>
            None,
        Term::Int(_) => None,
        Term::Str(_)
        | Term::Sym(_)
        | Term::Ivar(_)
        | Term::Gvar(_)
        | Term::Const(_)
        | Term::TopConst(_)
        | Term::Undef(_) => None,
        Term::Local(_) | Term::Own(_) => None,
        Term::SetLocal(_, _) => None,
        Term::SetIvar(_, _) | Term::SetGvar(_, _) | Term::SetConst(_, _) => None,
        Term::InConst(_, _) => None,
        Term::SetInConst(_, _, _) => None,
        Term::Alias(_, _) => None,
        Term::Array(_) | Term::Yield(_) => None,
        Term::Hash(_) => None,
        Term::Text(_) => None,
        Term::Range { .. } => None,
        Term::Intern(_) | Term::Return(_) | Term::Break(_) | Term::Next(_) => None,
        Term::Cond(_, _) => None,
        Term::And(_, _) | Term::Or(_, _) => None,
        Term::While { .. } => None,
        Term::Call { .. } => None,
        Term::BlockCall { .. } => None,
        Term::Super(_, _) => None,
        Term::Fn(_) | Term::Lambda(_) => None,
        Term::Begin(_) => None,
        Term::Def(_, _) => None,
        Term::DefOn(_, _, _) => None,
        Term::Class { .. } => None,
        Term::Module { .. } => None,
        Term::SingletonClass(_, _) => None,
        Term::Defined(_, _, _) => None,
        Term::Item(_, _) => None,
        Term::Rest { .. } => None,
        Term::Tail { .. } => None,
    }
}

impl Emits for Term {
    ghost form = { λ t. term_view t };

    #[cycle(emit)]
    #[tactic(auto, using(gen_parts::proofs::Laws::piece_laws, ir_core::proofs::Views::core_views))]
    fn emit<'s>(&'s self, code: &mut Emitter, context: &Context<'_, 's>, a: u16) -> Emitted {
        match self {
            Term::Nil => code.does(Operation::LoadNil { a }),
            Term::True => code.does(Operation::LoadT { a }),
            Term::False => code.does(Operation::LoadF { a }),
            Term::SelfRef => code.does(Operation::LoadSelf { a }),
            Term::Int(value) => integer(code, context, a, *value),
            Term::Str(text) => string(code, context, a, text),
            Term::Sym(name) => symbol_value(code, context, a, name),
            Term::Local(x) => local(code, context, a, x),
            Term::Own(x) => own(code, context, a, x),
            Term::Exception => exception(code, context, a),
            Term::SetLocal(x, e) => set_local(code, context, a, x, e),
            Term::Ivar(name) => instance_variable(code, context, a, name),
            Term::SetIvar(name, e) => set_instance_variable(code, context, a, name, e),
            Term::Gvar(name) => global_variable(code, context, a, name),
            Term::SetGvar(name, e) => set_global_variable(code, context, a, name, e),
            Term::Const(name) => constant(code, context, a, name),
            Term::TopConst(name) => top_constant(code, context, a, name),
            Term::InConst(e, name) => constant_in(code, context, a, name, e),
            Term::SetConst(name, e) => set_constant(code, context, a, name, e),
            Term::SetInConst(scope, name, value) => {
                set_in_constant(code, context, a, scope, name, value)
            }
            Term::Array(items) => array(code, context, a, items),
            Term::Hash(pairs) => hash(code, context, a, pairs),
            Term::Range {
                from,
                to,
                exclusive,
            } => range(code, context, a, from, to, *exclusive),
            Term::Text(list) => text(code, context, a, list),
            Term::Intern(e) => then_do(code, context, a, e, Operation::Intern { a }),
            Term::Seq(list) => in_turn(code, context, a, list),
            Term::Cond(branches, otherwise) => choose(code, context, a, branches, otherwise),
            Term::And(first, second) => and(code, context, a, first, second),
            Term::Or(first, second) => or(code, context, a, first, second),
            Term::While {
                body_first: true,
                test,
                body,
            } => body_first(code, context, a, test, body),
            Term::While {
                body_first: false,
                test,
                body,
            } => test_first(code, context, a, test, body),
            Term::Call {
                receiver,
                name,
                items,
            } => call(code, context, a, receiver, name, items),
            Term::BlockCall {
                receiver,
                name,
                items,
                block,
            } => block_call(code, context, a, receiver, name, items, block),
            Term::Yield(items) => yield_to(code, context, a, items),
            Term::Super(items, block) => call_super(code, context, a, items, block),
            Term::Fn(body) => make(code, context, a, Maker::Block, body),
            Term::Lambda(body) => make(code, context, a, Maker::Lambda, body),
            Term::Begin(begin) => guarded(code, context, a, &**begin),
            Term::Return(e) => return_value(code, context, a, e),
            Term::Break(e) => break_with(code, context, a, e),
            Term::Next(e) => next_with(code, context, a, e),
            Term::Retry => retry(code, context, a),
            Term::Def(name, body) => method(code, context, a, name, body),
            Term::DefOn(e, name, body) => define_on(code, context, a, e, name, body),
            Term::Class {
                scope,
                name,
                parent,
                body,
            } => class(code, context, a, scope, name, parent, body),
            Term::Module { scope, name, body } => { module(code, context, a, scope, name, body) }
            Term::SingletonClass(e, body) => singleton_class(code, context, a, e, body),
            Term::Alias(new, old) => alias(code, context, a, new, old),
            Term::Undef(name) => undef(code, context, a, name),
            Term::Defined(kind, name, e) => defined(code, context, a, *kind, name, e),
            Term::Item(e, k) => then_do(code, context, a, e, Operation::ARef { a, b: a, c: *k }),
            Term::Rest { of, from, post } => rest_of(code, context, a, of, *from, *post),
            Term::Tail { of, from, count } => tail_of(code, context, a, of, *from, *count),
        }
    }

    #[cycle(emit)]
    #[tactic(auto, using(gen_parts::proofs::Laws::piece_laws, ir_core::proofs::Views::core_views))]
    fn emit_started<'s>(
        &'s self,
        code: &mut Emitter,
        context: &Context<'_, 's>,
        a: u16,
        count: usize,
        starts: &mut Vec<u32>,
    ) -> Emitted {
        match list_of(self) {
            Some(list) => started(code, context, a, list, count, starts),
            None => none_started(code, a, count, starts),
        }
    }

    fn tally<'a>(&'a self, alloc: Global) -> Result<Tally<'a>, AllocError> {
        form_tally(alloc, self)
    }

    fn width(&self, alloc: Global) -> Result<u64, AllocError> {
        Measured::width(self, alloc)
    }
}

/// The bodies of a program, depth first.
pub fn main_code(alloc: Global, program: &Program) -> Result<List<Irep>, AllocError>
    ensures { IfOk result (λ list. list ≡ coded_program (body_view program.now)) }
{
    let bodies = bodies_of(alloc, &[], BodyKind::Main, 0, program)?;
    bodies.into_list(alloc)
}
