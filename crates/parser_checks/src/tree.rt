//! The walk over a tree.
ghost use Rattle.parser_tree.specs.View.{form_view};

use crate::context::Context;
use crate::doubled::put_name;
use crate::forms::{
    check_assign, check_begin, check_call, check_case, check_class, check_define, check_for,
    check_if, check_index, check_jump, check_module, check_multiple, check_outside, check_rescued,
    check_singleton, check_super, check_targets, check_two, check_unless,
};
use crate::found::{Found, noted};
use crate::parts::{check_all, check_definition, check_items, check_pairs, check_pieces};
use crate::placed::{Check, Placed};
use crate::targets::{has_constant, list_names};
use parser_tree::TreeForm;
use rb_base::{Bytes, List};
use std::alloc::{AllocError, Global};

impl Placed for TreeForm {
    ghost node = { λ t. form_view t };

    #[cycle(check)]
    #[tactic(auto, using(crate::proofs::Assigned::all_views))]
    fn check(&self, context: Context, best: Found) -> Check {
        match self {
            TreeForm::Nil
            | TreeForm::True
            | TreeForm::False
            | TreeForm::SelfReference
            | TreeForm::Integer(_)
            | TreeForm::Symbol(_)
            | TreeForm::Words(_)
            | TreeForm::Symbols(_)
            | TreeForm::Local(_)
            | TreeForm::InstanceVariable(_)
            | TreeForm::GlobalVariable(_)
            | TreeForm::Constant(_)
            | TreeForm::TopConstant(_)
            | TreeForm::Alias(_, _)
            | TreeForm::Undef(_) => Ok(best),
            TreeForm::Text(pieces) | TreeForm::SymbolText(pieces) => check_pieces(
                pieces, context, best,
            ),
            TreeForm::ScopedConstant(e, _)
            | TreeForm::Not(e)
            | TreeForm::Unary(_, e)
            | TreeForm::Defined(e) => e.check(context, best),
            TreeForm::Array(items) => check_items(items, context, best),
            TreeForm::Hash(pairs) => check_pairs(pairs, context, best),
            TreeForm::Statements(list) => check_all(list, context, best),
            TreeForm::Operation(a, _, b) | TreeForm::And(a, b) | TreeForm::Or(a, b) => {
                check_two(a, b, context, best)
            }
            TreeForm::Range { from, to, .. } => check_two(from, to, context, best),
            TreeForm::If {
                branches,
                otherwise,
            } => check_if(branches, otherwise, context, best),
            TreeForm::Unless {
                test,
                body,
                otherwise,
            } => check_unless(test, body, otherwise, context, best),
            TreeForm::While { test, body, .. } => check_two(
                test,
                body,
                context.inside_loop(),
                best,
            ),
            TreeForm::For {
                targets,
                items,
                body,
            } => check_for(targets, items, body, context, best),
            TreeForm::Case {
                subject,
                clauses,
                otherwise,
            } => check_case(subject, clauses, otherwise, context, best),
            TreeForm::Begin(body) => check_begin(body, context, best),
            TreeForm::RescueModifier(a, b) => check_rescued(a, b, context, best),
            TreeForm::Call {
                receiver,
                arguments,
                block,
                ..
            } => check_call(receiver, arguments, block, context, best),
            TreeForm::Index(e, items) => check_index(e, items, context, best),
            TreeForm::Super {
                arguments,
                block,
                at,
            } => check_super(*at, arguments, block, context, best),
            TreeForm::Yield { items, at } => {
                check_jump(context.around.in_method, *at, items, context, best)
            }
            TreeForm::Lambda(definition) => check_definition(
                definition,
                context.inside_block(),
                best,
            ),
            TreeForm::Return { items, at } => {
                check_jump(context.around.may_return, *at, items, context, best)
            }
            TreeForm::Break { items, at } | TreeForm::Next { items, at } => {
                check_jump(context.around.in_loop, *at, items, context, best)
            }
            TreeForm::Retry { at } => Ok(noted(context.around.in_clause, *at, best)),
            TreeForm::Assign(target, e) => check_assign(target, e, context, best),
            TreeForm::OperatorAssign(target, _, e) => check_assign(target, e, context, best),
            TreeForm::MultipleAssign(list, e) => check_multiple(list, e, context, best),
            TreeForm::Targets(list) => check_targets(list, context, best),
            TreeForm::Define {
                singleton,
                definition,
                ..
            } => check_define(singleton, definition, context, best),
            TreeForm::Class {
                scope,
                parent,
                body,
                ..
            } => check_class(scope, parent, &body.body, context, best),
            TreeForm::SingletonClass(e, body) => check_singleton(e, &body.body, context, best),
            TreeForm::Module { scope, body, .. } => {
                check_module(scope, &body.body, context, best)
            }
            TreeForm::Outside { what, at, parts } => check_outside(
                *what, *at, parts, context, best,
            ),
        }
    }

    #[cycle(check)]
    #[tactic(auto, using(parser_tree::proofs::ViewsBy::views))]
    fn names_constant(&self) -> bool {
        match self {
            TreeForm::Constant(_) | TreeForm::ScopedConstant(_, _) => true,
            TreeForm::Targets(list) => has_constant(list),
            _ => false,
        }
    }

    #[cycle(check)]
    #[tactic(auto, using(crate::proofs::Names::pattern_laws))]
    fn bound_names(&self, alloc: Global, names: &mut List<Bytes>) -> Result<(), AllocError> {
        match self {
            TreeForm::Local(name) => put_name(name.as_slice(), alloc, names),
            TreeForm::Targets(list) => list_names(list, alloc, names),
            _ => Ok(()),
        }
    }
}
