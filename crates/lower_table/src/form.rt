//! The lowering of each form of tree.
ghost use Rattle.std.specs.Prelude.{◌≡◌, ◌+◌, IfOk};
ghost use Rattle.parser_tree.specs.View.{form_view};
ghost use Rattle.lower_table.specs.Parts.{count};
ghost use Rattle.parser_tree.specs.PartsBy.{items_by, trees_by};
ghost use Rattle.lower_table.specs.Lowering as table;
ghost use Rattle.lower_table.specs.TreeNodes.{view-is_tree};

use crate::asked::{ask_call, ask_method, ask_scoped, ask_statements};
use crate::branches::{lower_case, lower_if, lower_unless, lower_while};
use crate::calls::{lower_call, lower_super};
use crate::clauses::{lower_begin, lower_for};
use crate::definitions::{lower_class, lower_module, lower_singleton_class};
use crate::functions::{lower_define, lower_lambda};
use crate::jumps::{Jump, lower_jump, lower_yield};
use crate::lists::{lower_array, lower_hash, lower_statements};
use crate::lower::{Lower, Whole, deeper};
use crate::operated::{lower_operated, operate_attribute, operate_index, operate_scoped};
use crate::operators::{
    Joined, lower_index, lower_joined, lower_not, lower_operation, lower_range, lower_scoped,
    lower_unary,
};
use crate::places::{store_attribute, store_index, store_scoped};
use crate::stores::{group_width, lower_assign, lower_multiple, store_targets};
use crate::target::{Target, operate_target};
use crate::texts::{lower_symbol_text, lower_text};
use ir_builder::calls::{asks, asks_of_object};
use ir_builder::leaf::{
    alias, constant, global_variable, instance_variable, local, named, nil, set_constant,
    set_global_variable, set_instance_variable, set_local, symbol, symbol_array, top_constant,
    undef, word_array,
};
use ir_core::{Core, Local, Term};
use parser_tree::{AssignmentOperator, Tree, TreeForm};
use rb_syntax::{DefinedKind, Item};
use std::alloc::{AllocError, Global};

/// The forms that no assignment and no `defined?` tells from one another.
macro_rules! plain_form {
    () => {
        TreeForm::Nil
            | TreeForm::True
            | TreeForm::False
            | TreeForm::Integer(_)
            | TreeForm::Text(_)
            | TreeForm::Symbol(_)
            | TreeForm::SymbolText(_)
            | TreeForm::Words(_)
            | TreeForm::Symbols(_)
            | TreeForm::Array(_)
            | TreeForm::Hash(_)
            | TreeForm::And(_, _)
            | TreeForm::Or(_, _)
            | TreeForm::Range { .. }
            | TreeForm::If { .. }
            | TreeForm::Unless { .. }
            | TreeForm::While { .. }
            | TreeForm::For { .. }
            | TreeForm::Case { .. }
            | TreeForm::Begin(_)
            | TreeForm::RescueModifier(_, _)
            | TreeForm::Defined(_)
            | TreeForm::Lambda(_)
            | TreeForm::Return { .. }
            | TreeForm::Break { .. }
            | TreeForm::Next { .. }
            | TreeForm::Retry { .. }
            | TreeForm::Define { .. }
            | TreeForm::Class { .. }
            | TreeForm::SingletonClass(_, _)
            | TreeForm::Module { .. }
            | TreeForm::Alias(_, _)
            | TreeForm::Undef(_)
            | TreeForm::Outside { .. }
    };
}

/// The hidden locals of an index.
#[tactic(auto, using(crate::proofs::Counts::counted))]
fn width_of(items: &Vec<Item<Tree>>) -> Result<usize, AllocError>
    ensures { IfOk result (λ n. n ≡ count (items_by form_view items.now.items) + 2) }
{
    deeper(items.len(), 2)
}

/// The hidden locals of a group with these targets after a star.
#[tactic(auto, using(crate::proofs::Counts::counted))]
fn width_after(targets: &Vec<Tree>) -> usize
    ensures { result ≡ table.group_width (count (trees_by form_view targets.now.items)) }
{
    group_width(targets.len())
}

impl Whole for TreeForm {
    ghost node = { λ t. form_view t };

    #[tactic(auto, using(parser_tree::proofs::ViewsBy::views))]
    fn past(&self, depth: usize) -> Result<usize, AllocError> {
        match self {
            TreeForm::Call { .. } => deeper(depth, 2),
            TreeForm::Index(_, items) => {
                let width = width_of(items)?;
                let past = deeper(depth, width)?;
                Ok(past)
            }
            TreeForm::Targets(targets) => {
                let width = width_after(&targets.after);
                let past = deeper(depth, width)?;
                Ok(past)
            }
            plain_form!()
            | TreeForm::SelfReference
            | TreeForm::Local(_)
            | TreeForm::InstanceVariable(_)
            | TreeForm::GlobalVariable(_)
            | TreeForm::Constant(_)
            | TreeForm::TopConstant(_)
            | TreeForm::ScopedConstant(_, _)
            | TreeForm::Statements(_)
            | TreeForm::Not(_)
            | TreeForm::Unary(_, _)
            | TreeForm::Operation(_, _, _)
            | TreeForm::Super { .. }
            | TreeForm::Yield { .. }
            | TreeForm::Assign(_, _)
            | TreeForm::OperatorAssign(_, _, _)
            | TreeForm::MultipleAssign(_, _) => Ok(depth),
        }
    }

    ghost whole = { view-is_tree };
}

impl Lower for TreeForm {
    #[cycle(lower)]
    #[tactic(auto, using(parser_tree::proofs::ViewsBy::views))]
    fn lower(
        &self,
        alloc: Global,
        passed: &[Item<Local>],
        depth: usize,
    ) -> Result<Core, AllocError> {
        match self {
            TreeForm::Nil => nil(alloc),
            TreeForm::True => Term::True.into_core(alloc),
            TreeForm::False => Term::False.into_core(alloc),
            TreeForm::SelfReference => Term::SelfRef.into_core(alloc),
            TreeForm::Integer(n) => Term::Int(*n).into_core(alloc),
            TreeForm::Text(pieces) => lower_text(alloc, passed, depth, pieces),
            TreeForm::Symbol(name) => symbol(alloc, name.as_slice()),
            TreeForm::SymbolText(pieces) => lower_symbol_text(alloc, passed, depth, pieces),
            TreeForm::Words(words) => word_array(alloc, words.as_slice()),
            TreeForm::Symbols(names) => symbol_array(alloc, names.as_slice()),
            TreeForm::Local(name) => {
                let variable = named(alloc, name.as_slice())?;
                let core = local(alloc, variable)?;
                Ok(core)
            }
            TreeForm::InstanceVariable(name) => instance_variable(alloc, name.as_slice()),
            TreeForm::GlobalVariable(name) => global_variable(alloc, name.as_slice()),
            TreeForm::Constant(name) => constant(alloc, name.as_slice()),
            TreeForm::TopConstant(name) => top_constant(alloc, name.as_slice()),
            TreeForm::ScopedConstant(scope, name) => {
                lower_scoped(alloc, passed, depth, scope, name.as_slice())
            }
            TreeForm::Array(items) => lower_array(alloc, passed, depth, items),
            TreeForm::Hash(pairs) => lower_hash(alloc, passed, depth, pairs),
            TreeForm::Statements(list) => lower_statements(alloc, passed, depth, list),
            TreeForm::Not(e) => lower_not(alloc, passed, depth, e),
            TreeForm::Unary(operator, e) => lower_unary(alloc, passed, depth, *operator, e),
            TreeForm::Operation(a, operator, b) => {
                lower_operation(alloc, passed, depth, a, *operator, b)
            }
            TreeForm::And(a, b) => lower_joined(alloc, passed, depth, Joined::And, a, b),
            TreeForm::Or(a, b) => lower_joined(alloc, passed, depth, Joined::Or, a, b),
            TreeForm::Range {
                from,
                to,
                exclusive,
                at,
            } => lower_range(alloc, passed, depth, from, to, *exclusive, *at),
            TreeForm::If {
                branches,
                otherwise,
            } => lower_if(alloc, passed, depth, branches, otherwise),
            TreeForm::Unless {
                test,
                body,
                otherwise,
            } => lower_unless(alloc, passed, depth, test, body, otherwise),
            TreeForm::While {
                until,
                body_first,
                test,
                body,
            } => lower_while(alloc, passed, depth, *until, *body_first, test, body),
            TreeForm::For {
                targets,
                items,
                body,
            } => lower_for(alloc, passed, depth, targets, items, body),
            TreeForm::Case {
                subject,
                clauses,
                otherwise,
            } => lower_case(alloc, passed, depth, subject, clauses, otherwise),
            TreeForm::Begin(body) => lower_begin(alloc, passed, depth, body),
            TreeForm::RescueModifier(a, b) => {
                lower_joined(alloc, passed, depth, Joined::Rescue, a, b)
            }
            TreeForm::Call {
                receiver,
                name,
                arguments,
                block,
            } => lower_call(
                alloc,
                passed,
                depth,
                receiver,
                name.as_slice(),
                arguments,
                block,
            ),
            TreeForm::Index(e, items) => lower_index(alloc, passed, depth, e, items),
            TreeForm::Super {
                arguments,
                block,
                ..
            } => lower_super(alloc, passed, depth, arguments, block),
            TreeForm::Yield { items, .. } => lower_yield(alloc, passed, depth, items),
            TreeForm::Defined(e) => e.ask(alloc, passed, depth),
            TreeForm::Lambda(definition) => lower_lambda(alloc, passed, definition),
            TreeForm::Return { items, .. } => {
                lower_jump(alloc, passed, depth, Jump::Return, items)
            }
            TreeForm::Break { items, .. } => {
                lower_jump(alloc, passed, depth, Jump::Break, items)
            }
            TreeForm::Next { items, .. } => { lower_jump(alloc, passed, depth, Jump::Next, items) }
            TreeForm::Retry { .. } => Term::Retry.into_core(alloc),
            TreeForm::Assign(target, value) => lower_assign(alloc, passed, depth, target, value),
            TreeForm::OperatorAssign(target, operator, value) => {
                lower_operated(alloc, passed, depth, target, *operator, value)
            }
            TreeForm::MultipleAssign(targets, value) => {
                lower_multiple(alloc, passed, depth, targets, value)
            }
            TreeForm::Targets(_) | TreeForm::Outside { .. } => nil(alloc),
            TreeForm::Define {
                singleton,
                name,
                definition,
            } => lower_define(alloc, passed, depth, singleton, name.as_slice(), definition),
            TreeForm::Class {
                scope,
                name,
                parent,
                body,
            } => lower_class(alloc, passed, depth, scope, name.as_slice(), parent, body),
            TreeForm::SingletonClass(e, body) => lower_singleton_class(
                alloc, passed, depth, e, body,
            ),
            TreeForm::Module { scope, name, body } => {
                lower_module(alloc, passed, depth, scope, name.as_slice(), body)
            }
            TreeForm::Alias(new_name, old_name) => {
                alias(alloc, new_name.as_slice(), old_name.as_slice())
            }
            TreeForm::Undef(names) => undef(alloc, names.as_slice()),
        }
    }

    #[cycle(lower)]
    #[tactic(auto, using(parser_tree::proofs::ViewsBy::views))]
    fn store(
        &self,
        alloc: Global,
        passed: &[Item<Local>],
        depth: usize,
        value: Core,
    ) -> Result<Core, AllocError> {
        match self {
            TreeForm::Local(name) => {
                let variable = named(alloc, name.as_slice())?;
                let core = set_local(alloc, variable, value)?;
                Ok(core)
            }
            TreeForm::InstanceVariable(name) => {
                set_instance_variable(alloc, name.as_slice(), value)
            }
            TreeForm::GlobalVariable(name) => set_global_variable(alloc, name.as_slice(), value),
            TreeForm::Constant(name) => set_constant(alloc, name.as_slice(), value),
            TreeForm::ScopedConstant(scope, name) => {
                store_scoped(alloc, passed, depth, scope, name.as_slice(), value)
            }
            TreeForm::Call { receiver, name, .. } => {
                store_attribute(alloc, passed, depth, receiver, name.as_slice(), value)
            }
            TreeForm::Index(e, items) => store_index(alloc, passed, depth, e, items, value),
            TreeForm::Targets(targets) => store_targets(alloc, passed, depth, targets, value),
            plain_form!()
            | TreeForm::SelfReference
            | TreeForm::TopConstant(_)
            | TreeForm::Statements(_)
            | TreeForm::Not(_)
            | TreeForm::Unary(_, _)
            | TreeForm::Operation(_, _, _)
            | TreeForm::Super { .. }
            | TreeForm::Yield { .. }
            | TreeForm::Assign(_, _)
            | TreeForm::OperatorAssign(_, _, _)
            | TreeForm::MultipleAssign(_, _) => Ok(value),
        }
    }

    #[cycle(lower)]
    #[tactic(auto, using(parser_tree::proofs::ViewsBy::views))]
    fn operate(
        &self,
        alloc: Global,
        passed: &[Item<Local>],
        depth: usize,
        operator: AssignmentOperator,
        value: Core,
    ) -> Result<Core, AllocError> {
        match self {
            TreeForm::Local(name) => {
                operate_target(alloc, Target::Local(name.as_slice()), operator, value)
            }
            TreeForm::InstanceVariable(name) => {
                let target = Target::InstanceVariable(name.as_slice());
                operate_target(alloc, target, operator, value)
            }
            TreeForm::GlobalVariable(name) => {
                let target = Target::GlobalVariable(name.as_slice());
                operate_target(alloc, target, operator, value)
            }
            TreeForm::Constant(name) => {
                operate_target(alloc, Target::Constant(name.as_slice()), operator, value)
            }
            TreeForm::ScopedConstant(scope, name) => {
                operate_scoped(
                    alloc,
                    passed,
                    depth,
                    scope,
                    name.as_slice(),
                    operator,
                    value,
                )
            }
            TreeForm::Call { receiver, name, .. } => {
                operate_attribute(
                    alloc,
                    passed,
                    depth,
                    receiver,
                    name.as_slice(),
                    operator,
                    value,
                )
            }
            TreeForm::Index(e, items) => operate_index(
                alloc, passed, depth, e, items, operator, value,
            ),
            plain_form!()
            | TreeForm::SelfReference
            | TreeForm::TopConstant(_)
            | TreeForm::Statements(_)
            | TreeForm::Not(_)
            | TreeForm::Unary(_, _)
            | TreeForm::Operation(_, _, _)
            | TreeForm::Super { .. }
            | TreeForm::Yield { .. }
            | TreeForm::Assign(_, _)
            | TreeForm::OperatorAssign(_, _, _)
            | TreeForm::MultipleAssign(_, _)
            | TreeForm::Targets(_) => Ok(value),
        }
    }

    #[cycle(lower)]
    #[tactic(auto, using(parser_tree::proofs::ViewsBy::views))]
    fn ask(&self, alloc: Global, passed: &[Item<Local>], depth: usize) -> Result<Core, AllocError> {
        match self {
            TreeForm::SelfReference => asks(alloc, DefinedKind::SelfReference, b""),
            TreeForm::Local(name) => asks(alloc, DefinedKind::LocalVariable, name.as_slice()),
            TreeForm::InstanceVariable(name) => {
                asks(alloc, DefinedKind::InstanceVariable, name.as_slice())
            }
            TreeForm::GlobalVariable(name) => {
                asks(alloc, DefinedKind::GlobalVariable, name.as_slice())
            }
            TreeForm::Constant(name) => asks(alloc, DefinedKind::Constant, name.as_slice()),
            TreeForm::TopConstant(name) => asks_of_object(alloc, name.as_slice()),
            TreeForm::ScopedConstant(scope, name) => {
                ask_scoped(alloc, passed, depth, scope, name.as_slice())
            }
            TreeForm::Statements(list) => ask_statements(alloc, passed, depth, list),
            TreeForm::Not(e) => ask_method(alloc, passed, depth, e, b"!"),
            TreeForm::Unary(operator, e) => ask_method(alloc, passed, depth, e, operator.name()),
            TreeForm::Operation(a, operator, _) => {
                ask_method(alloc, passed, depth, a, operator.name())
            }
            TreeForm::Call { receiver, name, .. } => {
                ask_call(alloc, passed, depth, receiver, name.as_slice())
            }
            TreeForm::Index(e, _) => ask_method(alloc, passed, depth, e, b"[]"),
            TreeForm::Super { .. } => asks(alloc, DefinedKind::Super, b""),
            TreeForm::Yield { .. } => asks(alloc, DefinedKind::Yield, b""),
            TreeForm::Assign(_, _)
            | TreeForm::OperatorAssign(_, _, _)
            | TreeForm::MultipleAssign(_, _) => asks(alloc, DefinedKind::Assignment, b""),
            plain_form!() | TreeForm::Targets(_) => {
                let asked = asks(alloc, DefinedKind::Expression, b"")?;
                Ok(asked)
            }
        }
    }

    #[tactic(auto, using(parser_tree::proofs::ViewsBy::views))]
    fn past_operated(&self, depth: usize) -> Result<usize, AllocError> {
        match self {
            TreeForm::Call { .. } => deeper(depth, 2),
            TreeForm::Index(_, items) => {
                let width = width_of(items)?;
                let past = deeper(depth, width)?;
                Ok(past)
            }
            TreeForm::ScopedConstant(_, _) => deeper(depth, 1),
            plain_form!()
            | TreeForm::SelfReference
            | TreeForm::Local(_)
            | TreeForm::InstanceVariable(_)
            | TreeForm::GlobalVariable(_)
            | TreeForm::Constant(_)
            | TreeForm::TopConstant(_)
            | TreeForm::Statements(_)
            | TreeForm::Not(_)
            | TreeForm::Unary(_, _)
            | TreeForm::Operation(_, _, _)
            | TreeForm::Super { .. }
            | TreeForm::Yield { .. }
            | TreeForm::Assign(_, _)
            | TreeForm::OperatorAssign(_, _, _)
            | TreeForm::MultipleAssign(_, _)
            | TreeForm::Targets(_) => Ok(depth),
        }
    }
}
