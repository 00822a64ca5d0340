//! Operators with instructions of their own: on Integers straight on, while the methods of Integer by their names are
//! the core ones, and else as calls.
ghost use Rattle.std.specs.Prelude.{◌≡◌, IfOk, OnOk};
ghost use Rattle.vm_parts.specs.Beside as beside;
ghost use Rattle.vm_acts.specs.Arithmetic as arithmetic;

use crate::calls::call_named;
use crate::straight::Named;
use def_core::Found;
use rb_value::{CoreClass, Method, SymId, Value, Visibility};
use std::alloc::AllocError;
use vm_parts::flow::Flow;
use vm_parts::integer_operators::{Operator, operated};
use vm_parts::loaded::Loaded;
use vm_parts::parts::{Parts, behind, put};
use vm_parts::run_calls::Naming;
use vm_parts::run_rows::iter_items::ItemsRow;
use vm_parts::run_rows::iter_items::iter_comparing::ComparingRow;
use vm_parts::run_rows::row_table::{CoreRow, StringMethod};
use vm_parts::run_rows::rows_array::ArrayRow;
use vm_parts::run_rows::rows_hash::HashRow;
use vm_parts::run_rows::{PlainRow, Row, StarRow, row_at};
use vm_parts::vm_frames::Frame;

const OPERATORS: [Operator; 9] = [
    Operator::Add,
    Operator::Subtract,
    Operator::Multiply,
    Operator::Divide,
    Operator::Equal,
    Operator::Less,
    Operator::AtMost,
    Operator::Greater,
    Operator::AtLeast,
];

/// The number of the core method that is found, where everyone may call it.
fn core_method(found: Option<Found>) -> Option<u16>
    ensures { result ≡ arithmetic.core_method found }
{
    let found = found?;
    match (found.visibility, found.method) {
        (Visibility::Public, Method::Core(number)) => Some(number),
        _ => None,
    }
}

/// Whether these operators of Integer are the core methods. What is found is kept in the cache.
fn all_core(parts: &mut Parts, operators: &[Operator]) -> Result<bool, AllocError>
    ensures core { IfOk result (λ core. core ≡ arithmetic.all_core parts.old.heap.store parts.old.operators
        operators.now) }
    ensures same { beside.of parts.new ≡ beside.of parts.old }
{
    let integer = parts.heap.class_object(CoreClass::Integer);
    'operators: for operator in operators {
        let name = parts.operators.symbol(*operator);
        let found = parts.heap.find(integer, name)?;
        if core_method(found) != Some(operator.row()) {
            return Ok(false);
        }
    }
    Ok(true)
}

/// Whether what a class finds under a name is the core method of a row, which everyone may call.
fn finds_row(parts: &mut Parts, class: CoreClass, name: SymId, row: Row) -> Result<bool, AllocError>
    ensures found { IfOk result (λ found. found ≡ arithmetic.finds_row parts.old.heap.store class name row) }
    ensures same { beside.of parts.new ≡ beside.of parts.old }
{
    let class = parts.heap.class_object(class);
    let found = parts.heap.find(class, name)?;
    match core_method(found) {
        Some(number) => Ok(row_at(number) == row),
        None => Ok(false),
    }
}

/// Whether the methods of Array by the names of core calls are the core ones.
fn array_calls_core(parts: &mut Parts) -> Result<bool, AllocError>
    ensures core { IfOk result (λ core. core ≡ arithmetic.array_calls_core parts.old.heap.store
        parts.old.operators.calls) }
    ensures same { beside.of parts.new ≡ beside.of parts.old }
{
    let calls = parts.operators.calls;
    let element = Row::Plain(PlainRow::Array(ArrayRow::Element));
    let store = Row::Plain(PlainRow::Array(ArrayRow::SetElement));
    let append = Row::Plain(PlainRow::Array(ArrayRow::Append));
    Ok(
        finds_row(parts, CoreClass::Array, calls.element, element)?
            && finds_row(parts, CoreClass::Array, calls.store, store)?
            && finds_row(parts, CoreClass::Array, calls.append, append)?,
    )
}

/// Whether all methods of core calls are the core methods. What is found is kept in the cache.
fn all_calls_core(parts: &mut Parts) -> Result<bool, AllocError>
    ensures core { IfOk result (λ core. core ≡ arithmetic.all_calls_core parts.old.heap.store
        parts.old.operators.calls) }
    ensures same { beside.of parts.new ≡ beside.of parts.old }
{
    let calls = parts.operators.calls;
    let element = Row::Star(StarRow::Items(ItemsRow::Compares(ComparingRow::HashElement)));
    let store = Row::Plain(PlainRow::Hash(HashRow::Store));
    let append = Row::OfTable(Some(CoreRow::String(StringMethod::Append)));
    Ok(
        array_calls_core(parts)?
            && finds_row(parts, CoreClass::Hash, calls.element, element)?
            && finds_row(parts, CoreClass::Hash, calls.store, store)?
            && finds_row(parts, CoreClass::String, calls.append, append)?,
    )
}

/// Notes whether the operators of Integer, and the methods of core calls, are the core methods under the heap's count of
/// changes.
#[cold]
#[tactic(auto, unfolding(vm_parts::specs::Known::is_last))]
fn look(parts: &mut Parts) -> Result<bool, AllocError>
    ensures core { IfOk result (λ core. core ≡ arithmetic.are_core_now (beside.of parts.old)) }
    ensures noted { OnOk result (beside.of parts.new ≡ arithmetic.looked (beside.of parts.old)) }
{
    let changes = parts.heap.changes();
    if changes == u64::MAX {
        return Ok(false);
    }
    let are_core = all_core(parts, &OPERATORS)?;
    let calls_are_core = all_calls_core(parts)?;
    parts.operators.are_core = are_core;
    parts.operators.calls.are_core = calls_are_core;
    parts.operators.seen_under = Some(changes);
    Ok(are_core)
}

/// Whether the operators of Integer are the core methods.
#[inline(always)]
fn are_core(parts: &mut Parts) -> Result<bool, AllocError>
    ensures core { IfOk result (λ core. core ≡ arithmetic.are_core (beside.of parts.old)) }
    ensures noted { OnOk result (beside.of parts.new ≡ arithmetic.noted (beside.of parts.old)) }
{
    if parts.operators.seen_under == Some(parts.heap.changes()) {
        Ok(parts.operators.are_core)
    } else {
        look(parts)
    }
}

/// An operator's instruction as a call of its method.
fn operate_by_call(
    code: &Loaded,
    hot: &mut Frame,
    parts: &mut Parts,
    operator: Operator,
    a: u16,
) -> Result<Flow, AllocError>
    ensures { IfOk result (λ flow. arithmetic.CallsOperator code.now (beside.of parts.old) hot.old operator a flow
        hot.new (beside.of parts.new)) }
{
    let name = parts.operators.symbol(operator);
    let named = Named {
        naming: Naming::ByName,
        name,
        a,
        count: 1,
        block: None,
    };
    call_named(code, hot, parts, &named)
}

/// What an operator gives for registers `a` and `a + 1` straight on; nothing, where its method has to be called.
#[inline(always)]
fn given_straight(
    hot: &Frame,
    parts: &mut Parts,
    operator: Operator,
    a: u16,
) -> Result<Option<Value>, AllocError>
    ensures given { IfOk result (λ value. value ≡ arithmetic.straight (beside.of parts.old) hot.now operator a) }
    ensures noted { OnOk result (beside.of parts.new ≡ arithmetic.noted (beside.of parts.old)) }
{
    if !are_core(parts)? {
        return Ok(None);
    }
    let right = parts.get(hot, behind(a));
    Ok(operated(operator, parts.get(hot, a), right))
}

/// An operator's instruction on registers `a` and `a + 1`.
pub fn operate(
    code: &Loaded,
    hot: &mut Frame,
    parts: &mut Parts,
    operator: Operator,
    a: u16,
) -> Result<Flow, AllocError>
    ensures { IfOk result (λ flow. arithmetic.Operates code.now (beside.of parts.old) hot.old operator a flow hot.new
        (beside.of parts.new)) }
{
    match given_straight(hot, parts, operator, a)? {
        Some(value) => {
            put(hot, parts, a, value);
            Ok(Flow::Stays)
        }
        None => operate_by_call(code, hot, parts, operator, a),
    }
}
