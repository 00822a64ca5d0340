//! The methods of Comparable, by the program's own `<=>`.
ghost use Rattle.std.specs.Prelude.{◌≡◌, Ok};
ghost use Rattle.def_plans.specs.Plan.{Plans};
ghost use Rattle.iter_comparing.specs.Stage.{stage_of};
ghost use Rattle.iter_comparing.specs.Ordering as ordering;

use crate::row::OrderRow;
use crate::state::ComparingState;
use core_calls::heap::Heap;
use core_calls::{Call, Plan, argument};
use def_core::Cause;
use rb_value::Value;
use std::alloc::AllocError;

/// A value that is compared with one or two others: with the first of them, or with the second.
#[derive(Clone, Copy, Debug)]
pub struct Order {
    pub(crate) row: OrderRow,
    pub(crate) receiver: Value,
    pub(crate) first: Value,
    pub(crate) second: Value,
    pub(crate) at_second: bool,
}

/// How many arguments a method of Comparable takes.
pub(crate) fn arguments(row: OrderRow) -> u64
    ensures { result ≡ ordering.arguments row }
{
    match row {
        OrderRow::Between | OrderRow::Clamp => 2,
        OrderRow::Less
        | OrderRow::AtMost
        | OrderRow::Greater
        | OrderRow::AtLeast
        | OrderRow::Equal => 1,
    }
}

impl Order {
    /// The value with which the receiver is compared.
    fn other(&self) -> Value
        ensures { result ≡ ordering.other self.now }
    {
        if self.at_second {
            self.second
        } else {
            self.first
        }
    }

    /// What an answer of `<=>` comes to; nothing where the second value is compared next.
    fn hear(&self, sign: i64) -> Option<Value>
        ensures { result ≡ ordering.told self.now sign }
    {
        match self.row {
            OrderRow::Less => Some(Value::from_truth(sign < 0)),
            OrderRow::AtMost => Some(Value::from_truth(sign <= 0)),
            OrderRow::Greater => Some(Value::from_truth(sign > 0)),
            OrderRow::AtLeast => Some(Value::from_truth(sign >= 0)),
            OrderRow::Equal => Some(Value::from_truth(sign == 0)),
            OrderRow::Between => self.hear_between(sign),
            OrderRow::Clamp => self.hear_clamp(sign),
        }
    }

    /// What an answer comes to for `between?`.
    fn hear_between(&self, sign: i64) -> Option<Value>
        ensures { result ≡ ordering.between self.now.at_second sign }
    {
        if self.at_second {
            Some(Value::from_truth(sign <= 0))
        } else if sign < 0 {
            Some(Value::False)
        } else {
            None
        }
    }

    /// What an answer comes to for `clamp`.
    fn hear_clamp(&self, sign: i64) -> Option<Value>
        ensures { result ≡ ordering.clamped self.now.at_second sign self.now }
    {
        if self.at_second {
            if sign > 0 {
                Some(self.second)
            } else {
                Some(self.receiver)
            }
        } else if sign < 0 {
            Some(self.first)
        } else {
            None
        }
    }
}

/// Asks the receiver how it stands to a value.
fn ask(heap: &mut Heap, order: Order) -> Result<Plan<ComparingState>, AllocError>
    ensures { Plans stage_of heap.new result (ordering.ask heap.old order) }
{
    let name = heap.intern(b"<=>")?;
    Ok(Plan::Sends {
        then: ComparingState::Orders(order),
        receiver: order.receiver,
        name,
        args: Vec::from_slice(heap.alloc(), &[order.other()])?,
        block: None,
        public: false,
    })
}

/// Whether a value is equal to another without a call, since it is the same one.
fn is_itself(row: OrderRow, receiver: Value, first: Value) -> bool
    ensures { result ≡ ordering.is_itself row receiver first }
{
    match row {
        OrderRow::Equal => receiver == first,
        OrderRow::Less
        | OrderRow::AtMost
        | OrderRow::Greater
        | OrderRow::AtLeast
        | OrderRow::Between
        | OrderRow::Clamp => false,
    }
}

/// Begins a method of Comparable whose arguments are counted. A value is equal to itself without a call.
pub(crate) fn start(
    heap: &mut Heap,
    row: OrderRow,
    call: Call<'_>,
) -> Result<Plan<ComparingState>, AllocError>
    ensures { Plans stage_of heap.new result (ordering.begun heap.old row call.entry.receiver call.entry.args.now) }
{
    let first = argument(call.args, 0);
    if is_itself(row, call.receiver, first) {
        return Ok(Plan::Finishes(Value::True));
    }
    let order = Order {
        row,
        receiver: call.receiver,
        first,
        second: argument(call.args, 1),
        at_second: false,
    };
    ask(heap, order)
}

/// What an answer of `<=>` that is no Integer comes to.
fn refuse(heap: &Heap, order: Order) -> Plan<ComparingState>
    ensures { Plans stage_of heap.now (Ok result) (ordering.refused_by order.row heap.now order) }
{
    match order.row {
        OrderRow::Equal => Plan::Finishes(Value::False),
        _ => Plan::Fails(Cause::Incomparable {
            left: heap.plain_class_of(order.receiver),
            right: heap.plain_class_of(order.other()),
        }),
    }
}

/// Goes on with an answer of `<=>`.
pub(crate) fn go_on(
    heap: &mut Heap,
    order: Order,
    answer: Value,
) -> Result<Plan<ComparingState>, AllocError>
    ensures { Plans stage_of heap.new result (ordering.answered heap.old order answer) }
{
    let Value::Int(sign) = answer else {
        return Ok(refuse(heap, order));
    };
    match order.hear(sign) {
        Some(value) => Ok(Plan::Finishes(value)),
        None => {
            let mut order = order;
            order.at_second = true;
            ask(heap, order)
        }
    }
}
