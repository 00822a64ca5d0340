//! The order of Integers, of Strings, and of Arrays of such element by element. Nested Arrays are passed with a stack
//! of their own, down to 10,000 levels.
ghost use Rattle.std.specs.Prelude.{◌≡◌, ◌-◌, ◌<◌, [], ◌∷◌, ◌++◌, ◌+◌, ◌^◌, slice_get, IfSome, IfOk, OnOk};
ghost use Rattle.def_core.specs.Parts.{elements_at, text_at};
ghost use Rattle.std.specs.Ordering.{nat_cmp};
ghost use Rattle.std.specs.Cmp.Lexicographic.{slice_cmp};
ghost use Rattle.rows_items.specs.Order as order;
ghost use Rattle.rows_items.specs.Told.{Told};
ghost use Rattle.rows_items.specs.Walks as walks;

use crate::error::RowError;
use core_calls::heap::Heap;
use def_core::Cause;
use rb_value::{ObjId, Value};
use std::alloc::AllocError;
use std::cmp::Ordering;

/// How many levels of Arrays may be nested in an Array that is compared.
const NESTED_LEVELS: u64 = 9_999;

/// What a comparison of two values tells.
#[derive(Clone, Copy)]
pub enum Comparison {
    Ordered(Ordering),
    /// The elements of two Arrays tell.
    Within(ObjId, ObjId),
    Unordered,
}

/// Two Arrays whose elements before a place are equal, and how many levels of Arrays may be nested in them.
#[derive(Clone, Copy)]
pub struct Level {
    left: ObjId,
    right: ObjId,
    place: usize,
    below: u64,
}

/// The level that is being compared, and those around it, the innermost last.
#[derive(Drop)]
pub struct Walk {
    level: Level,
    around: Vec<Level>,
}

/// What a step of a walk comes to.
#[derive(Clone, Copy)]
pub enum Step {
    On,
    Ends(Result<Ordering, Cause>),
}

/// The order of two texts.
fn text_order(heap: &Heap, left: ObjId, right: ObjId) -> Ordering
    ensures { result ≡ slice_cmp nat_cmp (text_at heap.now.store.objects left) (text_at heap.now.store.objects right) }
{
    heap.text(left).cmp(heap.text(right))
}

/// Compares two values that aren't the same without the elements of Arrays.
fn unequal_compared(heap: &Heap, left: Value, right: Value) -> Comparison
    ensures { result ≡ order.unequal_compared heap.now.store left right }
{
    if let (Some(left), Some(right)) = (heap.a_string(left), heap.a_string(right)) {
        return Comparison::Ordered(text_order(heap, left, right));
    }
    match (heap.an_array(left), heap.an_array(right)) {
        (Some(left), Some(right)) => Comparison::Within(left, right),
        _ => Comparison::Unordered,
    }
}

/// Compares two values without the elements of Arrays.
fn compared(heap: &Heap, left: Value, right: Value) -> Comparison
    ensures { result ≡ order.compared heap.now.store left right }
{
    if let (Value::Int(left), Value::Int(right)) = (left, right) {
        return Comparison::Ordered(left.cmp(&right));
    }
    if left == right {
        return Comparison::Ordered(Ordering::Equal);
    }
    unequal_compared(heap, left, right)
}

/// The element of an Array at a place.
fn element_at(heap: &Heap, id: ObjId, place: usize) -> Option<Value>
    ensures element { result ≡ slice_get (elements_at heap.now.store.objects id) place }
    ensures within { IfSome result (λ v. place + 1 < 2 ^ 64) }
{
    heap.elements(id).get(place).copied()
}

impl Walk {
    /// Goes on with the level around the one that is compared.
    fn leave(&mut self) -> Step
        ensures { walks.Leaves result self.old self.new }
    {
        match self.around.pop() {
            Some(level) => {
                self.level = level;
                Step::On
            }
            None => Step::Ends(Ok(Ordering::Equal)),
        }
    }

    /// Goes on with the elements of two Arrays.
    fn enter(&mut self, left: ObjId, right: ObjId) -> Result<(), AllocError>
        requires { 0 < self.old.level.below }
        ensures level { OnOk result (self.new.level ≡
            record { left = left; right = right; place = 0; below = self.old.level.below - 1 }) }
        ensures around { OnOk result (self.new.around.items ≡ self.old.around.items ++ self.old.level ∷ []) }
    {
        self.around.push(self.level)?;
        self.level = Level {
            left,
            right,
            place: 0,
            below: self.level.below - 1,
        };
        Ok(())
    }

    /// Compares two values: the elements of Arrays come next, and any others tell at once.
    #[tactic(auto, using(crate::proofs::Walks::passed_equal, crate::proofs::Walks::passed_less, crate::proofs::Walks::passed_greater, crate::proofs::Walks::passed_unordered, crate::proofs::Walks::passed_deep, crate::proofs::Walks::entered))]
    fn pass(&mut self, heap: &Heap, left: Value, right: Value) -> Result<Step, AllocError>
        ensures { IfOk result (λ step. walks.Passes heap.now.store left right step self.old self.new) }
    {
        match compared(heap, left, right) {
            Comparison::Ordered(Ordering::Equal) => Ok(Step::On),
            Comparison::Ordered(order) => Ok(Step::Ends(Ok(order))),
            Comparison::Unordered => Ok(Step::Ends(Err(Cause::ComparisonFailed))),
            Comparison::Within(left, right) => {
                if self.level.below == 0 {
                    return Ok(Step::Ends(Err(Cause::StackTooDeep)));
                }
                self.enter(left, right)?;
                Ok(Step::On)
            }
        }
    }

    /// Compares the next elements; where only one Array has one, the other is the lesser.
    #[tactic(auto, using(crate::proofs::Walks::left_comes, crate::proofs::Walks::passed_comes, crate::proofs::Walks::left_greater, crate::proofs::Walks::left_less))]
    fn step(&mut self, heap: &Heap) -> Result<Step, AllocError>
        ensures { IfOk result (λ step. walks.Comes heap.now.store step self.old self.new) }
    {
        let left = element_at(heap, self.level.left, self.level.place);
        let right = element_at(heap, self.level.right, self.level.place);
        match (left, right) {
            (Some(left), Some(right)) => {
                self.level.place += 1;
                self.pass(heap, left, right)
            }
            (Some(_), None) => Ok(Step::Ends(Ok(Ordering::Greater))),
            (None, Some(_)) => Ok(Step::Ends(Ok(Ordering::Less))),
            (None, None) => Ok(self.leave()),
        }
    }
}

/// The order of two Arrays.
fn array_order(heap: &Heap, left: ObjId, right: ObjId) -> Result<Ordering, RowError>
    ensures { Told result (order.arrays_order (order.order_within 9999 heap.now.store) heap.now.store left right) }
{
    let mut walk = Walk {
        level: Level {
            left,
            right,
            place: 0,
            below: NESTED_LEVELS,
        },
        around: Vec::new(heap.alloc()),
    };
    'steps: loop {
        match walk.step(heap)? {
            Step::On => {}
            Step::Ends(Ok(order)) => return Ok(order),
            Step::Ends(Err(cause)) => return Err(RowError::Fails(cause)),
        }
    }
}

/// The order of two values: of Integers, of Strings by their bytes, and of Arrays by the first elements that differ.
/// Other values have none but with themselves.
#[tactic(auto, using(crate::proofs::Walks::at_once, crate::proofs::Walks::unordered, crate::proofs::Walks::by_elements))]
pub fn order_of(heap: &Heap, left: Value, right: Value) -> Result<Ordering, RowError>
    ensures { Told result (order.order_of heap.now.store left right) }
{
    match compared(heap, left, right) {
        Comparison::Ordered(order) => Ok(order),
        Comparison::Within(left, right) => array_order(heap, left, right),
        Comparison::Unordered => Err(RowError::Fails(Cause::ComparisonFailed)),
    }
}
