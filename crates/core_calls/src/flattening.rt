//! The elements of nested Arrays, one after another, down to 10,000 levels: the values that are given are those of the
//! first. Nested Arrays are passed with a stack of their own, so that no depth of a program's Arrays is one of the
//! machine's stack.
ghost use Rattle.std.specs.Prelude.{◌≡◌, IfOk, option_map};
ghost use Rattle.core_calls.specs.Flat as flat;

use heap::Heap;
use rb_value::{ObjId, Value};
use std::alloc::AllocError;

/// How many levels of Arrays that have elements may be nested within the values.
const MOST: usize = 9_999;

/// What an Array without elements comes to.
#[derive(Clone, Copy, Debug, PartialEq, Eq)]
pub enum Empty {
    /// Nothing, however deep it stands.
    Vanishes,
    /// Nothing; one that stands too deep is refused, as those with elements are.
    Counts,
    /// The Array itself.
    Stays,
}

/// The elements of an Array from a place on.
#[derive(Clone, Copy)]
pub(crate) struct Level {
    pub(crate) array: ObjId,
    pub(crate) place: usize,
}

/// The values that were passed, and the Arrays that are being passed, the innermost last.
#[derive(Drop)]
pub(crate) struct Walk {
    pub(crate) empty: Empty,
    pub(crate) values: Vec<Value>,
    pub(crate) levels: Vec<Level>,
}

impl Walk {
    /// Passes a value: the elements of an Array come next, and any other value is put after the others. It gives false
    /// where Arrays are nested too deep.
    fn pass(&mut self, heap: &Heap, value: Value) -> Result<bool, AllocError>
        ensures { IfOk result (λ whole. flat.Passes heap.now.store.objects self.old value self.new whole) }
    {
        match heap.an_array(value) {
            Some(array) => self.enter(heap, value, array),
            None => {
                self.values.push(value)?;
                Ok(true)
            }
        }
    }

    /// Passes an Array without elements.
    fn pass_empty(&mut self, value: Value) -> Result<bool, AllocError>
        ensures { IfOk result (λ whole. flat.PassesEmpty self.old value self.new whole) }
    {
        match self.empty {
            Empty::Vanishes => Ok(true),
            Empty::Counts => Ok(self.levels.len() < MOST),
            Empty::Stays => {
                self.values.push(value)?;
                Ok(true)
            }
        }
    }

    /// Goes on with the elements of an Array that a value is.
    #[tactic(auto, using(crate::proofs::Flat::enters_deep))]
    fn enter(&mut self, heap: &Heap, value: Value, array: ObjId) -> Result<bool, AllocError>
        ensures { IfOk result (λ whole. flat.Enters heap.now.store.objects self.old value array self.new whole) }
    {
        if heap.elements(array).is_empty() {
            return self.pass_empty(value);
        }
        if self.levels.len() >= MOST {
            return Ok(false);
        }
        self.levels.push(Level { array, place: 0 })?;
        Ok(true)
    }

    /// The next element of the innermost Array; nothing after the last one, whose Array is left then.
    fn step(&mut self, heap: &Heap) -> Result<Option<Value>, AllocError>
        ensures { IfOk result (λ value. flat.Steps heap.now.store.objects self.old self.new value) }
    {
        let Some(level) = self.levels.pop() else {
            return Ok(None);
        };
        let elements = heap.elements(level.array);
        if level.place >= elements.len() {
            return Ok(None);
        }
        let value = elements[level.place];
        self.levels.push(Level {
            array: level.array,
            place: level.place + 1,
        })?;
        Ok(Some(value))
    }

    /// Passes the Arrays that are being passed to their ends.
    #[tactic(auto, using(crate::proofs::Flat::turns_some))]
    fn finish(&mut self, heap: &Heap) -> Result<bool, AllocError>
        ensures { IfOk result (λ whole. flat.Ends heap.now.store.objects self.old self.new whole) }
    {
        'elements: while !self.levels.is_empty() {
            if let Some(value) = self.step(heap)? {
                if !self.pass(heap, value)? {
                    return Ok(false);
                }
            }
        }
        Ok(true)
    }
}

/// These values with the elements of each Array in its place; nothing where Arrays are nested too deep.
pub fn flattened(
    heap: &Heap,
    values: &[Value],
    empty: Empty,
) -> Result<Option<Vec<Value>>, AllocError>
    ensures { IfOk result (λ found. option_map (λ vs. vs.items) found
        ≡ flat.flattened empty heap.now.store values.now) }
{
    let mut walk = Walk {
        empty,
        values: Vec::new(heap.alloc()),
        levels: Vec::new(heap.alloc()),
    };
    'values: for value in values {
        if !walk.pass(heap, *value)? {
            return Ok(None);
        }
        if !walk.finish(heap)? {
            return Ok(None);
        }
    }
    Ok(Some(walk.values))
}
