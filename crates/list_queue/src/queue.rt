ghost use Rattle.std.specs.Prelude.{◌≡◌, ◌==◌, ◌+◌, ◌-◌, ◌<◌, ◌≤◌, ◌^◌, ◌++◌, ◌∷◌, [], length, drop, take, slice_get, slice_set, IfOk, OnOk, OnErr};

use std::alloc::{AllocError, Global};
use std::marker::Model;

/// Values in order, seen as their list. They lie side by side, after places that hold none of them: those of values
/// that were taken off the front, and room for more.
#[derive(Drop)]
pub struct Queue<T> {
    items: Vec<T>,
    start: usize,
}

impl<T> Model for Queue<T> {
    ghost use Rattle.std.specs.Prelude as prelude;
    ghost use Rattle.std.specs.Prelude.{◌≤◌};

    ghost Value = { prelude.List T };

    ghost view = { λ q. prelude.drop q.start q.items.items };

    ghost invariant = { λ q. q.start ≤ prelude.length q.items.items };
}

impl<T> Queue<T> {
    /// The empty list. It takes no memory.
    pub fn new(alloc: Global) -> Queue<T>
        ensures { result ≡ [] }
    {
        Queue {
            items: Vec::new(alloc),
            start: 0,
        }
    }

    /// The list of a vector's values. It takes no memory.
    pub fn from_vec(items: Vec<T>) -> Queue<T>
        ensures { result ≡ items.items }
    {
        Queue { items, start: 0 }
    }

    /// The values as a slice.
    pub fn as_slice(&self) -> &[T]
        ensures { result.now ≡ self.now }
    {
        &self.items[self.start..]
    }

    /// How many values there are.
    pub fn len(&self) -> usize
        ensures { result ≡ length self.now }
    {
        self.items.len() - self.start
    }

    /// Whether there is no value.
    pub fn is_empty(&self) -> bool
        ensures { result ≡ (length self.now == 0) }
    {
        self.len() == 0
    }
}

impl<T: Copy + Drop> Queue<T> {
    /// The values as a vector. It takes no memory.
    pub fn into_vec(self) -> Vec<T>
        ensures { result.items ≡ self }
    {
        let Queue { mut items, start } = self;
        close_front(&mut items, start);
        items
    }

    /// Puts a value in the place of another.
    pub fn set(&mut self, place: usize, value: T)
        requires { place < length self.old }
        ensures { self.new ≡ slice_set self.old place value }
    {
        self.items[self.start + place] = value;
    }

    /// Gives the places before the first value up where no room is left at the end and they are more than half of all.
    fn reuse_front(&mut self)
        ensures { self.new ≡ self.old }
    {
        if self.items.len() == self.items.capacity() && self.start > self.items.len() / 2 {
            close_front(&mut self.items, self.start);
            self.start = 0;
        }
    }

    /// Puts a value at the end. Where memory runs out the list is as before.
    pub fn push(&mut self, value: T) -> Result<(), AllocError>
        ensures ok { OnOk result (self.new ≡ self.old ++ value ∷ []) }
        ensures err { OnErr result (self.new ≡ self.old) }
    {
        self.reuse_front();
        self.items.push(value)?;
        Ok(())
    }

    /// Puts values at the end, in their order. Where memory runs out the list is as before.
    pub fn append(&mut self, values: &[T]) -> Result<(), AllocError>
        ensures ok { OnOk result (self.new ≡ self.old ++ values.now) }
        ensures err { OnErr result (self.new ≡ self.old) }
    {
        self.items.extend_from_slice(values)?;
        Ok(())
    }

    /// Takes the last value off.
    pub fn pop(&mut self) -> Option<T>
        ensures last { result ≡ slice_get self.old (length self.old - 1) }
        ensures rest { self.new ≡ take (length self.old - 1) self.old }
    {
        if self.start == self.items.len() {
            return None;
        }
        self.items.pop()
    }

    /// Takes the first value off. It moves none of the others.
    pub fn shift(&mut self) -> Option<T>
        ensures first { result ≡ slice_get self.old 0 }
        ensures rest { self.new ≡ drop 1 self.old }
    {
        if self.start == self.items.len() {
            return None;
        }
        let value = self.items[self.start];
        self.start += 1;
        Some(value)
    }

    /// Puts a value at the front. Where there is no room before the first value it makes some, half as much as there
    /// are values. Where memory runs out the list is as before.
    pub fn unshift(&mut self, alloc: Global, value: T) -> Result<(), AllocError>
        ensures ok { OnOk result (self.new ≡ value ∷ self.old) }
        ensures err { OnErr result (self.new ≡ self.old) }
    {
        if self.start == 0 {
            let room = self.items.len() / 2 + 4;
            self.items = with_front(alloc, value, room, self.items.as_slice())?;
            self.start = room;
        }
        self.start -= 1;
        self.items[self.start] = value;
        Ok(())
    }
}

/// The values after so many copies of another.
fn with_front<T: Copy + Drop>(
    alloc: Global,
    filler: T,
    room: usize,
    values: &[T],
) -> Result<Vec<T>, AllocError>
    ensures all { IfOk result (λ v. length v.items ≡ room + length values.now) }
    ensures rest { IfOk result (λ v. drop room v.items ≡ values.now) }
{
    let mut items = Vec::from_elem(alloc, filler, room)?;
    items.extend_from_slice(values)?;
    Ok(items)
}

/// Takes the values before `start` out.
fn close_front<T: Copy + Drop>(items: &mut Vec<T>, start: usize)
    requires { start ≤ length items.old.items }
    ensures { items.new.items ≡ drop start items.old.items }
{
    let len = items.len();
    items.copy_within(start..len, 0);
    items.truncate(len - start);
}
