//! The elements of Arrays.
ghost use Rattle.std.specs.Prelude.{◌≡◌, ◌-◌, ◌<◌, ◌++◌, ◌∷◌, [], length, drop, take, slice_get, slice_set, IfOk, OnOk, OnErr};
ghost use Rattle.rb_value.specs.Items as lists;

use crate::pair::Pair;
use crate::value::Value;
use list_queue::Queue;
use std::alloc::{AllocError, Global};
use std::marker::Model;
use std::slice;

/// Where elements stand.
#[derive(Drop)]
pub(crate) enum Form {
    Empty,
    One(Value),
    Two(Pair),
    Apart(Queue<Value>),
}

/// Elements in order, seen as their list. One or two stand within it, and more apart, as do those that are left of
/// more.
#[derive(Drop)]
pub struct Items {
    form: Form,
}

impl Model for Items {
    ghost use Rattle.std.specs.Prelude as prelude;
    ghost use Rattle.rb_value.specs.declared.value.Value.{Value as Element};

    ghost Value = { prelude.List Element };

    ghost use Rattle.rb_value.specs.Items as lists;

    ghost view = { λ items. lists.seen items.form };
}

/// The elements of two lists in one, with room for no more.
fn joined(alloc: Global, front: &[Value], back: &[Value]) -> Result<Vec<Value>, AllocError>
    ensures { IfOk result (λ v. v.items ≡ front.now ++ back.now) }
{
    let mut all = Vec::with_capacity(alloc, front.len().saturating_add(back.len()))?;
    all.extend_from_slice(front)?;
    all.extend_from_slice(back)?;
    Ok(all)
}

/// Some elements, and one after them.
pub(crate) fn followed(alloc: Global, front: &[Value], value: Value) -> Result<Form, AllocError>
    ensures { IfOk result (λ form. lists.seen form ≡ front.now ++ value ∷ []) }
{
    match front {
        [] => Ok(Form::One(value)),
        [first] => Ok(Form::Two(Pair::of(*first, value))),
        _ => Ok(Form::Apart(Queue::from_vec(joined(alloc, front, &[value])?))),
    }
}

/// Some elements, and one before them.
pub(crate) fn preceded(alloc: Global, value: Value, back: &[Value]) -> Result<Form, AllocError>
    ensures { IfOk result (λ form. lists.seen form ≡ value ∷ back.now) }
{
    match back {
        [] => Ok(Form::One(value)),
        [first] => Ok(Form::Two(Pair::of(value, *first))),
        _ => Ok(Form::Apart(Queue::from_vec(joined(alloc, &[value], back)?))),
    }
}

/// The elements of a vector. It takes no memory, and gives that of a short vector back.
fn gathered(values: Vec<Value>) -> Form
    ensures { lists.seen result ≡ values.items }
{
    match values.as_slice() {
        [] => Form::Empty,
        [first] => Form::One(*first),
        [first, second] => Form::Two(Pair::of(*first, *second)),
        _ => Form::Apart(Queue::from_vec(values)),
    }
}

/// The elements of two lists in one.
pub(crate) fn combined(alloc: Global, front: &[Value], back: &[Value]) -> Result<Form, AllocError>
    ensures { IfOk result (λ form. lists.seen form ≡ front.now ++ back.now) }
{
    Ok(gathered(joined(alloc, front, back)?))
}

impl Items {
    /// No elements. It takes no memory.
    pub fn new() -> Items
        ensures { result ≡ [] }
    {
        Items { form: Form::Empty }
    }

    /// The elements that stand there.
    pub(crate) fn of(form: Form) -> Items
        ensures { result ≡ lists.seen form }
    {
        Items { form }
    }

    /// Where the elements stand.
    pub(crate) fn into_form(self) -> Form
        ensures { lists.seen result ≡ self }
    {
        self.form
    }

    /// The elements of a vector. It takes no memory, and gives that of a short vector back.
    pub fn from_vec(values: Vec<Value>) -> Items
        ensures { result ≡ values.items }
    {
        Items {
            form: gathered(values),
        }
    }

    /// A copy of the elements, with room for no more.
    pub fn from_slice(alloc: Global, values: &[Value]) -> Result<Items, AllocError>
        ensures { IfOk result (λ items. items ≡ values.now) }
    {
        let form = match values {
            [] => Form::Empty,
            [first] => Form::One(*first),
            [first, second] => Form::Two(Pair::of(*first, *second)),
            _ => Form::Apart(Queue::from_vec(Vec::from_slice(alloc, values)?)),
        };
        Ok(Items { form })
    }

    /// The elements as a slice.
    #[inline]
    pub fn as_slice(&self) -> &[Value]
        ensures { result.now ≡ self.now }
    {
        match &self.form {
            Form::Empty => &[],
            Form::One(value) => slice::from_ref(value),
            Form::Two(pair) => pair.as_slice(),
            Form::Apart(queue) => queue.as_slice(),
        }
    }

    /// Puts an element in the place of another.
    pub fn set(&mut self, place: usize, value: Value)
        requires { place < length self.old }
        ensures { self.new ≡ slice_set self.old place value }
    {
        match &mut self.form {
            Form::Empty => unreachable!(),
            Form::One(own) => *own = value,
            Form::Two(pair) => pair.set(place, value),
            Form::Apart(queue) => queue.set(place, value),
        }
    }

    /// Puts an element at the end. Where memory runs out the list is as before.
    pub fn push(&mut self, alloc: Global, value: Value) -> Result<(), AllocError>
        ensures ok { OnOk result (self.new ≡ self.old ++ value ∷ []) }
        ensures err { OnErr result (self.new ≡ self.old) }
    {
        if let Form::Apart(queue) = &mut self.form {
            return queue.push(value);
        }
        self.form = followed(alloc, self.as_slice(), value)?;
        Ok(())
    }

    /// Puts elements at the end, in their order. Where memory runs out the list is as before.
    pub fn append(&mut self, alloc: Global, values: &[Value]) -> Result<(), AllocError>
        ensures ok { OnOk result (self.new ≡ self.old ++ values.now) }
        ensures err { OnErr result (self.new ≡ self.old) }
    {
        if let Form::Apart(queue) = &mut self.form {
            return queue.append(values);
        }
        self.form = combined(alloc, self.as_slice(), values)?;
        Ok(())
    }

    /// Takes the last element off. It takes no memory.
    pub fn pop(&mut self) -> Option<Value>
        ensures last { result ≡ slice_get self.old (length self.old - 1) }
        ensures rest { self.new ≡ take (length self.old - 1) self.old }
    {
        let (value, form) = match &mut self.form {
            Form::Empty => return None,
            Form::One(value) => (*value, Form::Empty),
            Form::Two(pair) => {
                let (first, second) = pair.both();
                (second, Form::One(first))
            }
            Form::Apart(queue) => return queue.pop(),
        };
        self.form = form;
        Some(value)
    }

    /// Takes the first element off. It moves none of more than two, and takes no memory.
    pub fn shift(&mut self) -> Option<Value>
        ensures first { result ≡ slice_get self.old 0 }
        ensures rest { self.new ≡ drop 1 self.old }
    {
        let (value, form) = match &mut self.form {
            Form::Empty => return None,
            Form::One(value) => (*value, Form::Empty),
            Form::Two(pair) => {
                let (first, second) = pair.both();
                (first, Form::One(second))
            }
            Form::Apart(queue) => return queue.shift(),
        };
        self.form = form;
        Some(value)
    }

    /// Puts an element at the front. Where memory runs out the list is as before.
    pub fn unshift(&mut self, alloc: Global, value: Value) -> Result<(), AllocError>
        ensures ok { OnOk result (self.new ≡ value ∷ self.old) }
        ensures err { OnErr result (self.new ≡ self.old) }
    {
        if let Form::Apart(queue) = &mut self.form {
            return queue.unshift(alloc, value);
        }
        self.form = preceded(alloc, value, self.as_slice())?;
        Ok(())
    }
}
