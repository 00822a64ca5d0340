//! The elements of Arrays and the bytes of Strings, changed in place.
ghost use Rattle.std.specs.Prelude.{◌≡◌, ◌<◌, ◌-◌, ◌++◌, ◌∷◌, [], length, drop, take, slice_get, slice_set, OnOk, OnErr};
ghost use Rattle.rb_value.specs.Contents.{elements_in, bytes_in};
ghost use Rattle.rb_value.specs.Object.{with_items, with_text, with_kind};
ghost use Rattle.rb_value.specs.Sort.{sort_of};
ghost use Rattle.rb_value.specs.declared.kind.Kind.TheVariants as kinds;
ghost use Rattle.rb_value.specs.declared.kind.Sort.TheVariants as sorts;

use crate::held::{Held, held_items};
use crate::items::Items;
use crate::kind::Kind;
use crate::object::Object;
use crate::value::Value;
use small_bytes::SmallBytes;
use std::alloc::{AllocError, Global};
use std::mem;

/// Takes the last element of an Array off.
fn popped(kind: &mut Kind) -> Option<Value>
    requires { sort_of kind.old ≡ sorts.Array }
    ensures last { result ≡ slice_get (elements_in kind.old) (length (elements_in kind.old) - 1) }
    ensures rest { kind.new ≡ kinds.Array (take (length (elements_in kind.old) - 1) (elements_in kind.old)) }
{
    match kind {
        Kind::Array(items) => items.pop(),
        _ => unreachable!(),
    }
}

/// Takes the first element of an Array off.
fn shifted(kind: &mut Kind) -> Option<Value>
    requires { sort_of kind.old ≡ sorts.Array }
    ensures first { result ≡ slice_get (elements_in kind.old) 0 }
    ensures rest { kind.new ≡ kinds.Array (drop 1 (elements_in kind.old)) }
{
    match kind {
        Kind::Array(items) => items.shift(),
        _ => unreachable!(),
    }
}

/// Lets go of the contents of an object that holds nothing but its variables.
fn let_go(kind: Kind)
    requires { sort_of kind ≡ sorts.Plain }
    ensures { kind ≡ kinds.Plain }
{
    match kind {
        Kind::Plain => {}
        _ => unreachable!(),
    }
}

impl Object {
    /// Puts a value in the place of an element of an Array.
    #[inline(always)]
    pub fn set_item(&mut self, place: usize, value: Value)
        requires array { sort_of self.old.kind ≡ sorts.Array }
        requires within { place < length (elements_in self.old.kind) }
        ensures { self.new ≡ with_items self.old (slice_set (elements_in self.old.kind) place value) }
    {
        match &mut self.held {
            Held::Array(queue) => queue.set(place, value),
            Held::Rich(rich) => match &mut rich.get_mut().kind {
                Kind::Array(items) => items.set(place, value),
                _ => unreachable!(),
            },
            few => few.set_few(place, value),
        }
    }

    /// Puts a value after the elements of an Array. Where memory runs out it is as before.
    #[inline(always)]
    pub fn push_item(&mut self, alloc: Global, value: Value) -> Result<(), AllocError>
        requires { sort_of self.old.kind ≡ sorts.Array }
        ensures ok { OnOk result (self.new ≡ with_items self.old (elements_in self.old.kind ++ value ∷ [])) }
        ensures err { OnErr result (self.new ≡ self.old) }
    {
        match &mut self.held {
            Held::Array(queue) => queue.push(value),
            Held::Rich(rich) => match &mut rich.get_mut().kind {
                Kind::Array(items) => items.push(alloc, value),
                _ => unreachable!(),
            },
            few => few.push_few(alloc, value),
        }
    }

    /// Puts values after the elements of an Array, in their order. Where memory runs out it is as before.
    pub fn append_items(&mut self, alloc: Global, values: &[Value]) -> Result<(), AllocError>
        requires { sort_of self.old.kind ≡ sorts.Array }
        ensures ok { OnOk result (self.new ≡ with_items self.old (elements_in self.old.kind ++ values.now)) }
        ensures err { OnErr result (self.new ≡ self.old) }
    {
        match &mut self.held {
            Held::Array(queue) => queue.append(values),
            Held::Rich(rich) => match &mut rich.get_mut().kind {
                Kind::Array(items) => items.append(alloc, values),
                _ => unreachable!(),
            },
            few => few.append_few(alloc, values),
        }
    }

    /// Puts a value before the elements of an Array. Where memory runs out it is as before.
    pub fn unshift_item(&mut self, alloc: Global, value: Value) -> Result<(), AllocError>
        requires { sort_of self.old.kind ≡ sorts.Array }
        ensures ok { OnOk result (self.new ≡ with_items self.old (value ∷ elements_in self.old.kind)) }
        ensures err { OnErr result (self.new ≡ self.old) }
    {
        match &mut self.held {
            Held::Array(queue) => queue.unshift(alloc, value),
            Held::Rich(rich) => match &mut rich.get_mut().kind {
                Kind::Array(items) => items.unshift(alloc, value),
                _ => unreachable!(),
            },
            few => few.unshift_few(alloc, value),
        }
    }

    /// Takes the last element of an Array off.
    pub fn pop_item(&mut self) -> Option<Value>
        requires { sort_of self.old.kind ≡ sorts.Array }
        ensures last { result ≡ slice_get (elements_in self.old.kind) (length (elements_in self.old.kind) - 1) }
        ensures rest { self.new ≡ with_items self.old
            (take (length (elements_in self.old.kind) - 1) (elements_in self.old.kind)) }
    {
        match &mut self.held {
            Held::Array(queue) => queue.pop(),
            Held::Rich(rich) => popped(&mut rich.get_mut().kind),
            few => few.pop_few(),
        }
    }

    /// Takes the first element of an Array off. It moves none of more than two.
    pub fn shift_item(&mut self) -> Option<Value>
        requires { sort_of self.old.kind ≡ sorts.Array }
        ensures first { result ≡ slice_get (elements_in self.old.kind) 0 }
        ensures rest { self.new ≡ with_items self.old (drop 1 (elements_in self.old.kind)) }
    {
        match &mut self.held {
            Held::Array(queue) => queue.shift(),
            Held::Rich(rich) => shifted(&mut rich.get_mut().kind),
            few => few.shift_few(),
        }
    }

    /// Puts other elements into an Array.
    pub fn replace_items(&mut self, items: Items)
        requires { sort_of self.old.kind ≡ sorts.Array }
        ensures { self.new ≡ with_items self.old items }
    {
        match &mut self.held {
            Held::Rich(rich) => rich.get_mut().kind = Kind::Array(items),
            few => *few = held_items(items.into_form()),
        }
    }

    /// Puts bytes at the end of a String. Where memory runs out it is as before.
    #[inline(always)]
    pub fn append_text(&mut self, alloc: Global, more: &[u8]) -> Result<(), AllocError>
        requires { sort_of self.old.kind ≡ sorts.String }
        ensures ok { OnOk result (self.new ≡ with_text self.old (bytes_in self.old.kind ++ more.now)) }
        ensures err { OnErr result (self.new ≡ self.old) }
    {
        match &mut self.held {
            Held::String(bytes) => bytes.append(alloc, more),
            Held::Rich(rich) => match &mut rich.get_mut().kind {
                Kind::String(bytes) => bytes.append(alloc, more),
                _ => unreachable!(),
            },
            _ => unreachable!(),
        }
    }

    /// Puts other bytes into a String, and hands the ones before back.
    pub fn replace_text(&mut self, bytes: SmallBytes) -> SmallBytes
        requires { sort_of self.old.kind ≡ sorts.String }
        ensures before { result ≡ bytes_in self.old.kind }
        ensures after { self.new ≡ with_text self.old bytes }
    {
        match &mut self.held {
            Held::String(own) => mem::replace(own, bytes),
            Held::Rich(rich) => match &mut rich.get_mut().kind {
                Kind::String(own) => mem::replace(own, bytes),
                _ => unreachable!(),
            },
            _ => unreachable!(),
        }
    }

    /// Puts other contents of the same sort into an object.
    pub fn set_kind(&mut self, kind: Kind)
        requires { sort_of kind ≡ sort_of self.old.kind }
        ensures { self.new ≡ with_kind self.old kind }
    {
        match &mut self.held {
            Held::Rich(rich) => rich.get_mut().kind = kind,
            Held::Varied(_) => let_go(kind),
            bare => *bare = Held::of(kind),
        }
    }
}
