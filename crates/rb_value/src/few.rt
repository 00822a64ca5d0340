//! Arrays of up to two elements, which stand within their object.
ghost use Rattle.std.specs.Prelude.{◌≡◌, ◌<◌, ◌-◌, ◌++◌, ◌∷◌, [], None, true, length, drop, take, slice_get, slice_set, OnOk, OnErr};
ghost use Rattle.rb_value.specs.Contents.{elements_in};
ghost use Rattle.rb_value.specs.Held.{kind_of, singleton_of, variables_of, is_few};
ghost use Rattle.rb_value.specs.declared.kind.Kind.TheVariants as kinds;

use crate::held::{Held, held_items};
use crate::items::{combined, followed, preceded};
use crate::value::Value;
use std::alloc::{AllocError, Global};

impl Held {
    /// Puts a value in the place of an element.
    pub(crate) fn set_few(&mut self, place: usize, value: Value)
        requires few { is_few self.old ≡ true }
        requires within { place < length (elements_in (kind_of self.old)) }
        ensures kind { kind_of self.new ≡ kinds.Array (slice_set (elements_in (kind_of self.old)) place value) }
        ensures singleton { singleton_of self.new ≡ None }
        ensures variables { variables_of self.new ≡ [] }
    {
        match self {
            Held::One(own) => *own = value,
            Held::Two(pair) => pair.set(place, value),
            _ => unreachable!(),
        }
    }

    /// Puts a value after the elements. Where memory runs out all is as before.
    pub(crate) fn push_few(&mut self, alloc: Global, value: Value) -> Result<(), AllocError>
        requires { is_few self.old ≡ true }
        ensures ok { OnOk result (kind_of self.new ≡ kinds.Array (elements_in (kind_of self.old) ++ value ∷ [])) }
        ensures singleton { OnOk result (singleton_of self.new ≡ None) }
        ensures variables { OnOk result (variables_of self.new ≡ []) }
        ensures err { OnErr result (self.new ≡ self.old) }
    {
        let form = followed(alloc, self.items(), value)?;
        *self = held_items(form);
        Ok(())
    }

    /// Puts values after the elements, in their order. Where memory runs out all is as before.
    pub(crate) fn append_few(&mut self, alloc: Global, values: &[Value]) -> Result<(), AllocError>
        requires { is_few self.old ≡ true }
        ensures ok { OnOk result (kind_of self.new ≡ kinds.Array (elements_in (kind_of self.old) ++ values.now)) }
        ensures singleton { OnOk result (singleton_of self.new ≡ None) }
        ensures variables { OnOk result (variables_of self.new ≡ []) }
        ensures err { OnErr result (self.new ≡ self.old) }
    {
        let form = combined(alloc, self.items(), values)?;
        *self = held_items(form);
        Ok(())
    }

    /// Puts a value before the elements. Where memory runs out all is as before.
    pub(crate) fn unshift_few(&mut self, alloc: Global, value: Value) -> Result<(), AllocError>
        requires { is_few self.old ≡ true }
        ensures ok { OnOk result (kind_of self.new ≡ kinds.Array (value ∷ elements_in (kind_of self.old))) }
        ensures singleton { OnOk result (singleton_of self.new ≡ None) }
        ensures variables { OnOk result (variables_of self.new ≡ []) }
        ensures err { OnErr result (self.new ≡ self.old) }
    {
        let form = preceded(alloc, value, self.items())?;
        *self = held_items(form);
        Ok(())
    }

    /// Takes the last element off.
    pub(crate) fn pop_few(&mut self) -> Option<Value>
        requires { is_few self.old ≡ true }
        ensures last { result ≡ slice_get (elements_in (kind_of self.old))
            (length (elements_in (kind_of self.old)) - 1) }
        ensures rest { kind_of self.new
            ≡ kinds.Array (take (length (elements_in (kind_of self.old)) - 1) (elements_in (kind_of self.old))) }
        ensures singleton { singleton_of self.new ≡ None }
        ensures variables { variables_of self.new ≡ [] }
    {
        let (value, held) = match self {
            Held::One(value) => (*value, Held::Empty),
            Held::Two(pair) => {
                let (first, second) = pair.both();
                (second, Held::One(first))
            }
            _ => return None,
        };
        *self = held;
        Some(value)
    }

    /// Takes the first element off.
    pub(crate) fn shift_few(&mut self) -> Option<Value>
        requires { is_few self.old ≡ true }
        ensures first { result ≡ slice_get (elements_in (kind_of self.old)) 0 }
        ensures rest { kind_of self.new ≡ kinds.Array (drop 1 (elements_in (kind_of self.old))) }
        ensures singleton { singleton_of self.new ≡ None }
        ensures variables { variables_of self.new ≡ [] }
    {
        let (value, held) = match self {
            Held::One(value) => (*value, Held::Empty),
            Held::Two(pair) => {
                let (first, second) = pair.both();
                (first, Held::One(second))
            }
            _ => return None,
        };
        *self = held;
        Some(value)
    }
}
