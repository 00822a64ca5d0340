//! Two values side by side.
ghost use Rattle.std.specs.Prelude.{◌≡◌, ◌<◌, ◌∷◌, [], length, slice_set};

use crate::value::Value;
use std::marker::Model;

/// Two values, seen as their list.
#[derive(Drop)]
pub(crate) struct Pair {
    values: [Value; 2],
}

impl Model for Pair {
    ghost use Rattle.std.specs.Prelude as prelude;
    ghost use Rattle.rb_value.specs.declared.value.Value.{Value as Element};

    ghost Value = { prelude.List Element };

    ghost view = { λ pair. pair.values };
}

impl Pair {
    /// Two values.
    pub(crate) fn of(first: Value, second: Value) -> Pair
        ensures { result ≡ first ∷ second ∷ [] }
    {
        Pair {
            values: [first, second],
        }
    }

    /// The values as a slice.
    #[inline]
    pub(crate) fn as_slice(&self) -> &[Value]
        ensures now { result.now ≡ self.now }
        ensures two { length self.now ≡ 2 }
    {
        &self.values
    }

    /// The values.
    pub(crate) fn both(&self) -> (Value, Value)
        ensures { self.now ≡ result.0 ∷ result.1 ∷ [] }
    {
        match self.as_slice() {
            [first, second] => (*first, *second),
            _ => unreachable!(),
        }
    }

    /// Puts a value in the place of one of the two.
    pub(crate) fn set(&mut self, place: usize, value: Value)
        requires { place < length self.old }
        ensures { self.new ≡ slice_set self.old place value }
    {
        let values: &mut [Value] = &mut self.values;
        values[place] = value;
    }
}
