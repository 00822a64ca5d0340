//! Methods that ask only which value the receiver is.
ghost use Rattle.std.specs.Prelude.{◌≡◌, not};
ghost use Rattle.rb_value.specs.Value.{truth, is_true};
ghost use Rattle.rb_value.specs.declared.value.Value.TheVariants.{Nil};
ghost use Rattle.run_values.specs.declared.given.Given.TheVariants.{Gives};
ghost use Rattle.rows_object.specs.Rows as rows;

use core_calls::heap::Given;
use rb_value::Value;

/// `==` and `equal?` of an object.
pub(crate) fn same(left: Value, right: Value) -> Given
    ensures { result ≡ Gives (rows.same left right) }
{
    Given::Gives(Value::from_truth(left == right))
}

/// `!` of an object.
pub(crate) fn negation(value: Value) -> Given
    ensures { result ≡ Gives (truth (not (is_true value))) }
{
    Given::Gives(Value::from_truth(!value.is_true()))
}

/// `<=>` of an object: 0 where both are the same value, and else nil.
pub(crate) fn order(left: Value, right: Value) -> Given
    ensures { result ≡ Gives (rows.order left right) }
{
    if left == right {
        Given::Gives(Value::Int(0))
    } else {
        Given::Gives(Value::Nil)
    }
}

/// `nil?` of an object.
pub(crate) fn is_nil(value: Value) -> Given
    ensures { result ≡ Gives (rows.same value Nil) }
{
    Given::Gives(Value::from_truth(value == Value::Nil))
}
