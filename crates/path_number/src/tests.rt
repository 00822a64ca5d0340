use super::*;
use path_value::{Failure, Value};
use rb_syntax::Operator;

#[test]
fn calls_give_values_or_raise(rt: HostRuntime) {
    let largest = Value::Int(9223372036854775807);
    assert_eq!(rt;
        call(Operator::Minus, Value::Int(3), Value::Int(5)),
        Outcome::Gives(Value::Int(-2))
    );
    assert_eq!(rt;
        call(Operator::Plus, largest, Value::Int(1)),
        Outcome::Raises(Failure::IntegerOverflow)
    );
    assert_eq!(rt;
        call(Operator::Equal, Value::Nil, Value::Nil),
        Outcome::Gives(Value::True)
    );
}

#[test]
fn a_line_is_the_text_and_a_newline(rt: HostRuntime) {
    let smallest = Line::of(Value::Int(-9223372036854775808));
    assert_eq!(rt; smallest.as_slice(), b"-9223372036854775808\n".as_slice());
    assert_eq!(rt; Line::of(Value::Nil).as_slice(), b"\n".as_slice());
}
