ghost use Rattle.std.specs.Prelude.{◌≡◌};

/// A value of the language. Integers have 64 bits.
#[derive(Clone, Copy, Debug, PartialEq, Eq)]
pub enum Value {
    Nil,
    True,
    False,
    Int(i64),
}

impl Value {
    ghost use Rattle.path_value.specs.Value as values;

    /// Whether a condition takes the value as true: every value but nil and false
    /// (ISO/IEC 30170:2012, 11.1).
    pub fn is_true(self) -> bool
        ensures { result ≡ values.is_true self }
    {
        !matches!(self, Value::Nil | Value::False)
    }

    /// The value of a test.
    pub fn from_truth(truth: bool) -> Value
        ensures { result ≡ values.truth truth }
    {
        if truth { Value::True } else { Value::False }
    }
}
