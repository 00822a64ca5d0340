ghost use Rattle.std.specs.Prelude.{◌≡◌};

/// The number of an interned symbol.
#[derive(Clone, Copy, Debug, PartialEq, Eq, Hash)]
pub struct SymId(pub u64);

/// The number of an object of the store.
#[derive(Clone, Copy, Debug, PartialEq, Eq, Hash)]
pub struct ObjId(pub u64);

/// A value of the language. Integers have 64 bits; every value that is none of the others is an object of the
/// store.
#[derive(Clone, Copy, Debug, Default, PartialEq, Eq, Hash)]
pub enum Value {
    #[default]
    Nil,
    True,
    False,
    Int(i64),
    Sym(SymId),
    Obj(ObjId),
}

impl Value {
    ghost use Rattle.rb_value.specs.Value as values;

    /// Whether a condition takes the value as true: every value but nil and false
    /// (ISO/IEC 30170:2012, 11.1).
    pub fn is_true(self) -> bool
        ensures { result ≡ values.is_true self }
    {
        !matches!(self, Value::Nil | Value::False)
    }

    /// The value of a test.
    pub fn from_truth(truth: bool) -> Value
        ensures { result ≡ values.truth truth }
    {
        if truth { Value::True } else { Value::False }
    }
}
