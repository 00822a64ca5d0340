//! The core methods by their names.
ghost use Rattle.std.specs.Prelude.{◌≡◌, map};
ghost use Rattle.rows_object.specs.Named as named;
ghost use Rattle.rows_object.specs.Table as table;

/// A core method of this crate.
#[derive(Clone, Copy, Debug, PartialEq, Eq)]
pub enum ObjectRow {
    Initialize,
    MethodMissing,
    ToText,
    Same,
    Negation,
    Order,
    ClassOf,
    SingletonClass,
    Extend,
    IsA,
    IsInstance,
    IsNil,
    RespondsTo,
    Copy,
    Itself,
    Variable,
    SetVariable,
    Variables,
    ToEnumerator,
    Exit,
    BlockAsProc,
    BlockAsLambda,
    ToInteger,
    Arity,
    IsLambda,
    SymbolAsProc,
    InitializeString,
    InitializeException,
    MessageText,
    ErrorName,
    ExitStatus,
    StopResult,
    NewFiber,
    IsAlive,
    NewEnumerator,
}

/// A core method with its name.
type Named = (&'static [u8], ObjectRow);

pub const OBJECT_ROWS: [Named; 24] = [
    (b"initialize", ObjectRow::Initialize),
    (b"method_missing", ObjectRow::MethodMissing),
    (b"to_s", ObjectRow::ToText),
    (b"inspect", ObjectRow::ToText),
    (b"==", ObjectRow::Same),
    (b"equal?", ObjectRow::Same),
    (b"!", ObjectRow::Negation),
    (b"<=>", ObjectRow::Order),
    (b"class", ObjectRow::ClassOf),
    (b"singleton_class", ObjectRow::SingletonClass),
    (b"extend", ObjectRow::Extend),
    (b"is_a?", ObjectRow::IsA),
    (b"kind_of?", ObjectRow::IsA),
    (b"instance_of?", ObjectRow::IsInstance),
    (b"nil?", ObjectRow::IsNil),
    (b"respond_to?", ObjectRow::RespondsTo),
    (b"dup", ObjectRow::Copy),
    (b"clone", ObjectRow::Copy),
    (b"freeze", ObjectRow::Itself),
    (b"instance_variable_get", ObjectRow::Variable),
    (b"instance_variable_set", ObjectRow::SetVariable),
    (b"instance_variables", ObjectRow::Variables),
    (b"to_enum", ObjectRow::ToEnumerator),
    (b"enum_for", ObjectRow::ToEnumerator),
];

pub const KERNEL_ROWS: [Named; 4] = [
    (b"exit", ObjectRow::Exit),
    (b"proc", ObjectRow::BlockAsProc),
    (b"lambda", ObjectRow::BlockAsLambda),
    (b"Integer", ObjectRow::ToInteger),
];

pub const STRING_ROWS: [Named; 1] = [(b"initialize", ObjectRow::InitializeString)];

pub const SYMBOL_ROWS: [Named; 1] = [(b"to_proc", ObjectRow::SymbolAsProc)];

pub const PROC_ROWS: [Named; 3] = [
    (b"arity", ObjectRow::Arity),
    (b"lambda?", ObjectRow::IsLambda),
    (b"to_proc", ObjectRow::Itself),
];

pub const PROC_CLASS_ROWS: [Named; 1] = [(b"new", ObjectRow::BlockAsProc)];

pub const FIBER_ROWS: [Named; 1] = [(b"alive?", ObjectRow::IsAlive)];

pub const FIBER_CLASS_ROWS: [Named; 1] = [(b"new", ObjectRow::NewFiber)];

pub const ENUMERATOR_CLASS_ROWS: [Named; 1] = [(b"new", ObjectRow::NewEnumerator)];

pub const EXCEPTION_ROWS: [Named; 2] = [
    (b"initialize", ObjectRow::InitializeException),
    (b"to_s", ObjectRow::MessageText),
];

pub const SYSTEM_EXIT_ROWS: [Named; 1] = [(b"status", ObjectRow::ExitStatus)];

pub const STOP_ITERATION_ROWS: [Named; 1] = [(b"result", ObjectRow::StopResult)];

pub const NAME_ERROR_ROWS: [Named; 1] = [(b"name", ObjectRow::ErrorName)];

/// The methods of this crate that a segment of the rows has, by their names.
#[tactic(auto, unfolding(crate::specs::Named::object_rows, crate::specs::Named::kernel_rows, crate::specs::Named::string_rows, crate::specs::Named::symbol_rows, crate::specs::Named::proc_rows, crate::specs::Named::proc_class_rows, crate::specs::Named::fiber_rows, crate::specs::Named::fiber_class_rows, crate::specs::Named::enumerator_class_rows, crate::specs::Named::exception_rows, crate::specs::Named::system_exit_rows, crate::specs::Named::stop_iteration_rows, crate::specs::Named::name_error_rows))]
pub fn rows_of(segment: u16) -> &'static [(&'static [u8], ObjectRow)]
    ensures { map (λ r. (r.0.now, r.1)) result.now ≡ named.rows segment }
{
    match segment {
        0 => &OBJECT_ROWS,
        2 => &KERNEL_ROWS,
        22 => &STRING_ROWS,
        24 => &SYMBOL_ROWS,
        32 => &PROC_ROWS,
        33 => &PROC_CLASS_ROWS,
        34 => &FIBER_ROWS,
        35 => &FIBER_CLASS_ROWS,
        37 => &ENUMERATOR_CLASS_ROWS,
        40 => &EXCEPTION_ROWS,
        46 => &SYSTEM_EXIT_ROWS,
        60 => &STOP_ITERATION_ROWS,
        64 => &NAME_ERROR_ROWS,
        _ => &[],
    }
}

impl ObjectRow {
    /// At least and at most how many arguments it takes; none stands for no bound.
    pub(crate) fn counts(self) -> (u64, Option<u64>)
        ensures { result ≡ table.counts self }
    {
        match self {
            ObjectRow::Same
            | ObjectRow::Order
            | ObjectRow::Extend
            | ObjectRow::IsA
            | ObjectRow::IsInstance
            | ObjectRow::RespondsTo
            | ObjectRow::Variable
            | ObjectRow::ToInteger => (1, Some(1)),
            ObjectRow::SetVariable => (2, Some(2)),
            ObjectRow::Exit | ObjectRow::InitializeString | ObjectRow::InitializeException => {
                (0, Some(1))
            }
            ObjectRow::MethodMissing => (1, None),
            ObjectRow::ToEnumerator => (0, None),
            _ => (0, Some(0)),
        }
    }

    /// Whether it needs a block.
    pub(crate) fn wants_block(self) -> bool
        ensures { result ≡ table.wants_block self }
    {
        matches!(
            self,
            ObjectRow::BlockAsProc
                | ObjectRow::BlockAsLambda
                | ObjectRow::NewFiber
                | ObjectRow::NewEnumerator
        )
    }
}
