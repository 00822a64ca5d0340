//! Why a core method gives no value.
ghost use Rattle.std.specs.Prelude.{◌≡◌, IfOk};
ghost use Rattle.rows_items.specs.declared.error.RowError.TheVariants.{Fails, NoMemory};
ghost use Rattle.rows_items.specs.Outcome.{SettlesFrom};

use core_calls::heap::{Given, Heap};
use def_core::Cause;
use rb_value::Value;
use std::alloc::{AllocError, AllocFailed};

/// Why a core method gives no value: an exception is raised by a cause, or memory ran out.
#[derive(Clone, Copy, Debug, PartialEq, Eq)]
pub enum RowError {
    Fails(Cause),
    NoMemory,
}

impl From<Cause> for RowError {
    ghost from_gives = { λ cause e. e ≡ Fails cause };

    fn from(cause: Cause) -> RowError {
        RowError::Fails(cause)
    }
}

impl From<AllocError> for RowError {
    ghost from_gives = { λ _ e. e ≡ NoMemory };

    fn from(_error: AllocError) -> RowError {
        RowError::NoMemory
    }
}

impl<T: Drop> From<AllocFailed<T>> for RowError {
    ghost use Rattle.std.specs.Prelude.{◌≡◌};
    ghost use Rattle.rows_items.specs.declared.error.RowError.TheVariants.{NoMemory};

    ghost from_gives = { λ _ e. e ≡ NoMemory };

    fn from(_error: AllocFailed<T>) -> RowError {
        RowError::NoMemory
    }
}

/// Gives the value of a core method, or raises by the cause that there is none.
pub fn settle(heap: &mut Heap, outcome: Result<Value, RowError>) -> Result<Given, AllocError>
    ensures { IfOk result (λ g. SettlesFrom heap.old outcome g heap.new) }
{
    match outcome {
        Ok(value) => Ok(Given::Gives(value)),
        Err(RowError::Fails(cause)) => heap.fail(cause),
        Err(RowError::NoMemory) => Err(AllocError),
    }
}
