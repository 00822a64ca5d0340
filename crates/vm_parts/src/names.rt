//! Names of methods that the machine calls by itself.
ghost use Rattle.std.specs.Prelude.{◌≡◌, IfOk, OnOk};
ghost use Rattle.vm_parts.specs.Operators as operators;

use fiber_switch::heap::Heap;
use rb_value::SymId;
use std::alloc::AllocError;

/// The symbols of `new`, `initialize`, `method_missing`, `to_s` and `==`.
#[derive(Clone, Copy, Debug)]
pub struct Names {
    pub new: SymId,
    pub initialize: SymId,
    pub method_missing: SymId,
    pub to_s: SymId,
    pub equal: SymId,
}

impl Names {
    /// The names, which every heap has from its start.
    pub fn of(heap: &mut Heap) -> Result<Names, AllocError>
        ensures symbols { IfOk result (λ ns. operators.own_symbols ns
            ≡ operators.numbered heap.old.store operators.own_names) }
        ensures store { OnOk result (heap.new.store ≡ operators.with_names heap.old.store operators.own_names) }
        ensures changes { heap.new.changes ≡ heap.old.changes }
    {
        Ok(Names {
            new: heap.intern(b"new")?,
            initialize: heap.intern(b"initialize")?,
            method_missing: heap.intern(b"method_missing")?,
            to_s: heap.intern(b"to_s")?,
            equal: heap.intern(b"==")?,
        })
    }
}
