//! `new` of a class: an object of the class's kind, then its method `initialize`.
ghost use Rattle.std.specs.Prelude.{◌≡◌};
ghost use Rattle.def_plans.specs.Plan.{Plans};
ghost use Rattle.core_iter.specs.Making as making;
ghost use Rattle.core_iter.specs.Stage.{stage_of};

use crate::iteration::Iteration;
use crate::sending::{refuse, send_named};
use def_core::Cause;
use rb_value::{CoreClass, ObjId, Sort, Value};
use run_rows::core_calls::{Call, Plan};
use run_rows::heap::{Blank, Heap};
use run_rows::rows_class::blank_of;
use std::alloc::AllocError;

/// How many classes a store has from its start.
const CORE: u64 = 38;

/// How many classes are looked through for the nearest core class.
const NEAR: u64 = 64;

/// The nearest core class among a class and those above it, and the class itself where there is none near.
#[tactic(auto, unfolding(crate::specs::Making::core_from))]
fn core_above(heap: &Heap, class: ObjId) -> ObjId
    ensures { result ≡ making.core_above heap.now.store class }
{
    let mut above = class;
    'classes: for _taken in 0..NEAR {
        if above.0 < CORE {
            return above;
        }
        match heap.superclass_of(above) {
            Some(next) => above = next,
            None => return class,
        }
    }
    class
}

/// What a new object of a class holds; none where there is no `new` of it.
pub fn blank_for(heap: &Heap, class: ObjId) -> Option<Blank>
    ensures { result ≡ making.blank_for heap.now.store class }
{
    let core = core_above(heap, class);
    if core == heap.class_object(CoreClass::Object) {
        Some(Blank::Plain)
    } else {
        blank_of(heap, core)
    }
}

/// Fails since there is no `new` of a class.
fn without_new(heap: &mut Heap, receiver: Value) -> Result<Plan<Iteration>, AllocError>
    ensures { Plans stage_of heap.new result (making.no_new heap.old receiver) }
{
    Ok(Plan::Fails(Cause::UndefinedMethod {
        name: heap.intern(b"new")?,
        class: heap.plain_class_of(receiver),
    }))
}

/// Begins to make an object of a class, whose `initialize` is called.
pub(crate) fn begin_new(heap: &mut Heap, call: Call<'_>) -> Result<Plan<Iteration>, AllocError>
    ensures { Plans stage_of heap.new result
        (making.new heap.old call.entry.receiver call.entry.args.now call.entry.block) }
{
    let (Some(Sort::Class), Value::Obj(class)) = (heap.sort(call.receiver), call.receiver) else {
        return Ok(refuse(heap, CoreClass::Class, call.receiver));
    };
    let Some(blank) = blank_for(heap, class) else {
        return without_new(heap, call.receiver);
    };
    let object = heap.make_blank(class, blank)?;
    let args = Vec::from_slice(heap.alloc(), call.args)?;
    send_named(
        heap,
        Iteration::Giving(object),
        object,
        b"initialize",
        args,
        call.block,
    )
}
