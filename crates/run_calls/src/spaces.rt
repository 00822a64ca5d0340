//! Bodies of classes and modules.
ghost use Rattle.std.specs.Prelude.{◌≡◌, IfOk};
ghost use Rattle.run_calls.specs.Activations as activations;

use crate::activation::{Activation, Runs};
use core_iter::heap::Heap;
use rb_value::{ObjId, Value, Visibility};
use std::alloc::AllocError;

/// Begins the body of a class or module in an activation: the next methods of it are public, it is the innermost class
/// around the text, and it is `self`. Where memory runs out all is as before.
pub fn open_space(
    heap: &mut Heap,
    caller: &Activation,
    class: ObjId,
) -> Result<Activation, AllocError>
    ensures { IfOk result (λ a. a ≡ activations.space_running caller.now class a.classes) }
{
    let classes = heap.open_list(class, caller.classes)?;
    heap.set_default(class, Visibility::Public);
    Ok(Activation {
        runs: Runs::ClassBody,
        receiver: Value::Obj(class),
        owner: None,
        name: None,
        home: caller.home,
        classes,
        block: None,
    })
}

/// After the body of a class or module its next methods are public.
#[cold]
fn close_space(heap: &mut Heap, own: Value)
    ensures { heap.new.store ≡ activations.space_closed heap.old.store own }
{
    if let Value::Obj(class) = own {
        heap.set_default(class, Visibility::Public);
    }
}

/// Ends an activation: after the body of a class or module its next methods are public. It takes no memory.
#[inline(always)]
pub fn close(heap: &mut Heap, activation: &Activation)
    ensures { heap.new.store ≡ activations.closed heap.old.store activation.now }
{
    match activation.runs {
        Runs::ClassBody => close_space(heap, activation.receiver),
        _ => {}
    }
}
