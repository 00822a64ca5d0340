//! Changes of single facts: instance variables, the sending of a Proc, the end of a fiber.
use crate::sorts::{is_a, is_there};
use rb_base::List;
use rb_store::Store;
use rb_value::Value::{Int, Nil};
use rb_value::{
    Boxed, CoreClass, Kind, KindRef, ObjId, Object, ProcContents, Sending, Shape, Sort, SymId,
    Value,
};
use std::alloc::{AllocError, Global};

fn set_variable(st: &mut Store, id: ObjId, name: SymId, value: Value) -> Result<bool, AllocError> {
    let good = is_there(st, id);
    if good {
        st.set_variable(id, name, value)?;
    }
    Ok(good)
}

/// The name and the value of the variable at a place.
fn variable_at(st: &Store, id: ObjId, place: usize) -> Option<(SymId, Value)> {
    if !is_there(st, id) {
        return None;
    }
    match st.get(id).variables().get(place) {
        Some(variable) => Some((variable.name, variable.value)),
        None => None,
    }
}

fn variable(st: &Store, id: ObjId, name: SymId) -> Option<Value> {
    if !is_there(st, id) {
        return None;
    }
    st.variable(id, name)
}

#[test]
fn a_variable_keeps_its_place(rt: HostRuntime) -> Result<(), AllocError> {
    let mut st = Store::new(rt.alloc())?;
    let main = st.main_object();
    let first = st.intern(b"@first")?;
    let second = st.intern(b"@second")?;
    assert!(rt; set_variable(&mut st, main, first, Int(1))?);
    assert!(rt; variable(&st, main, second).is_none());
    assert!(rt; set_variable(&mut st, main, second, Int(2))?);
    assert!(rt; set_variable(&mut st, main, first, Nil)?);
    assert!(rt; variable(&st, main, first) == Some(Nil));
    assert!(rt; variable_at(&st, main, 0) == Some((first, Nil)));
    assert!(rt; variable_at(&st, main, 1) == Some((second, Int(2))));
    assert!(rt; variable_at(&st, main, 2).is_none());
    Ok(())
}

/// A literal of a block that takes no arguments.
fn block_literal(alloc: Global) -> ProcContents {
    ProcContents {
        code: 0,
        shape: Shape {
            required: 0,
            optional: 0,
            rest: false,
            post: 0,
        },
        scopes: List::new(alloc),
        receiver: Nil,
        owner: None,
        name: None,
        classes: 0,
        home: 0,
        sending: Sending::Unsent,
        block: None,
        lambda: false,
    }
}

fn send(st: &mut Store, id: ObjId, activation: Option<u64>) {
    if is_there(st, id) {
        st.send_proc(id, activation);
    }
}

/// What a `break` from a new block ends, once it was the block of these calls.
fn break_target(
    st: &mut Store,
    first: Option<u64>,
    second: Option<u64>,
) -> Result<Option<u64>, AllocError> {
    let kind = Kind::Proc(Boxed::new(st.alloc(), block_literal(st.alloc()))?);
    let id = st.add(Object::new(st.class_object(CoreClass::Proc), kind))?;
    send(st, id, first);
    send(st, id, second);
    if !is_there(st, id) {
        return Ok(None);
    }
    match st.get(id).kind() {
        KindRef::Proc(contents) => Ok(contents.get().sending.break_target()),
        _ => Ok(None),
    }
}

#[test]
fn the_first_call_of_a_block_counts(rt: HostRuntime) -> Result<(), AllocError> {
    let mut st = Store::new(rt.alloc())?;
    assert!(rt; break_target(&mut st, Some(7), Some(8))? == Some(7));
    assert!(rt; break_target(&mut st, None, Some(9))?.is_none());
    Ok(())
}

/// Whether a fiber has ended; none where it is no fiber.
fn has_ended(st: &Store, id: ObjId) -> Option<bool> {
    if !is_there(st, id) {
        return None;
    }
    match st.get(id).kind() {
        KindRef::Fiber { block: _, ended } => Some(ended),
        _ => None,
    }
}

#[test]
fn a_fiber_ends(rt: HostRuntime) -> Result<(), AllocError> {
    let mut st = Store::new(rt.alloc())?;
    let kind = Kind::Fiber {
        block: st.main_object(),
        ended: false,
    };
    let id = st.add(Object::new(st.class_object(CoreClass::Fiber), kind))?;
    assert!(rt; has_ended(&st, id) == Some(false));
    assert!(rt; is_a(&st, id, Sort::Fiber));
    st.end_fiber(id);
    assert!(rt; has_ended(&st, id) == Some(true));
    Ok(())
}
