//! Changes of an Array.
ghost use Rattle.std.specs.Prelude.{◌≡◌};
ghost use Rattle.rb_value.specs.declared.kind.Sort.TheVariants as sorts;
ghost use Rattle.def_core.specs.Store.{sort_at};
ghost use Rattle.def_core.specs.Sound.{IsGood};

use crate::sorts::{is_a, is_there};
use Change::{Append, Pop, Push, Replace, Set, Shift, Unshift};
use rb_store::Store;
use rb_value::Value::{Int, Nil, True};
use rb_value::{CoreClass, Items, Kind, ObjId, Object, Sort, Value};
use std::alloc::AllocError;

/// A change of an Array.
#[derive(Clone, Copy)]
enum Change {
    Push(Value),
    Append(&'static [Value]),
    Unshift(Value),
    Set(usize, Value),
    Pop,
    Shift,
    Replace(&'static [Value]),
}

/// A change, the values that it hands back, and the elements afterwards.
type Step = (Change, &'static [Value], &'static [Value]);

static STEPS: [Step; 33] = [
    (Pop, &[], &[]),
    (Shift, &[], &[]),
    (Push(Int(1)), &[], &[Int(1)]),
    (Push(Int(2)), &[], &[Int(1), Int(2)]),
    (Unshift(Nil), &[], &[Nil, Int(1), Int(2)]),
    (Set(1, Int(4)), &[], &[Nil, Int(4), Int(2)]),
    (
        Append(&[Int(5), True]),
        &[],
        &[Nil, Int(4), Int(2), Int(5), True],
    ),
    (Shift, &[Nil], &[Int(4), Int(2), Int(5), True]),
    (Shift, &[Int(4)], &[Int(2), Int(5), True]),
    (Push(Int(7)), &[], &[Int(2), Int(5), True, Int(7)]),
    (Pop, &[Int(7)], &[Int(2), Int(5), True]),
    (Set(2, Int(8)), &[], &[Int(2), Int(5), Int(8)]),
    (Unshift(Int(9)), &[], &[Int(9), Int(2), Int(5), Int(8)]),
    (Append(&[]), &[], &[Int(9), Int(2), Int(5), Int(8)]),
    (Replace(&[Int(11)]), &[], &[Int(11)]),
    (Set(0, Int(12)), &[], &[Int(12)]),
    (
        Append(&[Int(13), Int(14)]),
        &[],
        &[Int(12), Int(13), Int(14)],
    ),
    (Shift, &[Int(12)], &[Int(13), Int(14)]),
    (Pop, &[Int(14)], &[Int(13)]),
    (Pop, &[Int(13)], &[]),
    (Pop, &[], &[]),
    (Unshift(Int(15)), &[], &[Int(15)]),
    (Push(Int(16)), &[], &[Int(15), Int(16)]),
    (Set(1, Int(17)), &[], &[Int(15), Int(17)]),
    (Set(0, Int(18)), &[], &[Int(18), Int(17)]),
    (Shift, &[Int(18)], &[Int(17)]),
    (Unshift(Nil), &[], &[Nil, Int(17)]),
    (Pop, &[Int(17)], &[Nil]),
    (Append(&[True]), &[], &[Nil, True]),
    (Replace(&[Int(19), Int(20)]), &[], &[Int(19), Int(20)]),
    (Push(Int(21)), &[], &[Int(19), Int(20), Int(21)]),
    (Replace(&[]), &[], &[]),
    (Append(&[Int(22)]), &[], &[Int(22)]),
];

fn is_given(value: Option<Value>, wanted: &[Value]) -> bool {
    match value {
        Some(value) => wanted == [value].as_slice(),
        None => wanted.is_empty(),
    }
}

/// Changes an Array, and tells whether the call hands these values back.
fn hands_back(
    st: &mut Store,
    id: ObjId,
    change: Change,
    wanted: &[Value],
) -> Result<bool, AllocError>
    requires there { IsGood st.old.store id }
    requires array { sort_at st.old.store.objects id ≡ sorts.Array }
{
    match change {
        Push(value) => st.push(id, value)?,
        Append(values) => st.append(id, values)?,
        Unshift(value) => st.unshift(id, value)?,
        Set(place, value) => {
            if place < st.elements(id).len() {
                st.set_element(id, place, value);
            }
        }
        Pop => return Ok(is_given(st.pop(id), wanted)),
        Shift => return Ok(is_given(st.shift(id), wanted)),
        Replace(values) => {
            let values = Items::from_slice(st.alloc(), values)?;
            st.replace_elements(id, values);
        }
    }
    Ok(wanted.is_empty())
}

fn has_elements(st: &Store, id: ObjId, list: &[Value]) -> bool {
    is_there(st, id) && st.elements(id) == list
}

fn is_right(st: &mut Store, id: ObjId, step: Step) -> Result<bool, AllocError> {
    Ok(
        is_a(st, id, Sort::Array)
            && hands_back(st, id, step.0, step.1)?
            && has_elements(st, id, step.2),
    )
}

#[test]
fn elements_as_in_a_list(rt: HostRuntime) -> Result<(), AllocError> {
    let mut st = Store::new(rt.alloc())?;
    let class = st.class_object(CoreClass::Array);
    let id = st.add(Object::new(class, Kind::Array(Items::new())))?;
    let other = st.add(Object::new(class, Kind::Array(Items::new())))?;
    'steps: for step in &STEPS {
        assert!(rt; is_right(&mut st, id, *step)?);
    }
    assert!(rt; has_elements(&st, other, &[]));
    Ok(())
}

/// Sets a variable of an object.
fn name(st: &mut Store, id: ObjId) -> Result<(), AllocError> {
    let name = st.intern(b"@name")?;
    if is_there(st, id) {
        st.set_variable(id, name, True)?;
    }
    Ok(())
}

#[test]
fn elements_beside_a_variable(rt: HostRuntime) -> Result<(), AllocError> {
    let mut st = Store::new(rt.alloc())?;
    let class = st.class_object(CoreClass::Array);
    let pair = Items::from_slice(rt.alloc(), &[Int(1), Int(2)])?;
    let id = st.add(Object::new(class, Kind::Array(pair)))?;
    name(&mut st, id)?;
    assert!(rt; has_elements(&st, id, &[Int(1), Int(2)]));
    assert!(rt; is_right(&mut st, id, (Replace(&[]), &[], &[]))?);
    'steps: for step in &STEPS {
        assert!(rt; is_right(&mut st, id, *step)?);
    }
    Ok(())
}
