//! Calls with Integers, or with one Array of them, and what the parameters are bound to.
ghost use Rattle.def_core.specs.Sound.{Sound, Census, census, IsValue, AllAre};
ghost use Rattle.std.specs.Prelude.{IfOk};

use Want::{Args, List, Rest, RestOfArgs, Wrong};
use def_core::BindKind::{Lambda, Method, Proc};
use def_core::{BindKind, Bound};
use method_lookup::bind;
use rb_store::Store;
use rb_value::Value::{Int, Nil};
use rb_value::{ObjId, Shape, Value};
use std::alloc::{AllocError, Global};

/// What binding is to give.
#[derive(Clone, Copy)]
enum Want {
    /// This list, and so many filled optional parameters.
    List(&'static [Value], u8),
    /// These values, an Array of these, these values; and so many filled optional parameters.
    Rest(&'static [Value], &'static [Value], &'static [Value], u8),
    /// The arguments themselves, and so many filled optional parameters.
    Args(u8),
    /// An Array of the arguments alone.
    RestOfArgs,
    /// So many arguments are wrong.
    Wrong(usize),
}

/// Parameters: how many are required, how many optional, whether there is a rest, how many come after.
type Parameters = (u8, u8, bool, u8);

/// A call with so many Integers from 1 on.
type Row = (BindKind, Parameters, usize, Want);

static BY_COUNT: [Row; 14] = [
    (Method, (0, 0, false, 0), 0, List(&[], 0)),
    (Method, (0, 0, false, 0), 1, Wrong(1)),
    (Method, (2, 0, false, 0), 2, List(&[Int(1), Int(2)], 0)),
    (Method, (2, 0, false, 0), 1, Wrong(1)),
    (Lambda, (2, 0, false, 0), 3, Wrong(3)),
    (Method, (1, 2, false, 0), 1, List(&[Int(1), Nil, Nil], 0)),
    (Method, (1, 2, false, 0), 2, List(&[Int(1), Int(2), Nil], 1)),
    (
        Method,
        (1, 2, false, 0),
        3,
        List(&[Int(1), Int(2), Int(3)], 2),
    ),
    (Method, (1, 2, false, 0), 4, Wrong(4)),
    (Lambda, (0, 2, false, 1), 0, Wrong(0)),
    (Lambda, (0, 2, false, 1), 1, List(&[Nil, Nil, Int(1)], 0)),
    (Lambda, (0, 2, false, 1), 2, List(&[Int(1), Nil, Int(2)], 1)),
    (Method, (1, 1, false, 1), 2, List(&[Int(1), Nil, Int(2)], 0)),
    (
        Method,
        (1, 1, false, 1),
        3,
        List(&[Int(1), Int(2), Int(3)], 1),
    ),
];

static WITH_REST: [Row; 9] = [
    (Method, (0, 0, true, 0), 0, Rest(&[], &[], &[], 0)),
    (
        Method,
        (0, 0, true, 0),
        2,
        Rest(&[], &[Int(1), Int(2)], &[], 0),
    ),
    (Method, (1, 0, true, 0), 1, Rest(&[Int(1)], &[], &[], 0)),
    (Lambda, (1, 0, true, 0), 0, Wrong(0)),
    (
        Method,
        (0, 0, true, 2),
        3,
        Rest(&[], &[Int(1)], &[Int(2), Int(3)], 0),
    ),
    (
        Lambda,
        (1, 1, true, 1),
        5,
        Rest(&[Int(1), Int(2)], &[Int(3), Int(4)], &[Int(5)], 1),
    ),
    (
        Method,
        (1, 1, true, 1),
        3,
        Rest(&[Int(1), Int(2)], &[], &[Int(3)], 1),
    ),
    (
        Method,
        (1, 1, true, 1),
        2,
        Rest(&[Int(1), Nil], &[], &[Int(2)], 0),
    ),
    (Method, (1, 1, true, 1), 1, Wrong(1)),
];

static OF_PROCS: [Row; 10] = [
    (Proc, (2, 0, false, 0), 0, List(&[Nil, Nil], 0)),
    (Proc, (2, 0, false, 0), 1, List(&[Int(1), Nil], 0)),
    (Proc, (2, 0, false, 0), 3, List(&[Int(1), Int(2)], 0)),
    (Proc, (0, 0, false, 0), 2, List(&[], 0)),
    (Proc, (1, 0, false, 0), 2, List(&[Int(1)], 0)),
    (Proc, (0, 2, false, 0), 3, List(&[Int(1), Int(2)], 2)),
    (Proc, (1, 1, false, 1), 1, List(&[Int(1), Nil, Nil], 0)),
    (Proc, (0, 0, true, 1), 0, Rest(&[], &[], &[Nil], 0)),
    (
        Proc,
        (1, 1, true, 1),
        1,
        Rest(&[Int(1), Nil], &[], &[Nil], 0),
    ),
    (
        Proc,
        (1, 1, true, 0),
        3,
        Rest(&[Int(1), Int(2)], &[Int(3)], &[], 1),
    ),
];

/// Calls with one Array of so many Integers.
static OF_AN_ARRAY: [Row; 11] = [
    (Proc, (2, 0, false, 0), 2, List(&[Int(1), Int(2)], 0)),
    (Proc, (2, 0, false, 0), 3, List(&[Int(1), Int(2)], 0)),
    (Proc, (2, 0, false, 0), 0, List(&[Nil, Nil], 0)),
    (Proc, (0, 2, false, 0), 1, List(&[Int(1), Nil], 1)),
    (
        Proc,
        (1, 0, true, 0),
        3,
        Rest(&[Int(1)], &[Int(2), Int(3)], &[], 0),
    ),
    (
        Proc,
        (1, 1, true, 1),
        5,
        Rest(&[Int(1), Int(2)], &[Int(3), Int(4)], &[Int(5)], 1),
    ),
    (Method, (2, 0, false, 0), 2, Wrong(1)),
    (Lambda, (2, 0, false, 0), 2, Wrong(1)),
    (Proc, (1, 0, false, 0), 2, Args(0)),
    (Proc, (0, 1, false, 0), 2, Args(1)),
    (Proc, (0, 0, true, 0), 2, RestOfArgs),
];

/// So many Integers from 1 on, at most five.
fn numbers(count: usize) -> &'static [Value]
    ensures { (k : Census) → AllAre (IsValue k) result.now }
{
    match count {
        0 => &[],
        1 => &[Int(1)],
        2 => &[Int(1), Int(2)],
        3 => &[Int(1), Int(2), Int(3)],
        4 => &[Int(1), Int(2), Int(3), Int(4)],
        _ => &[Int(1), Int(2), Int(3), Int(4), Int(5)],
    }
}

/// Whether a value is an Array of these elements.
fn is_array(st: &Store, value: Value, elements: &[Value]) -> bool {
    match value {
        Value::Obj(id) => st.has(id) && st.elements(id) == elements,
        _ => false,
    }
}

/// Whether a list is the values in front, an Array of the rest, and the last values.
fn has_rest(st: &Store, list: &[Value], front: &[Value], rest: &[Value], last: &[Value]) -> bool {
    let at = front.len();
    at < list.len()
        && &list[..at] == front
        && is_array(st, list[at], rest)
        && &list[at + 1..] == last
}

fn is_wanted(st: &Store, args: &[Value], list: &[Value], filled: u8, want: Want) -> bool {
    match want {
        List(values, count) => list == values && filled == count,
        Rest(front, rest, last, count) => has_rest(st, list, front, rest, last) && filled == count,
        Args(count) => list == args && filled == count,
        RestOfArgs => has_rest(st, list, &[], args, &[]),
        Wrong(_) => false,
    }
}

fn shape_of(parameters: Parameters) -> Shape {
    let (required, optional, rest, post) = parameters;
    Shape {
        required,
        optional,
        rest,
        post,
    }
}

/// Whether binding these arguments gives what is wanted.
fn binds(
    st: &mut Store,
    kind: BindKind,
    parameters: Parameters,
    args: &[Value],
    want: Want,
) -> Result<bool, AllocError>
    requires sound { Sound st.old.store }
    requires args { AllAre (IsValue (census st.old.store)) args.now }
    ensures sound { Sound st.new.store }
{
    match bind(st, shape_of(parameters), args, kind)? {
        Bound::Values { list, filled } => Ok(is_wanted(st, args, list.as_slice(), filled, want)),
        Bound::Wrong { given } => match want {
            Wrong(count) => Ok(given == count),
            _ => Ok(false),
        },
    }
}

/// A new Array of these elements.
fn new_array(st: &mut Store, elements: &[Value]) -> Result<Value, AllocError>
    requires sound { Sound st.old.store }
    requires elements { AllAre (IsValue (census st.old.store)) elements.now }
    ensures sound { Sound st.new.store }
    ensures value { IfOk result (IsValue (census st.new.store)) }
{
    match bind(st, shape_of((0, 0, true, 0)), elements, Method)? {
        Bound::Values { list, filled: _ } => Ok(list.as_slice().first().copied().unwrap_or(Nil)),
        Bound::Wrong { given: _ } => Ok(Nil),
    }
}

/// Whether a call gives what is wanted.
fn is_right(st: &mut Store, row: Row, in_array: bool) -> Result<bool, AllocError>
    requires sound { Sound st.old.store }
    ensures sound { Sound st.new.store }
{
    let (kind, parameters, count, want) = row;
    let args = numbers(count);
    if !in_array {
        return binds(st, kind, parameters, args, want);
    }
    let array = new_array(st, args)?;
    binds(st, kind, parameters, &[array], want)
}

/// The number of the first row that gives something else; none where all give what they are to.
fn first_wrong(alloc: Global, rows: &[Row], in_array: bool) -> Result<Option<usize>, AllocError> {
    let mut st = Store::new(alloc)?;
    'rows: for (i, row) in rows.iter().enumerate() {
        if !is_right(&mut st, *row, in_array)? {
            return Ok(Some(i));
        }
    }
    Ok(None)
}

#[test]
fn parameters_get_the_arguments(rt: HostRuntime) -> Result<(), AllocError> {
    assert_eq!(rt; first_wrong(rt.alloc(), &BY_COUNT, false)?, None);
    assert_eq!(rt; first_wrong(rt.alloc(), &WITH_REST, false)?, None);
    assert_eq!(rt; first_wrong(rt.alloc(), &OF_PROCS, false)?, None);
    assert_eq!(rt; first_wrong(rt.alloc(), &OF_AN_ARRAY, true)?, None);
    Ok(())
}
