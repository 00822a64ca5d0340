//! Scripts of definitions and of questions about classes.
ghost use Rattle.def_core.specs.Sound.{Sound};

use crate::calls::*;
use Step::{
    Ancestors, Class, Dispatch, Include, Module, Reader, Seen, Show, Singleton, Superclass,
};
use Wanted::{Gives, New, Raises};
use rb_store::Store;
use rb_value::CoreClass::{NameError, TypeError};
use rb_value::Visibility::{Private, Public};
use rb_value::{CoreClass, ObjId, Outcome, Value, Visibility};
use std::alloc::{AllocError, Global};

/// What a definition gives or raises.
#[derive(Clone, Copy)]
enum Wanted {
    /// A value, which is called by the next number from here on.
    New,
    /// The value of that number.
    Gives(usize),
    Raises(CoreClass, &'static [u8]),
}

/// A definition, or a question about a class with its answer. Values are called by their numbers.
#[derive(Clone, Copy)]
enum Step {
    Module(usize, &'static [u8], Wanted),
    /// A scope, a name, a superclass or nil.
    Class(usize, &'static [u8], usize, Wanted),
    Include(usize, usize, Wanted),
    Singleton(usize, Wanted),
    Reader(usize, &'static [u8]),
    Show(usize, &'static [u8], Visibility, Wanted),
    Ancestors(usize, &'static [u8]),
    Superclass(usize, usize),
    Dispatch(usize, usize),
    Seen(usize, &'static [u8], Visibility),
}

/// The values at the start: Object, Class, nil and one.
const START: [Value; 4] = [
    Value::Obj(ObjId(0)),
    Value::Obj(ObjId(3)),
    Value::Nil,
    Value::Int(1),
];

const OBJECT: usize = 0;

const CLASS_OF_CLASSES: usize = 1;

const NIL: usize = 2;

const ONE: usize = 3;

/// What each script begins with: a module M, a class A, and a class B under A.
static FAMILY: [Step; 3] = [
    Module(OBJECT, b"M", New),
    Class(OBJECT, b"A", NIL, New),
    Class(OBJECT, b"B", A, New),
];

const M: usize = 4;

const A: usize = 5;

const B: usize = 6;

const FIRST: usize = 7;

const SECOND: usize = 8;

const THIRD: usize = 9;

fn value_at(values: &[Value], number: usize) -> Value {
    values.get(number).copied().unwrap_or(Value::Nil)
}

/// Whether a value is a String of those bytes.
fn has_text(st: &Store, id: ObjId, text: &[u8]) -> bool {
    st.has(id) && st.text(id) == text
}

/// Whether a call gave what it is to. A new value goes behind the others.
fn is_wanted(
    st: &Store,
    values: &mut Vec<Value>,
    outcome: Option<Outcome>,
    wanted: Wanted,
) -> Result<bool, AllocError> {
    match (outcome, wanted) {
        (Some(Outcome::Value(value)), New) => {
            values.push(value)?;
            Ok(true)
        }
        (Some(Outcome::Value(value)), Gives(number)) => Ok(value == value_at(values, number)),
        (Some(Outcome::Raise(failure)), Raises(class, text)) => {
            Ok(failure.class == class && has_text(st, failure.message, text))
        }
        _ => Ok(false),
    }
}

/// Whether a step gives what it is to.
fn is_right(st: &mut Store, values: &mut Vec<Value>, step: Step) -> Result<bool, AllocError>
    requires { Sound st.old.store }
    ensures { Sound st.new.store }
{
    let (outcome, wanted) = match step {
        Module(scope, name, wanted) => (module_in(st, value_at(values, scope), name)?, wanted),
        Class(scope, name, above, wanted) => {
            let above = value_at(values, above);
            (class_in(st, value_at(values, scope), name, above)?, wanted)
        }
        Include(of, mixin, wanted) => {
            let mixin = value_at(values, mixin);
            (included(st, value_at(values, of), mixin)?, wanted)
        }
        Singleton(of, wanted) => (singleton_of(st, value_at(values, of))?, wanted),
        Reader(of, name) => (reader(st, value_at(values, of), name)?, Gives(NIL)),
        Show(of, name, visibility, wanted) => {
            (shown(st, value_at(values, of), name, visibility)?, wanted)
        }
        _ => return is_answered(st, values, step),
    };
    is_wanted(st, values, outcome, wanted)
}

/// Whether a question has its answer.
fn is_answered(st: &mut Store, values: &[Value], step: Step) -> Result<bool, AllocError>
    requires { Sound st.old.store }
    ensures { Sound st.new.store }
{
    Ok(match step {
        Ancestors(of, names) => ancestor_names(st, value_at(values, of))?.as_slice() == names,
        Superclass(of, above) => superclass(st, value_at(values, of)) == value_at(values, above),
        Dispatch(of, first) => dispatch(st, value_at(values, of)) == value_at(values, first),
        Seen(of, name, visibility) => {
            own_visibility(st, value_at(values, of), name)? == Some(visibility)
        }
        _ => false,
    })
}

/// The number of the first step that gives something else; none where all give what they are to.
fn first_wrong(
    st: &mut Store,
    values: &mut Vec<Value>,
    steps: &[Step],
) -> Result<Option<usize>, AllocError>
    requires { Sound st.old.store }
    ensures { Sound st.new.store }
{
    'steps: for (i, step) in steps.iter().enumerate() {
        if !is_right(st, values, *step)? {
            return Ok(Some(i));
        }
    }
    Ok(None)
}

/// The number of the first step of a script of its own that gives something else.
fn first_wrong_of(alloc: Global, steps: &[Step]) -> Result<Option<usize>, AllocError> {
    let mut st = Store::new(alloc)?;
    let mut values = Vec::from_slice(alloc, &START)?;
    if first_wrong(&mut st, &mut values, &FAMILY)?.is_some() {
        return Ok(Some(0));
    }
    first_wrong(&mut st, &mut values, steps)
}

static INCLUDED_ONCE: [Step; 3] = [
    Include(A, M, Gives(A)),
    Include(B, M, Gives(B)),
    Ancestors(B, b"B A M Object Kernel "),
];

static LAST_IS_FIRST: [Step; 4] = [
    Module(OBJECT, b"N", New),
    Include(A, M, Gives(A)),
    Include(A, FIRST, Gives(A)),
    Ancestors(B, b"B A N M Object Kernel "),
];

static MODULES_OF_MODULES: [Step; 4] = [
    Module(OBJECT, b"N", New),
    Include(FIRST, M, Gives(FIRST)),
    Include(B, FIRST, Gives(B)),
    Ancestors(B, b"B N M A Object Kernel "),
];

#[test]
fn modules_among_the_ancestors(rt: HostRuntime) -> Result<(), AllocError> {
    assert_eq!(rt; first_wrong_of(rt.alloc(), &INCLUDED_ONCE)?, None);
    assert_eq!(rt; first_wrong_of(rt.alloc(), &LAST_IS_FIRST)?, None);
    assert_eq!(rt; first_wrong_of(rt.alloc(), &MODULES_OF_MODULES)?, None);
    Ok(())
}

static FROM_BELOW: [Step; 6] = [
    Singleton(B, New),
    Singleton(A, New),
    Singleton(OBJECT, New),
    Superclass(FIRST, SECOND),
    Superclass(SECOND, THIRD),
    Superclass(THIRD, CLASS_OF_CLASSES),
];

static INHERITED: [Step; 5] = [
    Singleton(OBJECT, New),
    Dispatch(B, FIRST),
    Singleton(A, New),
    Dispatch(B, SECOND),
    Singleton(ONE, Raises(TypeError, b"can't define singleton")),
];

#[test]
fn singleton_classes_follow_the_superclasses(rt: HostRuntime) -> Result<(), AllocError> {
    assert_eq!(rt; first_wrong_of(rt.alloc(), &FROM_BELOW)?, None);
    assert_eq!(rt; first_wrong_of(rt.alloc(), &INHERITED)?, None);
    Ok(())
}

static AGAIN: [Step; 5] = [
    Class(OBJECT, b"B", NIL, Gives(B)),
    Class(OBJECT, b"B", A, Gives(B)),
    Class(
        OBJECT,
        b"B",
        OBJECT,
        Raises(TypeError, b"superclass mismatch for class B"),
    ),
    Class(M, b"C", B, New),
    Ancestors(FIRST, b"M::C B A Object Kernel "),
];

static OF_ANOTHER_KIND: [Step; 5] = [
    Class(OBJECT, b"M", NIL, Raises(TypeError, b"M is not a class")),
    Module(OBJECT, b"A", Raises(TypeError, b"A is not a module")),
    Class(
        OBJECT,
        b"C",
        M,
        Raises(TypeError, b"superclass must be a Class"),
    ),
    Include(A, B, Raises(TypeError, b"expected Module, got Class")),
    Include(A, ONE, Raises(TypeError, b"expected Module, got Integer")),
];

#[test]
fn classes_are_opened_again(rt: HostRuntime) -> Result<(), AllocError> {
    assert_eq!(rt; first_wrong_of(rt.alloc(), &AGAIN)?, None);
    assert_eq!(rt; first_wrong_of(rt.alloc(), &OF_ANOTHER_KIND)?, None);
    Ok(())
}

static ENTRIES: [Step; 8] = [
    Reader(A, b"x"),
    Show(B, b"x", Private, Gives(NIL)),
    Seen(B, b"x", Private),
    Seen(A, b"x", Public),
    Show(
        B,
        b"y",
        Public,
        Raises(NameError, b"undefined method 'y' for class 'B'"),
    ),
    Reader(A, b"initialize"),
    Show(B, b"initialize", Public, Gives(NIL)),
    Seen(B, b"initialize", Private),
];

#[test]
fn a_subclass_gets_its_own_entry(rt: HostRuntime) -> Result<(), AllocError> {
    assert_eq!(rt; first_wrong_of(rt.alloc(), &ENTRIES)?, None);
    Ok(())
}
