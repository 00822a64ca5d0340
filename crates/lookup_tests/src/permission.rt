//! Who may call a method.
ghost use Rattle.def_core.specs.Sound.{Sound, Census, IsValue, OptionIs};

use def_core::Found;
use method_lookup::allowed;
use rb_store::Store;
use rb_value::CoreClass::{Kernel, Numeric};
use rb_value::Value::{Int, Nil};
use rb_value::Visibility::{Private, Protected, Public};
use rb_value::{CoreClass, Method, Value, Visibility};
use std::alloc::AllocError;

/// Whose method it is, its visibility, who calls it, on what, and whether it may.
type Row = (CoreClass, Visibility, Value, Value, bool);

static ROWS: [Row; 9] = [
    (Numeric, Public, Nil, Int(1), true),
    (Numeric, Private, Int(1), Int(1), true),
    (Numeric, Private, Int(2), Int(1), false),
    (Numeric, Private, Nil, Int(1), false),
    (Numeric, Private, Nil, Nil, true),
    (Numeric, Protected, Int(1), Int(2), true),
    (Numeric, Protected, Nil, Int(1), false),
    // Object includes Kernel.
    (Kernel, Protected, Nil, Int(1), true),
    (Kernel, Private, Int(1), Int(2), false),
];

/// A value that is no object and no Symbol, and so one of every store.
fn plain(value: Value) -> Option<Value>
    ensures { (k : Census) → OptionIs (IsValue k) result }
{
    match value {
        Value::Obj(_) | Value::Sym(_) => None,
        _ => Some(value),
    }
}

fn is_right(st: &Store, row: Row) -> bool
    requires { Sound st.now.store }
{
    let (owner, visibility, caller, receiver, wanted) = row;
    let Some(caller) = plain(caller) else {
        return false;
    };
    let found = Found {
        owner: st.class_object(owner),
        method: Method::Body { code: 1, scope: 0 },
        visibility,
    };
    allowed(st, caller, receiver, &found) == wanted
}

#[test]
fn who_may_call(rt: HostRuntime) -> Result<(), AllocError> {
    let st = Store::new(rt.alloc())?;
    'rows: for row in &ROWS {
        assert!(rt; is_right(&st, *row));
    }
    Ok(())
}
