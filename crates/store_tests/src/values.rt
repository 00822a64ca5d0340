//! How large values and objects are, and which keys are the same.
use key_list::KeyList;
use rb_value::{Cell, Key, KeyPart, Object, Value};
use std::alloc::{AllocError, Global};
use std::mem::size_of;

#[test]
fn values_and_objects_are_small(rt: HostRuntime) {
    assert_eq!(rt; size_of::<Value>(), 16);
    assert_eq!(rt; size_of::<Cell>(), 16);
    assert!(rt; size_of::<Object>() <= 64);
}

/// The key of an Array of one String.
fn array_key(alloc: Global, text: &[u8]) -> Result<Key, AllocError> {
    let mut parts = Vec::new(alloc);
    parts.push(KeyPart::Array(1))?;
    parts.push(KeyPart::Text(KeyList::from_slice(alloc, text)?))?;
    Ok(Key::Array(KeyList::from_vec(parts)))
}

#[test]
fn keys_go_by_contents(rt: HostRuntime) -> Result<(), AllocError> {
    let key = array_key(rt.alloc(), b"a")?;
    assert!(rt; key == array_key(rt.alloc(), b"a")?);
    assert!(rt; key != array_key(rt.alloc(), b"b")?);
    assert!(rt; key != Key::Text(KeyList::from_slice(rt.alloc(), b"a")?));
    assert!(rt; Key::Plain(Value::Int(1)) != Key::Plain(Value::True));
    Ok(())
}
