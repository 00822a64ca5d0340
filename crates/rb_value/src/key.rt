//! The keys of a Hash.
use crate::value::Value;
use key_list::KeyList;

/// A part of a key that is an Array: a value, the bytes of a String, or the head of an Array with so many elements,
/// whose parts follow.
#[derive(Debug, Drop, PartialEq, Eq, Hash)]
pub enum KeyPart {
    Plain(Value),
    Text(KeyList<u8>),
    Array(u64),
}

/// A key of a Hash: an Integer, Symbol, nil, true, false or an object by itself; a String by a copy of its bytes; an
/// Array by a copy of its elements, those of inner Arrays after their heads.
#[derive(Debug, Drop, PartialEq, Eq, Hash)]
pub enum Key {
    Plain(Value),
    Text(KeyList<u8>),
    Array(KeyList<KeyPart>),
}
