//! What the search for a method finds.
use rb_value::{Method, ObjId, Visibility};

/// A method with the class or module that has it, and its visibility there.
#[derive(Clone, Copy, Debug, PartialEq, Eq)]
pub struct Found {
    pub owner: ObjId,
    pub method: Method,
    pub visibility: Visibility,
}
