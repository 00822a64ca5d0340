//! Methods, and how their arguments are counted.
use crate::value::{ObjId, SymId};

/// From where a method may be called.
#[derive(Clone, Copy, Debug, PartialEq, Eq)]
pub enum Visibility {
    Public,
    /// Where the receiver is the caller.
    Private,
    /// Where the class that has the method is among the ancestors of the caller.
    Protected,
}

/// What stands under a name in the method table of a class (ISO/IEC 30170:2012, 13.3).
#[derive(Clone, Copy, Debug, PartialEq, Eq)]
pub enum Method {
    /// A body of the program by its number, depth first, and the number of the list of classes around its text.
    Body { code: u32, scope: u64 },
    /// A row of the tables of core methods.
    Core(u16),
    /// Reads an instance variable.
    Reader(SymId),
    /// Sets an instance variable.
    Writer(SymId),
    /// Calls a Proc.
    Block(ObjId),
    /// Ends the search with nothing.
    Undefined,
}

/// A method with its visibility, as a method table keeps it.
#[derive(Clone, Copy, Debug, PartialEq, Eq)]
pub struct MethodEntry {
    pub method: Method,
    pub visibility: Visibility,
}

/// How many parameters a method, lambda or block has: required ones, optional ones, whether there is one for the
/// rest, and required ones after it (ISO/IEC 30170:2012, 13.3.2).
#[derive(Clone, Copy, Debug, PartialEq, Eq)]
pub struct Shape {
    pub required: u8,
    pub optional: u8,
    pub rest: bool,
    pub post: u8,
}
