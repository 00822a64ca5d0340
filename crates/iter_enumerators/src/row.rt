//! The methods of Enumerators and Yielders, by their names.

/// A method of an Enumerator or a Yielder, or the row of the Proc that an Enumerator's fiber runs.
#[derive(Clone, Copy, Debug, PartialEq, Eq)]
pub enum EnumeratorRow {
    Next,
    Peek,
    Rewind,
    Each,
    /// `<<` of a Yielder.
    Put,
    /// `yield` of a Yielder.
    Yield,
    /// What the fiber of an Enumerator runs: the source, with a block that yields its items.
    Enumerate,
}
