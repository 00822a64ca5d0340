//! The rows that no name leads to, only Procs that keep them. Their segment stands behind those of all classes.

/// The segment of the hidden rows.
pub const HIDDEN: u16 = 76;

/// The row of a Proc that sends the kept name to its first argument.
pub const SEND_KEPT_ROW: u16 = HIDDEN * 256;

/// The row of a Proc that puts its argument after the elements of the kept Array: several as one Array, none as nil.
pub const COLLECT_ROW: u16 = HIDDEN * 256 + 1;

/// The row of a Proc that yields its arguments to what resumed the fiber, whatever it keeps.
pub const YIELD_ROW: u16 = HIDDEN * 256 + 2;

/// The first of the hidden rows that the items have.
pub const FIRST_OF_ITEMS: u16 = HIDDEN * 256 + 3;
