//! What the row of a number is.

use iter_items::ItemsRow;
use iter_items::rows_items::ItemRow;
use row_table::CoreRow;
use rows_array::ArrayRow;
use rows_class::ClassRow;
use rows_hash::HashRow;
use rows_object::ObjectRow;

/// A row that gives its outcome at once: one of a crate of rows, or that of a Proc that collects what it is called with
/// in the Array that it keeps.
#[derive(Clone, Copy, Debug, PartialEq, Eq)]
pub enum PlainRow {
    Object(ObjectRow),
    Class(ClassRow),
    Item(ItemRow),
    Array(ArrayRow),
    Hash(HashRow),
    Collect,
}

/// A row of Kernel, Class, Proc or Fiber that calls others, reads, writes, or moves between fibers.
#[derive(Clone, Copy, Debug, PartialEq, Eq)]
pub enum KernelRow {
    Puts,
    Print,
    Inspect,
    Gets,
    Raise,
    Loop,
    Send,
    PublicSend,
    /// The kept name is sent to the first argument.
    SendKept,
    /// The block is called with the receiver, which is given.
    Tap,
    /// What the block gives for the receiver is given.
    Then,
    NewObject,
    CallProc,
    Resume,
    Yield,
    /// What `to_s` of an exception gives is given.
    Message,
    /// An exception is shown by what its `to_s` gives.
    InspectException,
}

/// A row that calls its block for each item of the receiver, or that fills a new receiver.
#[derive(Clone, Copy, Debug, PartialEq, Eq)]
pub enum VisitRow {
    Times,
    Upto,
    Downto,
    Step,
    EachCharacter,
    EachByte,
    EachLine,
    InitializeArray,
    EachElement,
    EachIndex,
    MapInPlace,
    DeleteElements,
    InitializeHash,
    EachPair,
    EachKey,
    EachValue,
    DeletePairs,
    EachOfRange,
    StepOfRange,
}

/// A row that calls others, reads, writes, or moves between fibers.
#[derive(Clone, Copy, Debug, PartialEq, Eq)]
pub enum StarRow {
    Kernel(KernelRow),
    Visit(VisitRow),
    Items(ItemsRow),
}

/// What the row of a number is: one of the table, or none, which gives nil; one that gives its outcome at once; or one
/// that calls others.
#[derive(Clone, Copy, Debug, PartialEq, Eq)]
pub enum Row {
    OfTable(Option<CoreRow>),
    Plain(PlainRow),
    Star(StarRow),
}
