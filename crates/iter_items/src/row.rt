//! What the methods over items are.
use iter_comparing::ComparingRow;
use iter_enumerators::EnumeratorRow;
use rows_items::ItemRow;

/// A method over the items of an Array, a Hash or a Range.
#[derive(Clone, Copy, Debug, PartialEq, Eq)]
pub enum Task {
    Map,
    FlatMap,
    Select,
    Reject,
    Find,
    FindIndex,
    Partition,
    GroupBy,
    EachWithIndex,
    EachWithObject,
    EachSlice,
    EachCons,
    ReverseEach,
    TakeWhile,
    DropWhile,
    MinBy,
    MaxBy,
    SortBy,
    All,
    Any,
    Never,
    Count,
    Inject,
    Sum,
}

/// A method of Enumerable, over the items that `each` gives: one over items that calls others, `include?`, or one that
/// calls none.
#[derive(Clone, Copy, Debug, PartialEq, Eq)]
pub enum GatheringRow {
    Visits(Task),
    Includes,
    Outright(ItemRow),
}

/// A method over items, one that compares or shows values, one of an Enumerator, or one of Enumerable.
#[derive(Clone, Copy, Debug, PartialEq, Eq)]
pub enum ItemsRow {
    Visits(Task),
    Compares(ComparingRow),
    Enumerates(EnumeratorRow),
    Gathers(GatheringRow),
}
