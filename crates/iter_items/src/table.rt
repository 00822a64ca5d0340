//! The methods over items, those that compare or show values, and those of Enumerators, by the names under which
//! classes have them.
ghost use Rattle.std.specs.Prelude.{◌≡◌, map};
ghost use Rattle.iter_items.specs.Named as named;

use crate::row::{GatheringRow, ItemsRow, Task};
use iter_comparing::{ComparingRow, OrderRow};
use iter_enumerators::EnumeratorRow;
use rows_items::ItemRow;

// The methods over items, and then further methods.
macro_rules! items_and {
    ($($name:literal $row:expr;)*) => {
        [
            (b"map", ItemsRow::Visits(Task::Map)),
            (b"collect", ItemsRow::Visits(Task::Map)),
            (b"flat_map", ItemsRow::Visits(Task::FlatMap)),
            (b"select", ItemsRow::Visits(Task::Select)),
            (b"filter", ItemsRow::Visits(Task::Select)),
            (b"reject", ItemsRow::Visits(Task::Reject)),
            (b"find", ItemsRow::Visits(Task::Find)),
            (b"detect", ItemsRow::Visits(Task::Find)),
            (b"find_index", ItemsRow::Visits(Task::FindIndex)),
            (b"partition", ItemsRow::Visits(Task::Partition)),
            (b"group_by", ItemsRow::Visits(Task::GroupBy)),
            (b"each_with_index", ItemsRow::Visits(Task::EachWithIndex)),
            (b"each_with_object", ItemsRow::Visits(Task::EachWithObject)),
            (b"each_slice", ItemsRow::Visits(Task::EachSlice)),
            (b"each_cons", ItemsRow::Visits(Task::EachCons)),
            (b"reverse_each", ItemsRow::Visits(Task::ReverseEach)),
            (b"take_while", ItemsRow::Visits(Task::TakeWhile)),
            (b"drop_while", ItemsRow::Visits(Task::DropWhile)),
            (b"min_by", ItemsRow::Visits(Task::MinBy)),
            (b"max_by", ItemsRow::Visits(Task::MaxBy)),
            (b"sort_by", ItemsRow::Visits(Task::SortBy)),
            (b"all?", ItemsRow::Visits(Task::All)),
            (b"any?", ItemsRow::Visits(Task::Any)),
            (b"none?", ItemsRow::Visits(Task::Never)),
            (b"count", ItemsRow::Visits(Task::Count)),
            (b"inject", ItemsRow::Visits(Task::Inject)),
            (b"reduce", ItemsRow::Visits(Task::Inject)),
            (b"sum", ItemsRow::Visits(Task::Sum)),
            $(($name, $row)),*
        ]
    };
}

const OBJECT: [(&[u8], ItemsRow); 2] = [
    (b"!=", ItemsRow::Compares(ComparingRow::Differs)),
    (b"===", ItemsRow::Compares(ComparingRow::Matches)),
];

const COMPARABLE: [(&[u8], ItemsRow); 7] = [
    (
        b"<",
        ItemsRow::Compares(ComparingRow::Order(OrderRow::Less)),
    ),
    (
        b"<=",
        ItemsRow::Compares(ComparingRow::Order(OrderRow::AtMost)),
    ),
    (
        b">",
        ItemsRow::Compares(ComparingRow::Order(OrderRow::Greater)),
    ),
    (
        b">=",
        ItemsRow::Compares(ComparingRow::Order(OrderRow::AtLeast)),
    ),
    (
        b"==",
        ItemsRow::Compares(ComparingRow::Order(OrderRow::Equal)),
    ),
    (
        b"between?",
        ItemsRow::Compares(ComparingRow::Order(OrderRow::Between)),
    ),
    (
        b"clamp",
        ItemsRow::Compares(ComparingRow::Order(OrderRow::Clamp)),
    ),
];

const ENUMERABLE: [(&[u8], ItemsRow); 41] = [
    (b"map", ItemsRow::Gathers(GatheringRow::Visits(Task::Map))),
    (
        b"collect",
        ItemsRow::Gathers(GatheringRow::Visits(Task::Map)),
    ),
    (
        b"flat_map",
        ItemsRow::Gathers(GatheringRow::Visits(Task::FlatMap)),
    ),
    (
        b"select",
        ItemsRow::Gathers(GatheringRow::Visits(Task::Select)),
    ),
    (
        b"filter",
        ItemsRow::Gathers(GatheringRow::Visits(Task::Select)),
    ),
    (
        b"reject",
        ItemsRow::Gathers(GatheringRow::Visits(Task::Reject)),
    ),
    (b"find", ItemsRow::Gathers(GatheringRow::Visits(Task::Find))),
    (
        b"detect",
        ItemsRow::Gathers(GatheringRow::Visits(Task::Find)),
    ),
    (
        b"find_index",
        ItemsRow::Gathers(GatheringRow::Visits(Task::FindIndex)),
    ),
    (
        b"partition",
        ItemsRow::Gathers(GatheringRow::Visits(Task::Partition)),
    ),
    (
        b"group_by",
        ItemsRow::Gathers(GatheringRow::Visits(Task::GroupBy)),
    ),
    (
        b"each_with_index",
        ItemsRow::Gathers(GatheringRow::Visits(Task::EachWithIndex)),
    ),
    (
        b"each_with_object",
        ItemsRow::Gathers(GatheringRow::Visits(Task::EachWithObject)),
    ),
    (
        b"each_slice",
        ItemsRow::Gathers(GatheringRow::Visits(Task::EachSlice)),
    ),
    (
        b"each_cons",
        ItemsRow::Gathers(GatheringRow::Visits(Task::EachCons)),
    ),
    (
        b"reverse_each",
        ItemsRow::Gathers(GatheringRow::Visits(Task::ReverseEach)),
    ),
    (
        b"take_while",
        ItemsRow::Gathers(GatheringRow::Visits(Task::TakeWhile)),
    ),
    (
        b"drop_while",
        ItemsRow::Gathers(GatheringRow::Visits(Task::DropWhile)),
    ),
    (
        b"min_by",
        ItemsRow::Gathers(GatheringRow::Visits(Task::MinBy)),
    ),
    (
        b"max_by",
        ItemsRow::Gathers(GatheringRow::Visits(Task::MaxBy)),
    ),
    (
        b"sort_by",
        ItemsRow::Gathers(GatheringRow::Visits(Task::SortBy)),
    ),
    (b"all?", ItemsRow::Gathers(GatheringRow::Visits(Task::All))),
    (b"any?", ItemsRow::Gathers(GatheringRow::Visits(Task::Any))),
    (
        b"none?",
        ItemsRow::Gathers(GatheringRow::Visits(Task::Never)),
    ),
    (
        b"count",
        ItemsRow::Gathers(GatheringRow::Visits(Task::Count)),
    ),
    (
        b"inject",
        ItemsRow::Gathers(GatheringRow::Visits(Task::Inject)),
    ),
    (
        b"reduce",
        ItemsRow::Gathers(GatheringRow::Visits(Task::Inject)),
    ),
    (b"sum", ItemsRow::Gathers(GatheringRow::Visits(Task::Sum))),
    (b"include?", ItemsRow::Gathers(GatheringRow::Includes)),
    (b"member?", ItemsRow::Gathers(GatheringRow::Includes)),
    (
        b"to_a",
        ItemsRow::Gathers(GatheringRow::Outright(ItemRow::ToArray)),
    ),
    (
        b"entries",
        ItemsRow::Gathers(GatheringRow::Outright(ItemRow::Entries)),
    ),
    (
        b"first",
        ItemsRow::Gathers(GatheringRow::Outright(ItemRow::First)),
    ),
    (
        b"min",
        ItemsRow::Gathers(GatheringRow::Outright(ItemRow::Min)),
    ),
    (
        b"max",
        ItemsRow::Gathers(GatheringRow::Outright(ItemRow::Max)),
    ),
    (
        b"sort",
        ItemsRow::Gathers(GatheringRow::Outright(ItemRow::Sort)),
    ),
    (
        b"uniq",
        ItemsRow::Gathers(GatheringRow::Outright(ItemRow::Uniq)),
    ),
    (
        b"zip",
        ItemsRow::Gathers(GatheringRow::Outright(ItemRow::Zip)),
    ),
    (
        b"take",
        ItemsRow::Gathers(GatheringRow::Outright(ItemRow::Take)),
    ),
    (
        b"drop",
        ItemsRow::Gathers(GatheringRow::Outright(ItemRow::Drop)),
    ),
    (
        b"tally",
        ItemsRow::Gathers(GatheringRow::Outright(ItemRow::Tally)),
    ),
];

const ARRAY: [(&[u8], ItemsRow); 40] = items_and! {
    b"*" ItemsRow::Compares(ComparingRow::ArrayRepeat);
    b"==" ItemsRow::Compares(ComparingRow::ArrayEquality);
    b"<=>" ItemsRow::Compares(ComparingRow::ArrayOrder);
    b"index" ItemsRow::Compares(ComparingRow::ArrayIndex);
    b"include?" ItemsRow::Compares(ComparingRow::ArrayIncludes);
    b"delete" ItemsRow::Compares(ComparingRow::ArrayDelete);
    b"-" ItemsRow::Compares(ComparingRow::ArrayDifference);
    b"&" ItemsRow::Compares(ComparingRow::ArrayIntersection);
    b"|" ItemsRow::Compares(ComparingRow::ArrayUnion);
    b"join" ItemsRow::Compares(ComparingRow::ArrayJoin);
    b"inspect" ItemsRow::Compares(ComparingRow::ArrayText);
    b"to_s" ItemsRow::Compares(ComparingRow::ArrayText);
};

const HASH: [(&[u8], ItemsRow); 35] = items_and! {
    b"[]" ItemsRow::Compares(ComparingRow::HashElement);
    b"fetch" ItemsRow::Compares(ComparingRow::HashFetch);
    b"value?" ItemsRow::Compares(ComparingRow::HashHasValue);
    b"key" ItemsRow::Compares(ComparingRow::HashKeyOf);
    b"==" ItemsRow::Compares(ComparingRow::HashEquality);
    b"inspect" ItemsRow::Compares(ComparingRow::HashText);
    b"to_s" ItemsRow::Compares(ComparingRow::HashText);
};

const RANGE: [(&[u8], ItemsRow); 28] = items_and! {
};

const ENUMERATOR: [(&[u8], ItemsRow); 4] = [
    (b"next", ItemsRow::Enumerates(EnumeratorRow::Next)),
    (b"peek", ItemsRow::Enumerates(EnumeratorRow::Peek)),
    (b"rewind", ItemsRow::Enumerates(EnumeratorRow::Rewind)),
    (b"each", ItemsRow::Enumerates(EnumeratorRow::Each)),
];

const YIELDER: [(&[u8], ItemsRow); 2] = [
    (b"<<", ItemsRow::Enumerates(EnumeratorRow::Put)),
    (b"yield", ItemsRow::Enumerates(EnumeratorRow::Yield)),
];

const HIDDEN: [(&[u8], ItemsRow); 1] = [(b"", ItemsRow::Enumerates(EnumeratorRow::Enumerate))];

/// The methods that a segment has, with their names. The hidden segment has a row that no name leads to.
#[tactic(auto, unfolding(crate::specs::Named::visits, crate::specs::Named::object_rows, crate::specs::Named::comparable_rows, crate::specs::Named::array_rows, crate::specs::Named::hash_rows, crate::specs::Named::enumerator_rows, crate::specs::Named::yielder_rows, crate::specs::Named::gathered_rows))]
pub fn rows_of(segment: u16) -> &'static [(&'static [u8], ItemsRow)]
    ensures { map (λ r. (r.0.now, r.1)) result.now ≡ named.rows segment }
{
    match segment {
        0 => &OBJECT,
        8 => &COMPARABLE,
        10 => &ENUMERABLE,
        26 => &ARRAY,
        28 => &HASH,
        30 => &RANGE,
        36 => &ENUMERATOR,
        38 => &YIELDER,
        76 => &HIDDEN,
        _ => &[],
    }
}
