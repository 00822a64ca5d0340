//! `Range.new`.
ghost use Rattle.std.specs.Prelude.{◌≡◌};
ghost use Rattle.def_rows.specs.RangeRows as rows;

use crate::ends::item_of;
use core_integer::core_rows::checking::plain_class;
use core_integer::core_rows::operands::{argument, place_of};
use def_core::Cause;
use def_rows::Answer;
use rb_integer::Item;
use rb_store::Store;
use rb_value::{CoreClass, ObjId, RangeContents, RangeEnds, Sort, Value};
use row_answer::{Fault, Plain};

/// Two Integers or two bytes as the ends of a Range.
fn kept_ends(first: Option<Item>, last: Option<Item>) -> Option<RangeEnds>
    ensures { result ≡ rows.kept_ends first last }
{
    match (first, last) {
        (Some(Item::Integer(first)), Some(Item::Integer(last))) => {
            Some(RangeEnds::Integers { first, last })
        }
        (Some(Item::Byte(first)), Some(Item::Byte(last))) => Some(RangeEnds::Bytes { first, last }),
        _ => None,
    }
}

/// A new Range of a class.
fn made(class: ObjId, exclusive: bool, ends: Option<RangeEnds>) -> Answer
    ensures { result ≡ rows.made class exclusive ends }
{
    match ends {
        Some(ends) => Answer::Range {
            class,
            contents: RangeContents { ends, exclusive },
        },
        None => Answer::Plain(Plain::Fail(Fault::BadRange)),
    }
}

/// `class.new(first, last)` and `class.new(first, last, exclusive)`, where the call isn't refused.
pub fn new_range(st: &Store, recv: Value, args: &[Value]) -> Answer
    ensures { result ≡ rows.new_range st.now.store.objects recv args.now }
{
    match place_of(st, Sort::Class, recv) {
        Some(class) => {
            let first = item_of(st, argument(args, 0));
            let last = item_of(st, argument(args, 1));
            let exclusive = argument(args, 2).is_true();
            made(class, exclusive, kept_ends(first, last))
        }
        None => Answer::Fail(Cause::Expected {
            class: st.class_object(CoreClass::Class),
            got: plain_class(st, recv),
        }),
    }
}
