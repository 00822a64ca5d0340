//! What each row of Range gives.
ghost use Rattle.std.specs.Prelude.{◌≡◌, ◌≤◌, IfOk};
ghost use Rattle.rb_integer.specs.Ends as numbers;
ghost use Rattle.def_rows.specs.RangeRows as rows;

use crate::ends::{has_item, range, same_ends};
use crate::inspection::shown;
use crate::items::{item, items};
use core_integer::answers::{fault_of, number, text};
use core_integer::core_rows::operands::{argument, integer};
use rb_base::Bytes;
use rb_integer::{Ends, IntegerFailure};
use rb_store::Store;
use rb_value::Value;
use row_answer::Plain;
use row_table::RangeMethod;
use std::alloc::{AllocError, Global};

/// How many items `range.first(count)` gives.
fn front_count(ends: Ends, count: i64) -> Result<u64, IntegerFailure>
    ensures value { result ≡ numbers.first_count ends.bounds ends.is_exclusive count }
    ensures within { IfOk result (λ n. n ≤ numbers.count ends.bounds ends.is_exclusive) }
{
    ends.first_count(count)
}

/// `range.first` and `range.first(count)`.
fn front(alloc: Global, ends: Ends, args: &[Value]) -> Result<Plain, AllocError>
    ensures { IfOk result (λ a. a ≡ rows.front ends args.now) }
{
    if args.is_empty() {
        return item(alloc, ends.first());
    }
    match front_count(ends, integer(args[0])) {
        Ok(count) => items(alloc, ends, count),
        Err(failure) => Ok(Plain::Fail(fault_of(failure))),
    }
}

/// What a method gives, where its call isn't refused.
pub fn give(
    st: &Store,
    method: RangeMethod,
    recv: Value,
    args: &[Value],
) -> Result<Plain, AllocError>
    ensures { IfOk result (λ a. a ≡ rows.gives method st.now.store.objects recv args.now) }
{
    let alloc = st.alloc();
    let ends = range(st, recv);
    let first = argument(args, 0);
    Ok(match method {
        RangeMethod::First => front(alloc, ends, args)?,
        RangeMethod::Begin => item(alloc, ends.first())?,
        RangeMethod::Last | RangeMethod::End => item(alloc, ends.last())?,
        RangeMethod::Size => number(ends.size()),
        RangeMethod::IsExclusive => Plain::Truth(ends.is_exclusive),
        RangeMethod::Includes | RangeMethod::HasMember | RangeMethod::Matches => Plain::Truth(
            has_item(st, ends, first),
        ),
        RangeMethod::Equal => Plain::Truth(same_ends(st, ends, first)),
        RangeMethod::ToText => text(alloc, &ends.to_text())?,
        RangeMethod::Inspect => Plain::Text(Bytes::from_vec(shown(alloc, ends)?)),
    })
}
