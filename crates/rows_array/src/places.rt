//! Places of a list by indexes, which count from the end where they are negative.
ghost use Rattle.std.specs.Prelude.{◌≡◌, ◌<◌, ◌-◌, ◌^◌, take, drop, None, Some, IfSome, MatchOption};
ghost use Rattle.def_calls.specs.Values.{element_at};
ghost use Rattle.rows_array.specs.Lists as lists;

use rb_value::Value;

/// The place of an index in a list of so many; none before its start. It may lie past the end.
#[inline(always)]
pub(crate) fn place_in(len: usize, index: i64) -> Option<usize>
    ensures place { result ≡ lists.place_in len index }
    ensures within { IfSome result (λ place. place < 2 ^ 64 - 1) }
{
    match usize::try_from(index) {
        Ok(place) => Some(place),
        Err(_) => len.checked_sub(index.unsigned_abs() as usize),
    }
}

/// The value at an index; nil outside.
#[inline(always)]
pub(crate) fn value_at(values: &[Value], index: i64) -> Value
    ensures { result ≡ element_at values.now index }
{
    match place_in(values.len(), index) {
        Some(place) => values.get(place).copied().unwrap_or(Value::Nil),
        None => Value::Nil,
    }
}

/// The first values, at most so many.
pub(crate) fn front(values: &[Value], count: usize) -> &[Value]
    ensures { result.now ≡ take count values.now }
{
    match values.get(..count) {
        Some(front) => front,
        None => values,
    }
}

/// The values from a place on; none past the end.
pub(crate) fn behind(values: &[Value], place: usize) -> &[Value]
    ensures { result.now ≡ drop place values.now }
{
    match values.get(place..) {
        Some(rest) => rest,
        None => &[],
    }
}

/// The values from an index on, at most so many; nothing where the index lies outside or the count is negative.
pub(crate) fn part(values: &[Value], index: i64, count: i64) -> Option<&[Value]>
    ensures { MatchOption result (lists.part values.now index count ≡ None)
        (λ part. lists.part values.now index count ≡ Some part.now) }
{
    let place = place_in(values.len(), index)?;
    let count = usize::try_from(count).ok()?;
    let rest = values.get(place..)?;
    Some(front(rest, count))
}

/// The values from an index up to another; nothing where the first lies outside.
pub(crate) fn range_part(
    values: &[Value],
    first: i64,
    last: i64,
    exclusive: bool,
) -> Option<&[Value]>
    ensures { MatchOption result (lists.range_part values.now first last exclusive ≡ None)
        (λ part. lists.range_part values.now first last exclusive ≡ Some part.now) }
{
    let place = place_in(values.len(), first)?;
    let rest = values.get(place..)?;
    let end = match place_in(values.len(), last) {
        Some(end) if exclusive => end,
        Some(end) => end.saturating_add(1),
        None => 0,
    };
    Some(front(rest, end.saturating_sub(place)))
}
