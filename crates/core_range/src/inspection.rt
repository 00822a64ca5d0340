//! What `inspect` shows of a Range.
ghost use Rattle.std.specs.Prelude.{◌≡◌, ◌++◌, IfOk, OnOk};
ghost use Rattle.rb_integer.specs.Dots.{dots_of};
ghost use Rattle.def_rows.specs.RangeRows as rows;

use rb_integer::numeral::decimal;
use rb_integer::{Ends, Item};
use rb_string::inspection::put_quoted;
use std::alloc::{AllocError, Global};

/// Puts an item after a text, as `inspect` shows it.
fn put_item(text: &mut Vec<u8>, item: Item) -> Result<(), AllocError>
    ensures { OnOk result (text.new.items ≡ text.old.items ++ rows.item_inspection item) }
{
    match item {
        Item::Integer(number) => text.extend_from_slice(decimal(number).as_slice()),
        Item::Byte(byte) => put_quoted(text, byte),
    }
}

/// What stands between the ends.
fn dots(is_exclusive: bool) -> &'static [u8]
    ensures { result.now ≡ dots_of is_exclusive }
{
    if is_exclusive { b"..." } else { b".." }
}

/// What `inspect` shows of a Range.
pub(crate) fn shown(alloc: Global, ends: Ends) -> Result<Vec<u8>, AllocError>
    ensures { IfOk result (λ text. text.items ≡ rows.inspection ends) }
{
    let mut text = Vec::new(alloc);
    put_item(&mut text, ends.first())?;
    text.extend_from_slice(dots(ends.is_exclusive))?;
    put_item(&mut text, ends.last())?;
    Ok(text)
}
