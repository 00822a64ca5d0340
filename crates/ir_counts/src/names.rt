//! A text that is added to a set.
ghost use Rattle.std.specs.Prelude.{◌≡◌, OnOk};
ghost use Rattle.std.specs.Option.{option_copied};
ghost use Rattle.ir_counts.specs.Sets.{with_optional};

use std::alloc::AllocError;
use text_set::TextSet;

/// Adds a text where there is one.
pub fn add_optional<'a>(set: &mut TextSet<'a>, text: Option<&'a [u8]>) -> Result<(), AllocError>
    ensures { OnOk result (set.new ≡ with_optional set.old (option_copied text.entry)) }
{
    match text {
        Some(text) => {
            set.add(text)?;
            Ok(())
        }
        None => Ok(()),
    }
}
