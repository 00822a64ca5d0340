//! Texts that a method makes piece by piece.
ghost use Rattle.std.specs.Prelude.{◌≡◌, ◌++◌, IfOk, OnOk};
ghost use Rattle.iter_comparing.specs.Texts as texts;

use crate::questions::Question;
use core_calls::heap::Heap;
use def_core::Cause;
use rb_base::List;
use std::alloc::{AllocError, Global};
use std::mem;

/// How long a String that a core method makes may be.
pub const LONGEST: usize = 1 << 28;

/// Puts bytes behind a text.
pub(crate) fn append(alloc: Global, text: &mut List<u8>, more: &[u8]) -> Result<(), AllocError>
    ensures { OnOk result (text.new ≡ text.old ++ more.now) }
{
    let mut bytes = mem::replace(text, List::new(alloc)).into_vec();
    bytes.extend_from_slice(more)?;
    *text = List::from_vec(bytes);
    Ok(())
}

/// Ends with a new String, or fails where it is too long.
pub(crate) fn ends_with_text(heap: &mut Heap, text: List<u8>) -> Result<Question, AllocError>
    ensures asks { IfOk result (λ question. question ≡ texts.text_question heap.old text) }
    ensures made { OnOk result (heap.new ≡ texts.text_made heap.old text) }
{
    if text.len() > LONGEST {
        Ok(Question::Fails(Cause::StringTooLong))
    } else {
        Ok(Question::Ends(heap.make_string(text.into_vec())?))
    }
}
