//! Parts of a String as new Strings.
ghost use Rattle.std.specs.Prelude.{◌≡◌, IfOk};
ghost use Rattle.rb_string.specs.Parts.{AllWithin};
ghost use Rattle.def_rows.specs.StringRows as rows;

use core_rows::operands::text;
use rb_base::{Bytes, List};
use rb_store::Store;
use rb_string::part::bytes_of;
use rb_string::{Part, splitting};
use rb_value::Value;
use row_answer::Plain;
use std::alloc::{AllocError, Global};

/// A new Array of new Strings, one for each part.
#[tactic(auto, using(crate::proofs::Steps::part_at))]
fn texts(alloc: Global, bytes: &[u8], parts: &[Part]) -> Result<Plain, AllocError>
    requires { AllWithin bytes.now parts.now }
    ensures { IfOk result (λ a. a ≡ rows.texts bytes.now parts.now) }
{
    let mut texts = Vec::with_capacity(alloc, parts.len())?;
    'parts: for place in 0..parts.len() {
        texts.push(Bytes::from_slice(alloc, bytes_of(bytes, parts[place]))?)?;
    }
    Ok(Plain::Texts(List::from_vec(texts)))
}

/// `text.chars`.
pub(crate) fn characters(alloc: Global, bytes: &[u8]) -> Result<Plain, AllocError>
    ensures { IfOk result (λ a. a ≡ rows.characters bytes.now) }
{
    let parts = splitting::characters(alloc, bytes)?;
    texts(alloc, bytes, parts.as_slice())
}

/// `text.lines`.
pub(crate) fn lines(alloc: Global, bytes: &[u8]) -> Result<Plain, AllocError>
    ensures { IfOk result (λ a. a ≡ rows.lines bytes.now) }
{
    let parts = splitting::lines(alloc, bytes)?;
    texts(alloc, bytes, parts.as_slice())
}

/// `text.split` and `text.split(separator)`.
pub(crate) fn split(st: &Store, bytes: &[u8], args: &[Value]) -> Result<Plain, AllocError>
    ensures { IfOk result (λ a. a ≡ rows.split st.now.store.objects bytes.now args.now) }
{
    let alloc = st.alloc();
    if args.is_empty() {
        let parts = splitting::words(alloc, bytes)?;
        return texts(alloc, bytes, parts.as_slice());
    }
    let parts = splitting::split(alloc, bytes, text(st, args[0]))?;
    texts(alloc, bytes, parts.as_slice())
}
