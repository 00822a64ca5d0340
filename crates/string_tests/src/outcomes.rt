//! Tests of what calls gave.
use rb_base::Bytes;
use rb_string::{Part, StringFailure};
use std::alloc::AllocError;

/// Whether a call made that text.
pub(crate) fn is_text(made: Result<Bytes, AllocError>, wanted: &[u8]) -> bool {
    match made {
        Ok(bytes) => bytes.as_slice() == wanted,
        Err(_) => false,
    }
}

/// Whether a call gave that text.
pub(crate) fn gives(made: Result<Result<Bytes, StringFailure>, AllocError>, wanted: &[u8]) -> bool {
    match made {
        Ok(Ok(bytes)) => bytes.as_slice() == wanted,
        _ => false,
    }
}

/// Whether a call failed in that way.
pub(crate) fn fails(
    made: Result<Result<Bytes, StringFailure>, AllocError>,
    wanted: StringFailure,
) -> bool {
    match made {
        Ok(Err(failure)) => failure == wanted,
        _ => false,
    }
}

/// Whether both are nothing, or the same text.
pub(crate) fn is_same_option(given: Option<&[u8]>, wanted: Option<&[u8]>) -> bool {
    match (given, wanted) {
        (Some(given), Some(wanted)) => given == wanted,
        (None, None) => true,
        _ => false,
    }
}

/// Whether the parts of a text are those texts.
pub(crate) fn are_parts(text: &[u8], parts: &[Part], wanted: &[&[u8]]) -> bool {
    if parts.len() != wanted.len() {
        return false;
    }
    for (part, wanted) in parts.iter().zip(wanted) {
        match text.get(part.start..part.end) {
            Some(bytes) => {
                if bytes != *wanted {
                    return false;
                }
            }
            None => return false,
        }
    }
    true
}
