//! What becomes of a source.

use code_verifier::Verified;
use rb_refusal::Refusal;

/// What becomes of the text of a source: it goes the first path, it is refused, or it has a file, which is of verified
/// code.
#[derive(Drop)]
pub enum Made {
    FirstPath,
    Refused(Refusal),
    File(Vec<u8>, Verified),
}
