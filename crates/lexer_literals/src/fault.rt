/// A literal is malformed. `at` is a byte offset, at most the text's length.
#[derive(Clone, Copy, Debug, PartialEq, Eq)]
pub struct Fault {
    pub at: usize,
}
