use rb_syntax::Outside;

/// A construct outside the language, and the place of the word that names it.
#[derive(Clone, Copy, Debug, PartialEq, Eq)]
pub struct Found {
    pub what: Outside,
    pub at: u32,
}
