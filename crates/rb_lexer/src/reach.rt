//! Where reading goes on: a text is read from its front, but for the bodies of heredocs, which are read at their
//! heads.

/// What is read after a stretch of the text.
#[derive(Clone, Copy, Debug, PartialEq, Eq)]
pub enum Region {
    /// Nothing: the stretch ends at the text's end.
    Plain,
    /// The stretch is the rest of a line with heads of heredocs, after whose bodies reading goes on at `next`.
    Line {
        next: usize,
    },
    /// The stretch is the body of a heredoc, after which reading goes on at `back`, up to the line's end `line`,
    /// and then at `next`.
    Body {
        back: usize,
        line: usize,
        next: usize,
    },
}

/// A place and the end of the stretch of the text that is read from there.
#[derive(Clone, Copy, Debug, PartialEq, Eq)]
pub struct Reach {
    pub at: usize,
    pub stop: usize,
    pub region: Region,
}
