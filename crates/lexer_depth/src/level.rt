//! A level of a text.
ghost use Rattle.std.specs.Prelude.{◌≤◌, ◌+◌};

/// A level of a text. Its value is at most 256; what would make it greater gives None.
#[derive(Clone, Copy)]
pub struct Level {
    count: u32,
    kept: u32,
    most: u32,
    inner: u32,
    value: u32,
    head: bool,
    choice: bool,
    ghost in_order: { (kept ≤ count) × (count ≤ most) × (most + inner ≤ value) × (value ≤ 256) },
}

impl Level {
    ghost use Rattle.std.specs.Prelude.{◌≡◌, ◌<◌, MatchOption, false};
    ghost use Rattle.lexer_depth.specs.Levels as levels;
    ghost use Rattle.lexer_depth.specs.Held.{measures_of};

    /// A level at its start; `head` says whether the head of a loop is open.
    pub fn new(head: bool) -> Level
        ensures { measures_of result ≡ levels.fresh head }
    {
        Level {
            count: 0,
            kept: 0,
            most: 0,
            inner: 0,
            value: 0,
            head,
            choice: false,
        }
    }

    /// Its value.
    pub fn value(self) -> u32
        ensures value { result ≡ (measures_of self).value }
        ensures small { result ≤ 256 }
    {
        self.value
    }

    /// Whether the head of a loop is open.
    pub fn has_head(self) -> bool
        ensures { result ≡ (measures_of self).head }
    {
        self.head
    }

    fn altered(self, count: u32, kept: u32, inner: u32) -> Option<Level>
        requires order { kept ≤ count }
        requires count { count ≤ 257 }
        requires inner { inner ≤ 257 }
        ensures { MatchOption result
            (256 < (levels.altered (measures_of self) count kept inner).value)
            (λ l. measures_of l ≡ levels.altered (measures_of self) count kept inner) }
    {
        let most = self.most.max(count);
        let value = self.value.max(most + inner);
        if value > 256 {
            return None;
        }
        Some(Level {
            count,
            kept,
            most,
            inner,
            value,
            head: self.head,
            choice: self.choice,
        })
    }

    /// One more counts.
    pub fn counted(self) -> Option<Level>
        ensures { MatchOption result
            (256 < (levels.counted (measures_of self)).value)
            (λ l. measures_of l ≡ levels.counted (measures_of self)) }
    {
        self.altered(self.count + 1, self.kept, self.inner)
    }

    /// One more counts and stays counted after a comma.
    pub fn kept_counted(self) -> Option<Level>
        ensures { MatchOption result
            (256 < (levels.kept_counted (measures_of self)).value)
            (λ l. measures_of l ≡ levels.kept_counted (measures_of self)) }
    {
        self.altered(self.count + 1, self.kept + 1, self.inner)
    }

    /// After a comma.
    pub fn comma(self) -> Option<Level>
        ensures { MatchOption result
            (256 < (levels.comma (measures_of self)).value)
            (λ l. measures_of l ≡ levels.comma (measures_of self)) }
    {
        if self.choice {
            return self.counted();
        }
        Some(Level {
            count: self.kept,
            kept: self.kept,
            most: self.most,
            inner: self.inner,
            value: self.value,
            head: self.head,
            choice: self.choice,
        })
    }

    /// After a separator.
    pub fn separated(self, head: bool, choice: bool) -> Level
        ensures { measures_of result ≡ levels.separated (measures_of self) head choice }
    {
        Level {
            count: 0,
            kept: 0,
            most: 0,
            inner: 0,
            value: self.value,
            head,
            choice,
        }
    }

    /// After a level that ended within.
    pub fn nested(self, ended: Level) -> Option<Level>
        ensures { MatchOption result
            (256 < (levels.nested (measures_of self) (measures_of ended).value).value)
            (λ l. measures_of l ≡ levels.nested (measures_of self) (measures_of ended).value) }
    {
        self.altered(self.count, self.kept, self.inner.max(ended.value + 1))
    }
}
