//! The levels of a text.
ghost use Rattle.std.specs.Prelude.{◌≤◌};

use crate::effect::Effect;
use crate::level::Level;

/// How many levels may be open within the outermost one.
const MOST: usize = 256;

/// What stands for every depth above 256.
pub const TOO_DEEP: u32 = 257;

/// The innermost level, and those around it, the outermost first.
#[derive(Drop)]
pub struct Stack {
    top: Level,
    around: [Level; 256],
    started: usize,
    ghost fits: { started ≤ 256 },
}

impl Stack {
    ghost use Rattle.std.specs.Prelude.{◌≡◌, ◌<◌, MatchOption, IfSome, false, min};
    ghost use Rattle.lexer_depth.specs.Levels as levels;
    ghost use Rattle.lexer_depth.specs.Held.{levels_of};

    /// The outermost level alone.
    #[tactic(auto, unfolding(crate::specs::Held::around_of))]
    pub fn new() -> Stack
        ensures { levels_of result ≡ levels.outermost }
    {
        Stack {
            top: Level::new(false),
            around: [Level::new(false); 256],
            started: 0,
        }
    }

    /// A level starts; None where more than 256 would be open.
    fn start(&mut self, head: bool) -> Option<()>
        ensures { MatchOption result
            (256 < levels.value_of (levels.opened (levels_of self.old) head))
            (λ u. levels_of self.new ≡ levels.opened (levels_of self.old) head) }
    {
        if self.started == MOST {
            return None;
        }
        self.around[self.started] = self.top;
        self.started += 1;
        self.top = Level::new(head);
        Some(())
    }

    /// The innermost level ends, if one is open within the outermost one.
    fn end(&mut self) -> Option<()>
        ensures value { MatchOption result
            (256 < levels.value_of (levels.closed (levels_of self.old)))
            (λ u. levels_of self.new ≡ levels.closed (levels_of self.old)) }
        ensures fewer { IfSome result (λ u. 0 < self.old.started → self.new.started < self.old.started) }
    {
        if self.started == 0 {
            return Some(());
        }
        let outer = self.around[self.started - 1];
        match outer.nested(self.top) {
            Some(top) => {
                self.top = top;
                self.started -= 1;
                Some(())
            }
            None => None,
        }
    }

    /// One more counts in the innermost level.
    #[tactic(auto, using(crate::proofs::Growth::above))]
    fn count(&mut self) -> Option<()>
        ensures { MatchOption result
            (256 < levels.value_of (levels.on_top (levels_of self.old) (levels.counted (levels_of self.old).top)))
            (λ u. levels_of self.new ≡ levels.on_top (levels_of self.old) (levels.counted (levels_of self.old).top)) }
    {
        match self.top.counted() {
            Some(top) => {
                self.top = top;
                Some(())
            }
            None => None,
        }
    }

    /// One more counts in the innermost level, and stays counted after a comma.
    #[tactic(auto, using(crate::proofs::Growth::above))]
    fn keep(&mut self) -> Option<()>
        ensures { MatchOption result (256 < levels.value_of
            (levels.on_top (levels_of self.old) (levels.kept_counted (levels_of self.old).top)))
            (λ u. levels_of self.new ≡ levels.on_top (levels_of self.old)
            (levels.kept_counted (levels_of self.old).top)) }
    {
        match self.top.kept_counted() {
            Some(top) => {
                self.top = top;
                Some(())
            }
            None => None,
        }
    }

    /// A comma.
    #[tactic(auto, using(crate::proofs::Growth::above))]
    fn comma(&mut self) -> Option<()>
        ensures { MatchOption result
            (256 < levels.value_of (levels.on_top (levels_of self.old) (levels.comma (levels_of self.old).top)))
            (λ u. levels_of self.new ≡ levels.on_top (levels_of self.old) (levels.comma (levels_of self.old).top)) }
    {
        match self.top.comma() {
            Some(top) => {
                self.top = top;
                Some(())
            }
            None => None,
        }
    }

    /// A separator.
    fn separate(&mut self, head: bool, choice: bool) -> Option<()>
        ensures { MatchOption result ⊥ (λ u. levels_of self.new
            ≡ levels.on_top (levels_of self.old) (levels.separated (levels_of self.old).top head choice)) }
    {
        self.top = self.top.separated(head, choice);
        Some(())
    }

    /// `do`
    fn start_or_separate(&mut self) -> Option<()>
        ensures { MatchOption result
            (256 < levels.value_of (levels.done (levels_of self.old)))
            (λ u. levels_of self.new ≡ levels.done (levels_of self.old)) }
    {
        if self.top.has_head() {
            self.separate(false, false)
        } else {
            self.start(false)
        }
    }

    /// What a token does; None where the text is then deeper than 256.
    #[tactic(auto, unfolding(crate::specs::Levels::step))]
    pub fn apply(&mut self, effect: Effect) -> Option<()>
        ensures { MatchOption result
            (256 < levels.value_of (levels.step effect (levels_of self.old)))
            (λ u. levels_of self.new ≡ levels.step effect (levels_of self.old)) }
    {
        let head = self.top.has_head();
        match effect {
            Effect::Nothing => Some(()),
            Effect::Count => self.count(),
            Effect::Keep => self.keep(),
            Effect::Comma => self.comma(),
            Effect::Separate => self.separate(head, false),
            Effect::EndLine => self.separate(false, false),
            Effect::When => self.separate(head, true),
            Effect::Do => self.start_or_separate(),
            Effect::Open => self.start(false),
            Effect::OpenLoop => self.start(true),
            Effect::OpenIndex => self.start_index(),
            Effect::Close => self.end(),
        }
    }

    /// One more counts, and a level starts.
    #[tactic(auto, using(crate::proofs::Growth::index_deep))]
    fn start_index(&mut self) -> Option<()>
        ensures { MatchOption result
            (256 < levels.value_of (levels.indexed (levels_of self.old)))
            (λ u. levels_of self.new ≡ levels.indexed (levels_of self.old)) }
    {
        match self.count() {
            Some(()) => self.start(false),
            None => None,
        }
    }

    /// The value of the outermost level where all that are open end, or `TOO_DEEP` for one above 256.
    pub fn finish(mut self) -> u32
        ensures { result ≡ min (levels.value_of (levels_of self)) 257 }
    {
        'levels: while self.started > 0 {
            match self.end() {
                Some(()) => {}
                None => return TOO_DEEP,
            }
        }
        self.top.value()
    }
}
