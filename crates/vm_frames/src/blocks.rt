//! How many registers all lines hold at most at once, in blocks of 64.
ghost use Rattle.std.specs.Prelude.{◌≡◌};
ghost use Rattle.vm_frames.specs.Blocks as blocks;

/// How many registers make a block.
const BLOCK: usize = 64;

/// Blocks of registers: the most registers that the line that runs held since it runs, the blocks of the lines that wait,
/// and the most blocks that all lines held at once before.
#[derive(Clone, Copy, Debug)]
pub struct Blocks {
    top: usize,
    waiting: usize,
    most: usize,
}

/// How many blocks so many registers take, the last of which may not be full.
fn blocks_of(registers: usize) -> usize
    ensures { result ≡ blocks.blocks_of registers }
{
    registers.div_ceil(BLOCK)
}

impl Blocks {
    /// Where no line holds registers.
    pub(crate) fn new() -> Blocks
        ensures { result ≡ blocks.none }
    {
        Blocks {
            top: 0,
            waiting: 0,
            most: 0,
        }
    }

    /// The line that runs holds so many registers.
    #[inline(always)]
    pub(crate) fn reach(&mut self, held: usize)
        ensures { self.new ≡ blocks.reached self.old held }
    {
        if held > self.top {
            self.top = held;
        }
    }

    /// A line that holds so many registers waits from now on, and one runs that holds so many.
    #[tactic(auto, unfolding(crate::specs::Registers::saturated))]
    pub(crate) fn switch(&mut self, waits: usize, runs: usize)
        ensures { self.new ≡ blocks.switched self.old waits runs }
    {
        self.most = self.peak();
        self.waiting = self
            .waiting
            .saturating_add(blocks_of(waits))
            .saturating_sub(blocks_of(runs));
        self.top = runs;
    }

    /// The most blocks that all lines held at once.
    #[tactic(auto, unfolding(crate::specs::Registers::saturated))]
    pub fn peak(&self) -> usize
        ensures { result ≡ blocks.peak self.now }
    {
        self.most
            .max(self.waiting.saturating_add(blocks_of(self.top)))
    }
}
