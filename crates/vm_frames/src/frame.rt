//! A frame.
ghost use Rattle.std.specs.Prelude.{◌≡◌};
ghost use Rattle.vm_frames.specs.Exits as exits;
ghost use Rattle.vm_frames.specs.Opening as opening;

use def_core::BindKind;
use rb_value::ObjId;

/// An activation that runs a body of code. What else the activation is stands with its line, where that of the innermost
/// frame is the last.
#[derive(Clone, Copy, Debug)]
pub struct Frame {
    /// The number of its activation, which is that of its list of registers.
    pub number: u64,
    pub body: u32,
    /// The index of its instruction; where it calls, that of the call.
    pub index: u32,
    /// The register that waits for the value of a call.
    pub waits: u16,
    pub registers: u16,
    /// The place of its first register among those of the line.
    pub base: usize,
    /// Where the registers of the line end when it is left.
    pub end: usize,
    /// The environment of its list, once a block has captured it.
    pub own: Option<u32>,
    /// The environment of the list around, where its body has one around.
    pub outer: Option<u32>,
    /// The place of its first argument among the registers of the line, and how many they are.
    pub first: usize,
    pub given: usize,
    /// The list of classes around its text, as its activation has it.
    pub classes: u64,
    pub block: Option<ObjId>,
    /// The Proc that a yield calls, as its activation has it.
    pub yields: Option<ObjId>,
    pub binds: BindKind,
    /// Whether the table may have exits of its registers, or one that is pending.
    pub keeps: bool,
}

impl Frame {
    /// A frame of no body, without registers.
    pub fn outside() -> Frame
        ensures { result ≡ opening.no_frame }
    {
        Frame {
            number: 0,
            body: 0,
            index: 0,
            waits: 0,
            registers: 0,
            base: 0,
            end: 0,
            own: None,
            outer: None,
            first: 0,
            given: 0,
            classes: 0,
            block: None,
            yields: None,
            binds: BindKind::Method,
            keeps: false,
        }
    }

    /// The place of register `a` among those of the line.
    #[inline(always)]
    #[tactic(auto, unfolding(crate::specs::Registers::wrapped))]
    pub(crate) fn place(&self, a: u16) -> usize
        ensures { result ≡ exits.place self.now a }
    {
        self.base.wrapping_add(usize::from(a))
    }
}
