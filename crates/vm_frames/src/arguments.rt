//! Arguments: registers of the line one after another, those of the caller or some behind all others.
ghost use Rattle.std.specs.Prelude.{◌≡◌, IfOk, OnOk, OnErr, length};
ghost use Rattle.vm_frames.specs.Opening as opening;
ghost use Rattle.vm_frames.specs.Seen as seen;

use crate::frame::Frame;
use crate::frames::Frames;
use crate::registers::{part, put_at, register_or};
use rb_value::Value;
use std::alloc::AllocError;

/// The arguments of a call: the place of the first among the registers of the line, how many they are, and where the
/// registers of the line end once the call is over.
#[derive(Clone, Copy, Debug)]
pub struct Arguments {
    pub first: usize,
    pub count: usize,
    pub end: usize,
}

impl Frames {
    /// No arguments, behind all registers of the line.
    #[inline(always)]
    pub fn no_arguments(&self) -> Arguments
        ensures { result ≡ opening.no_arguments (seen.of self.now) }
    {
        let end = self.line.end;
        Arguments {
            first: end,
            count: 0,
            end,
        }
    }

    /// The `n` registers of a frame from `a` on, as arguments.
    #[inline(always)]
    pub fn registers_as_arguments(&self, frame: &Frame, a: u16, n: u16) -> Arguments
        ensures { result ≡ opening.registers_as_arguments (seen.of self.now) frame.now a n }
    {
        Arguments {
            first: frame.place(a),
            count: usize::from(n),
            end: self.line.end,
        }
    }

    /// A value behind all registers of the line. Where memory runs out all is as before.
    #[inline(always)]
    fn keep(&mut self, value: Value) -> Result<(), AllocError>
        ensures ok { OnOk result (seen.of self.new ≡ opening.value_kept (seen.of self.old) value) }
        ensures err { OnErr result (seen.of self.new ≡ seen.of self.old) }
    {
        let place = self.line.end;
        let end = place.checked_add(1).ok_or(AllocError)?;
        self.line.extend_to(end)?;
        put_at(&mut self.line.registers, place, value);
        self.line.end = end;
        Ok(())
    }

    /// One argument more, behind all registers of the line.
    #[inline(always)]
    #[tactic(auto, unfolding(crate::specs::Registers::saturated))]
    pub fn keep_after(
        &mut self,
        arguments: Arguments,
        value: Value,
    ) -> Result<Arguments, AllocError>
        ensures arguments { IfOk result (λ more. more ≡ opening.one_more arguments) }
        ensures ok { OnOk result (seen.of self.new ≡ opening.value_kept (seen.of self.old) value) }
        ensures err { OnErr result (seen.of self.new ≡ seen.of self.old) }
    {
        self.keep(value)?;
        Ok(Arguments {
            count: arguments.count.saturating_add(1),
            ..arguments
        })
    }

    /// These values as arguments, behind all registers of the line.
    pub fn keep_all(&mut self, values: &[Value]) -> Result<Arguments, AllocError>
        ensures arguments { IfOk result (λ all. all ≡ opening.all_arguments (seen.of self.old) values.now) }
        ensures ok { OnOk result (seen.of self.new ≡ opening.values_kept (seen.of self.old) values.now) }
    {
        let arguments = self.no_arguments();
        'values: for value in values {
            self.keep(*value)?;
        }
        Ok(Arguments {
            count: values.len(),
            ..arguments
        })
    }

    /// The values that are given as arguments.
    #[inline(always)]
    pub fn given(&self, arguments: Arguments) -> &[Value]
        ensures { result.now ≡ opening.given (seen.of self.now) arguments }
    {
        part(&self.line.registers, arguments.first, arguments.count)
    }

    /// The arguments of a frame.
    #[inline(always)]
    pub fn arguments(&self, frame: &Frame) -> &[Value]
        ensures { result.now ≡ opening.arguments_of (seen.of self.now) frame.now }
    {
        part(&self.line.registers, frame.first, frame.given)
    }

    /// The same arguments after a value, behind all registers of the line.
    #[cold]
    #[tactic(auto, unfolding(crate::specs::Registers::wrapped, crate::specs::Registers::saturated))]
    pub fn keep_before(
        &mut self,
        arguments: Arguments,
        value: Value,
    ) -> Result<Arguments, AllocError>
        ensures arguments { IfOk result (λ more. more ≡ opening.one_before (seen.of self.old) arguments) }
        ensures ok { OnOk result (seen.of self.new ≡ opening.kept_before (seen.of self.old) arguments value) }
    {
        let first = self.line.end;
        self.keep(value)?;
        'arguments: for i in 0..arguments.count {
            let place = arguments.first.wrapping_add(i);
            let again = register_or(&self.line.registers, place, Value::Nil);
            self.keep(again)?;
        }
        Ok(Arguments {
            first,
            count: arguments.count.saturating_add(1),
            end: arguments.end,
        })
    }

    /// The arguments go. It takes no memory.
    #[inline(always)]
    pub fn drop_arguments(&mut self, arguments: Arguments)
        ensures { seen.of self.new ≡ opening.arguments_ended (seen.of self.old) arguments }
    {
        self.line.end = arguments.end;
    }
}
