//! The registers of a frame.
ghost use Rattle.std.specs.Prelude.{◌≡◌, IfOk, length, replicate, slice_index_or};
ghost use Rattle.std.specs.List.{slice_set};
ghost use Rattle.rb_value.specs.declared.value.Value.TheVariants.{Nil};
ghost use Rattle.vm_frames.specs.Exits as exits;
ghost use Rattle.vm_frames.specs.Registers as lists;
ghost use Rattle.vm_frames.specs.Seen as seen;

use crate::frame::Frame;
use crate::frames::Frames;
use rb_value::Value;
use std::alloc::AllocError;

/// So many values from a place on; none where there are fewer.
#[inline(always)]
#[tactic(auto, unfolding(crate::specs::Registers::saturated))]
pub fn part(values: &[Value], from: usize, count: usize) -> &[Value]
    ensures { result.now ≡ lists.part values.now from count }
{
    values.get(from..from.saturating_add(count)).unwrap_or(&[])
}

/// Puts a value in the place of another, where there is one.
#[inline(always)]
pub fn put_at(registers: &mut [Value], place: usize, value: Value)
    ensures { registers.new ≡ slice_set registers.old place value }
{
    if place < registers.len() {
        registers[place] = value;
    }
}

/// Puts values in the place of others, from a place on.
#[inline(always)]
#[tactic(auto, unfolding(crate::specs::Registers::wrapped))]
fn copy_to(registers: &mut [Value], from: usize, values: &[Value])
    ensures { registers.new ≡ lists.put_all registers.old from values.now }
{
    'values: for (i, value) in values.iter().enumerate() {
        put_at(registers, from.wrapping_add(i), *value);
    }
}

/// Whether there are registers from one place up to another.
#[inline(always)]
fn has_places(registers: &[Value], from: usize, to: usize) -> bool
    ensures { result ≡ lists.has_places registers.now from to }
{
    from <= to && to <= registers.len()
}

/// All of these registers get nil.
#[inline(always)]
fn blank(registers: &mut [Value])
    ensures { registers.new ≡ replicate (length registers.old) Nil }
{
    'registers: for register in registers.iter_mut() {
        *register = Value::Nil;
    }
}

/// The first of the registers between two places gets `self`, the others nil.
#[inline(always)]
pub(crate) fn clear(registers: &mut [Value], base: usize, end: usize, own: Value)
    ensures { registers.new ≡ lists.cleared registers.old base end own }
{
    if has_places(registers, base, end) {
        blank(&mut registers[base..end]);
    }
    put_at(registers, base, own);
}

/// The register at a place, and a value where there is none.
#[inline(always)]
pub fn register_or(registers: &[Value], place: usize, value: Value) -> Value
    ensures { result ≡ slice_index_or registers.now place value }
{
    match registers.get(place) {
        Some(register) => *register,
        None => value,
    }
}

/// The value at a place is copied to another, where there is one.
#[inline(always)]
fn copy_one(registers: &mut [Value], from: usize, to: usize)
    ensures { registers.new ≡ lists.copied_one registers.old from to }
{
    if from < registers.len() {
        let value = registers[from];
        put_at(registers, to, value);
    }
}

/// So many values from a place on are copied to another.
#[inline(always)]
#[tactic(auto, unfolding(crate::specs::Registers::wrapped))]
pub fn copy_within(registers: &mut [Value], from: usize, to: usize, count: usize)
    ensures { registers.new ≡ lists.copied registers.old from to count }
{
    'values: for i in 0..count {
        copy_one(registers, from.wrapping_add(i), to.wrapping_add(i));
    }
}

/// Registers from a place on get so many values, and nil where there are fewer.
#[inline(always)]
#[tactic(auto, unfolding(crate::specs::Registers::wrapped))]
pub fn put_padded(registers: &mut [Value], place: usize, values: &[Value], wanted: usize)
    ensures { registers.new ≡ lists.put_all registers.old place (lists.padded values.now wanted) }
{
    'values: for i in 0..wanted {
        put_at(
            registers,
            place.wrapping_add(i),
            register_or(values, i, Value::Nil),
        );
    }
}

/// Puts registers from a place on in the place of values.
#[tactic(auto, unfolding(crate::specs::Registers::wrapped))]
pub(crate) fn copy_from(values: &mut [Value], registers: &[Value], from: usize)
    ensures { values.new ≡ lists.refilled values.old registers.now from }
{
    'values: for (i, value) in values.iter_mut().enumerate() {
        *value = register_or(registers, from.wrapping_add(i), *value);
    }
}

impl Frames {
    /// What register `a` reads as.
    #[inline(always)]
    pub fn get(&self, frame: &Frame, a: u16) -> Value
        ensures { result ≡ exits.value_at (seen.of self.now) frame.now a }
    {
        register_or(&self.line.registers, frame.place(a), Value::Nil)
    }

    /// Register `a` gets a value.
    #[inline(always)]
    pub(crate) fn put(&mut self, frame: &Frame, a: u16, value: Value)
        ensures { seen.of self.new ≡ exits.put (seen.of self.old) frame.now a value }
    {
        put_at(&mut self.line.registers, frame.place(a), value);
    }

    /// Register `a` gets a value, and keeps no exit.
    #[inline(always)]
    pub fn set(&mut self, frame: &Frame, a: u16, value: Value)
        ensures { seen.of self.new ≡ exits.written (seen.of self.old) frame.now a value }
    {
        self.put(frame, a, value);
        if frame.keeps {
            self.drop_exit(frame, a);
        }
    }

    /// The values of `n` registers from `a` on, in their place; none where there are fewer.
    #[inline(always)]
    pub fn window(&self, frame: &Frame, a: u16, n: u16) -> &[Value]
        ensures { result.now ≡ exits.row (seen.of self.now) frame.now a n }
    {
        part(&self.line.registers, frame.place(a), usize::from(n))
    }

    /// The values of `n` registers from `a` on.
    pub fn row(&self, frame: &Frame, a: u16, n: u16) -> Result<Vec<Value>, AllocError>
        ensures { IfOk result (λ values. values.items ≡ exits.row (seen.of self.now) frame.now a n) }
    {
        let values = part(&self.line.registers, frame.place(a), usize::from(n));
        Vec::from_slice(self.alloc, values)
    }

    /// The registers from 1 on get these values.
    #[inline(always)]
    pub fn set_parameters(&mut self, frame: &Frame, values: &[Value])
        ensures { seen.of self.new ≡ exits.parameters_set (seen.of self.old) frame.now values.now }
    {
        copy_to(&mut self.line.registers, frame.place(1), values);
        if frame.keeps {
            self.drop_exits_of(frame, values.len());
        }
    }

    /// So many registers from 1 on keep no exits.
    #[cold]
    fn drop_exits_of(&mut self, frame: &Frame, count: usize)
        ensures { seen.of self.new ≡ seen.with_exits (seen.of self.old)
            (exits.without_from (seen.of self.old).around.exits frame.now.number 1 count) }
    {
        'registers: for i in 0..count {
            let register = i as u64 + 1;
            self.around.exits.remove(&(frame.number, register));
        }
    }
}
