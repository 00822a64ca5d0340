//! What stands around a form.
ghost use Rattle.std.specs.Prelude.{◌≡◌, IfOk};
ghost use Rattle.gen_forms.specs.Gen as gens;
ghost use Rattle.gen_forms.specs.Around.{context_of};

use crate::numbers::{count, operand};
use ir_counts::Tally;
use rb_base::Bytes;
use rite_code::Operation;
use scope_resolver::{BodyKind, Place, SlotTable};
use std::alloc::{AllocError, Global};

/// A loop: the register of its value, the line where a break of it leads, and that where its next round begins.
#[derive(Clone, Copy, Debug, PartialEq, Eq)]
pub struct Loop {
    pub value: u16,
    pub out: u32,
    pub round: u32,
}

/// What is the same all over a body, and what stands around a form in it.
#[derive(Clone, Copy)]
pub struct Context<'l, 's> {
    pub alloc: Global,
    pub kind: BodyKind,
    /// The bodies whose locals the form sees, the innermost first.
    pub scopes: &'l [SlotTable<'s>],
    /// What the body counts: its names, texts and integers.
    pub tally: &'l Tally<'s>,
    /// The innermost loop of the body.
    pub around: Option<Loop>,
    /// The register with the exit of the innermost clause, and the line where the clause's body begins.
    pub caught: u16,
    pub body_start: u32,
}

/// A place, and the end where there is none.
fn place_or(place: Option<usize>, end: usize) -> usize
    ensures { result ≡ gens.place_or place end }
{
    match place {
        Some(place) => place,
        None => end,
    }
}

/// The number of a name among the body's symbols.
pub fn symbol(context: &Context, name: &Bytes) -> Result<u16, AllocError>
    ensures { IfOk result (λ n. n ≡ gens.symbol (context_of context.now) name.now) }
{
    let place = context.tally.symbols.position(name.as_slice());
    count(place_or(place, context.tally.symbols.len()))
}

/// The number of a text in the constant pool, where the integers stand before the texts.
pub fn text_entry(context: &Context, text: &[u8]) -> Result<u16, AllocError>
    ensures { IfOk result (λ n. n ≡ gens.text_entry (context_of context.now) text.now) }
{
    let place = place_or(
        context.tally.texts.position(text),
        context.tally.texts.len(),
    );
    match context.tally.integers.len().checked_add(place) {
        Some(sum) => count(sum),
        None => Err(AllocError),
    }
}

/// The number of an integer in the constant pool.
fn integer_entry(context: &Context, integer: i64) -> Result<u16, AllocError>
    ensures { IfOk result (λ n. n ≡ gens.integer_entry (context_of context.now) integer) }
{
    let place = context.tally.integers.position(integer);
    count(place_or(place, context.tally.integers.len()))
}

/// The shortest instruction that loads an integer.
pub fn load_integer(context: &Context, a: u16, integer: i64) -> Result<Operation, AllocError>
    ensures { IfOk result (λ o. o ≡ gens.load_integer (context_of context.now) a integer) }
{
    if 0 <= integer && integer <= 255 {
        Ok(Operation::LoadI {
            a,
            b: integer as u16,
        })
    } else if -32768 <= integer && integer <= 32767 {
        Ok(Operation::LoadI16 {
            a,
            b: integer as i32,
        })
    } else if -2147483648 <= integer && integer <= 2147483647 {
        Ok(Operation::LoadI32 {
            a,
            b: integer as i32,
        })
    } else {
        let b = integer_entry(context, integer)?;
        Ok(Operation::LoadL { a, b })
    }
}

/// The instruction that reads a local into a register.
pub fn read(a: u16, place: Place) -> Result<Operation, AllocError>
    ensures { IfOk result (λ o. o ≡ gens.read a place) }
{
    let b = operand(place.register)?;
    if place.levels == 0 {
        Ok(Operation::Move { a, b })
    } else {
        let c = operand(place.levels - 1)?;
        Ok(Operation::GetUpVar { a, b, c })
    }
}

/// The instruction that sets a local to the value of a register.
pub fn write(a: u16, place: Place) -> Result<Operation, AllocError>
    ensures { IfOk result (λ o. o ≡ gens.write a place) }
{
    let b = operand(place.register)?;
    if place.levels == 0 {
        Ok(Operation::Move { a: b, b: a })
    } else {
        let c = operand(place.levels - 1)?;
        Ok(Operation::SetUpVar { a, b, c })
    }
}

impl<'l, 's> Context<'l, 's> {
    /// The same inside of a loop.
    pub fn within_loop(&self, around: Loop) -> Context<'l, 's>
        ensures { context_of result ≡ gens.in_loop (context_of self.now) around }
    {
        Context {
            around: Some(around),
            ..*self
        }
    }

    /// The same inside of the clauses of a body that begins at the line, with the exit in the register.
    pub fn within_clause(&self, caught: u16, body_start: u32) -> Context<'l, 's>
        ensures { context_of result ≡ gens.in_clause (context_of self.now) caught body_start }
    {
        Context {
            caught,
            body_start,
            ..*self
        }
    }
}
