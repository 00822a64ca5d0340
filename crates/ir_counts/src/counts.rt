//! The counts of a body.
ghost use Rattle.std.specs.Prelude.{◌≡◌, length, IfOk};
ghost use Rattle.ir_core.specs.View.{body_view, maybe_local, term_view};
ghost use Rattle.ir_counts.specs.Counts as spec;
ghost use Rattle.text_set.specs.Sets.{texts as shown};

use crate::tally::{Tally, tally_of};
use ir_core::{Body, Core, Local, Term};
use ir_walk::sums::{add, scaled, scaled_by};
use ir_walk::{Extent, Measured, Walked};
use std::alloc::{AllocError, Global};
use std::cmp::max;

/// The counts of a body. `bytes` is what it takes in a file.
#[derive(Clone, Copy, Debug, PartialEq, Eq)]
pub struct Counts {
    pub parameters: u64,
    pub registers: u64,
    pub pool: u64,
    pub symbols: u64,
    pub children: u64,
    pub code: u64,
    pub bytes: u64,
}

fn one_if(variable: &Option<Local>) -> u64
    ensures { result ≡ length (maybe_local variable.now) }
{
    match variable {
        Some(_) => 1,
        None => 0,
    }
}

/// How many parameters a body has.
#[tactic(auto, using(crate::proofs::Locals::local_laws))]
fn parameter_count(body: &Body<Core>) -> Result<u64, AllocError>
    ensures { IfOk result (λ n. n ≡ spec.parameter_count (body_view body.now)) }
{
    let parameters = &body.parameters;
    let required = parameters.required.len() as u64;
    let optional = parameters.optional.len() as u64;
    let front = add(add(required, optional)?, one_if(&parameters.rest))?;
    add(front, parameters.post.len() as u64)
}

/// The greatest of the numbers of parameters of one kind.
#[tactic(auto, using(crate::proofs::Locals::local_laws))]
fn of_a_kind(body: &Body<Core>) -> u64
    ensures { result ≡ spec.of_a_kind (body_view body.now) }
{
    let parameters = &body.parameters;
    let behind = max(parameters.optional.len(), parameters.post.len());
    max(parameters.required.len(), behind) as u64
}

/// How many locals besides its parameters a body has.
#[tactic(auto, using(crate::proofs::Locals::local_laws))]
fn local_count(body: &Body<Core>) -> u64
    ensures { result ≡ spec.local_count (body_view body.now) }
{
    body.locals.len() as u64
}

/// Adds what texts take in a file.
fn text_bytes(bytes: u64, texts: &[&[u8]]) -> Result<u64, AllocError>
    ensures { IfOk result (λ n. n ≡ spec.text_bytes bytes (shown texts.now)) }
{
    let mut bytes = bytes;
    for text in texts {
        bytes = add(bytes, add(8, text.len() as u64)?)?;
    }
    Ok(bytes)
}

/// What a body of so many bytes of code takes in a file.
fn byte_count(code: u64, tally: &Tally) -> Result<u64, AllocError>
    ensures { IfOk result (λ n. n ≡ spec.bytes_of code tally.now) }
{
    let record = scaled_by(add(64, code)?, 13, tally.handlers)?;
    let integers = scaled(record, 9, tally.integers.len())?;
    let texts = text_bytes(integers, tally.texts.as_slice())?;
    text_bytes(texts, tally.symbols.as_slice())
}

/// How many steps of a body there is room for at once.
const STEPS: usize = 64;

/// The tally of a body with this form.
pub fn form_tally<'a>(alloc: Global, form: &'a Term) -> Result<Tally<'a>, AllocError>
    ensures { IfOk result (λ t. t ≡ spec.form_tally (term_view form.now)) }
{
    let mut steps = Vec::with_capacity(alloc, STEPS)?;
    form.walk(Extent::Body, &mut steps)?;
    tally_of(alloc, &steps)
}

fn register_count(alloc: Global, body: &Body<Core>, tally: &Tally) -> Result<u64, AllocError>
    ensures { IfOk result (λ n. n ≡ spec.registers_of (body_view body.now) tally.now) }
{
    let fixed = add(2, parameter_count(body)?)?;
    let locals = add(fixed, local_count(body))?;
    let width = body.form.width(alloc)?;
    add(add(locals, tally.hidden)?, width)
}

/// How many different texts and integers outside 32 bits there are.
fn pool_count(tally: &Tally) -> Result<u64, AllocError>
    ensures { IfOk result (λ n. n ≡ spec.pool_of tally.now) }
{
    add(tally.texts.len() as u64, tally.integers.len() as u64)
}

/// Bytes of code.
fn code_count(body: &Body<Core>, tally: &Tally) -> Result<u64, AllocError>
    ensures { IfOk result (λ n. n ≡ spec.code_of (body_view body.now) tally.now) }
{
    add(scaled_by(16, 32, parameter_count(body)?)?, tally.code)
}

/// The counts of a body whose forms have the tally.
fn counts_from(alloc: Global, body: &Body<Core>, tally: &Tally) -> Result<Counts, AllocError>
    ensures { IfOk result (λ c. c ≡ spec.counts_from (body_view body.now) tally.now) }
{
    let registers = register_count(alloc, body, tally)?;
    let pool = pool_count(tally)?;
    let code = code_count(body, tally)?;
    let bytes = byte_count(code, tally)?;
    Ok(Counts {
        parameters: max(of_a_kind(body), tally.kind),
        registers,
        pool,
        symbols: tally.symbols.len() as u64,
        children: tally.children,
        code,
        bytes,
    })
}

/// The counts of a body.
pub fn counts_of(alloc: Global, body: &Body<Core>) -> Result<Counts, AllocError>
    ensures { IfOk result (λ c. c ≡ spec.counts (body_view body.now)) }
{
    let tally = form_tally(alloc, &*body.form)?;
    counts_from(alloc, body, &tally)
}
