//! Bodies from their operations, and a run of them.
use code_of_core::code_of_bodies;
use code_verifier::verify;
use frame_machine::{Ran, start};
use rb_base::{Bytes, List, MemorySink, MemorySource};
use rite_code::{CatchEntry, Code, Instr, Irep, Operation, Parameters, PoolItem, encode};
use std::alloc::{AllocError, Global};

/// A body before it is a part of a program.
#[derive(Clone, Copy)]
pub struct Plan<'a> {
    pub locals: u16,
    pub registers: u16,
    pub operations: &'a [Operation],
    pub symbols: &'a [&'a [u8]],
    pub texts: &'a [&'a [u8]],
    pub children: &'a [u32],
    pub catches: &'a [CatchEntry],
}

/// What a run wrote, what it came to, and its peak.
#[derive(Drop)]
pub struct Seen {
    pub out: Vec<u8>,
    pub ran: Option<Ran>,
    pub peak: usize,
}

/// So many required parameters, and no others.
pub fn required(count: u8) -> Parameters {
    Parameters {
        required: count,
        optional: 0,
        rest: false,
        post: 0,
        block: false,
        spare: false,
    }
}

/// A body without texts, children and catch entries.
pub fn plain<'a>(
    locals: u16,
    registers: u16,
    operations: &'a [Operation],
    symbols: &'a [&'a [u8]],
) -> Plan<'a> {
    Plan {
        locals,
        registers,
        operations,
        symbols,
        texts: &[],
        children: &[],
        catches: &[],
    }
}

fn code_of(alloc: Global, operations: &[Operation]) -> Result<Bytes, AllocError> {
    let mut list = Vec::new(alloc);
    for operation in operations {
        list.push(Instr::new(false, *operation).ok_or(AllocError)?)?;
    }
    Ok(Bytes::from_vec(encode(alloc, &list)?))
}

fn names_of(alloc: Global, names: &[&[u8]]) -> Result<List<Bytes>, AllocError> {
    let mut list = List::new(alloc);
    for name in names {
        list.push(Bytes::from_slice(alloc, name)?)?;
    }
    Ok(list)
}

fn pool_of(alloc: Global, texts: &[&[u8]]) -> Result<List<PoolItem>, AllocError> {
    let mut list = List::new(alloc);
    for text in texts {
        list.push(PoolItem::Text(Bytes::from_slice(alloc, text)?))?;
    }
    Ok(list)
}

fn body_of(alloc: Global, plan: &Plan<'_>) -> Result<Irep, AllocError> {
    Ok(Irep {
        locals: plan.locals,
        registers: plan.registers,
        code: code_of(alloc, plan.operations)?,
        catches: List::from_vec(Vec::from_slice(alloc, plan.catches)?),
        pool: pool_of(alloc, plan.texts)?,
        symbols: names_of(alloc, plan.symbols)?,
        children: List::from_vec(Vec::from_slice(alloc, plan.children)?),
    })
}

fn program_of(alloc: Global, plans: &[Plan<'_>]) -> Result<Code, AllocError> {
    let mut bodies = Vec::new(alloc);
    for plan in plans {
        bodies.push(body_of(alloc, plan)?)?;
    }
    code_of_bodies(alloc, &bodies)
}

/// Runs a program for at most so many turns.
pub fn run(
    alloc: Global,
    plans: &[Plan<'_>],
    input: &[u8],
    budget: u64,
) -> Result<Seen, AllocError> {
    let code = program_of(alloc, plans)?;
    let verified = match verify(alloc, code) {
        Ok(verified) => verified,
        Err(_) => return Ok(Seen {
            out: Vec::from_slice(alloc, b"not verified")?,
            ran: None,
            peak: 0,
        }),
    };
    let mut machine = start(alloc, verified)?;
    let mut source = MemorySource::new(Vec::from_slice(alloc, input)?, Vec::new(alloc));
    let mut sink = MemorySink::new(alloc, 1 << 20, Vec::new(alloc));
    let ran = match machine.run(budget, &mut source, &mut sink) {
        Ok(ran) => Some(ran),
        Err(_) => None,
    };
    Ok(Seen {
        out: Vec::from_slice(alloc, sink.bytes())?,
        ran,
        peak: machine.peak(),
    })
}
