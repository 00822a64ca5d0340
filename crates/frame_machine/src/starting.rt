//! A machine before its first turn.
ghost use Rattle.std.specs.Prelude.{IfOk};
ghost use Rattle.frame_machine.specs.Runs as runs;

use crate::machine::Machine;
use code_instructions::{IndexedCode, index_code};
use code_verifier::Verified;
use def_core::BindKind;
use pair_table::PairTable;
use rb_value::Value;
use std::alloc::{AllocError, Global};
use vm_acts::fiber_switch::Fibers;
use vm_acts::heap::{Heap, Site};
use vm_acts::run_calls::{Activation, Runs};
use vm_acts::run_rows::opening_heap;
use vm_acts::vm_frames::{Frame, Frames};
use vm_acts::vm_parts::constants::KnownConstants;
use vm_acts::vm_parts::entering::{Entered, open_body};
use vm_acts::vm_parts::flow::End;
use vm_acts::vm_parts::known::KnownCalls;
use vm_acts::vm_parts::loaded::Loaded;
use vm_acts::vm_parts::names::Names;
use vm_acts::vm_parts::operators::Operators;
use vm_acts::vm_parts::parts::Parts;

/// The activation of the main program, which has the number 1.
fn main_activation(own: Value) -> Activation {
    Activation {
        runs: Runs::MainProgram,
        receiver: own,
        owner: None,
        name: None,
        home: 1,
        classes: 0,
        block: None,
    }
}

/// The frame of the main program.
fn main_frame(code: &Loaded, parts: &mut Parts) -> Result<Frame, AllocError> {
    let activation = main_activation(parts.heap.main_object());
    let arguments = parts.frames.no_arguments();
    let entered = Entered {
        body: 0,
        outer: None,
        block: None,
        binds: BindKind::Method,
    };
    let mut frame = Frame::outside();
    open_body(code, &mut frame, parts, 1, &activation, entered, &arguments)?;
    Ok(frame)
}

/// A site for each instruction, none of which has found anything.
fn sites_for(alloc: Global, count: usize) -> Result<Vec<Site>, AllocError> {
    let mut sites = Vec::new(alloc);
    'sites: for _ in 0..count {
        sites.push(Site { place: 0 })?;
    }
    Ok(sites)
}

/// Levels of one fiber, of which there are none yet.
fn no_levels(alloc: Global) -> Result<(Frames, Fibers), AllocError> {
    let frames = Frames::new(alloc)?;
    Ok((frames, Fibers::new(alloc)?))
}

/// What calls and constants were found to be, which is nothing yet.
fn nothing_found(alloc: Global) -> Result<(KnownCalls, KnownConstants), AllocError> {
    let known = KnownCalls::new(alloc)?;
    Ok((known, KnownConstants::new(alloc)?))
}

/// The parts around a heap, which are empty, for so many instructions.
fn parts_around(
    alloc: Global,
    heap: Heap,
    operators: Operators,
    names: Names,
    count: usize,
) -> Result<Parts, AllocError> {
    let (frames, fibers) = no_levels(alloc)?;
    let (known, constants) = nothing_found(alloc)?;
    let sites = sites_for(alloc, count)?;
    Ok(Parts {
        heap,
        frames,
        fibers,
        globals: PairTable::new(alloc),
        sites,
        known,
        constants,
        operators,
        names,
        activations: 1,
        end: End::Ended(0),
    })
}

/// The parts with a heap, which has the names that the machine asks for, and all else that is empty.
fn parts_with(alloc: Global, heap: Heap, count: usize) -> Result<Parts, AllocError> {
    let mut heap = heap;
    let operators = Operators::of(&mut heap)?;
    let names = Names::of(&mut heap)?;
    parts_around(alloc, heap, operators, names, count)
}

/// The code, and the parts with a heap that has its names.
fn opened(alloc: Global, code: IndexedCode) -> Result<(Loaded, Parts), AllocError> {
    let mut heap = opening_heap(alloc)?;
    let loaded = Loaded::load(&mut heap, code)?;
    let parts = parts_with(alloc, heap, loaded.instruction_count())?;
    Ok((loaded, parts))
}

/// A machine before the first turn of verified code. An `Err` only where memory runs out.
pub fn start(alloc: Global, code: Verified) -> Result<Machine, AllocError>
    ensures { IfOk result runs.IsNew }
{
    let indexed = index_code(alloc, code)?;
    let (loaded, mut parts) = opened(alloc, indexed)?;
    let frame = main_frame(&loaded, &mut parts)?;
    Ok(Machine::new(alloc, loaded, parts, frame))
}
