//! LAMBDA and BLOCK: Procs of the bodies inside.
ghost use Rattle.std.specs.Prelude.{◌≡◌, IfOk};
ghost use Rattle.vm_parts.specs.Beside as beside;
ghost use Rattle.vm_steps.specs.Procs as procs;

use crate::parameters::shape_of;
use code_instructions::Instruction;
use rb_base::List;
use rb_value::{ProcContents, Sending, Shape, Value};
use std::alloc::AllocError;
use vm_parts::flow::Flow;
use vm_parts::loaded::Loaded;
use vm_parts::parts::{Parts, put};
use vm_parts::run_calls::Activation;
use vm_parts::vm_frames::Frame;

/// The shape of a body's parameters, which its first instruction tells.
fn shape_by(code: &Loaded, body: u32) -> Shape
    ensures { result ≡ procs.shape_of_body code.now body }
{
    match code.instructions(body).first() {
        Some(Instruction::Enter { parameters }) => shape_of(*parameters),
        _ => Shape {
            required: 0,
            optional: 0,
            rest: false,
            post: 0,
        },
    }
}

/// A Proc of a body, with what it keeps of the activation that makes it.
fn contents_of(
    code: &Loaded,
    running: &Activation,
    scopes: Vec<u64>,
    body: u32,
    lambda: bool,
) -> ProcContents
    ensures { result ≡ procs.contents code.now running.now scopes.items body lambda }
{
    ProcContents {
        code: body,
        shape: shape_by(code, body),
        scopes: List::from_vec(scopes),
        receiver: running.receiver,
        owner: running.owner,
        name: running.name,
        classes: running.classes,
        home: running.home,
        sending: Sending::Unsent,
        block: running.block,
        lambda,
    }
}

/// Register `a` gets a new Proc of a body, which captures the registers of the frame.
pub fn make_proc(
    code: &Loaded,
    hot: &mut Frame,
    parts: &mut Parts,
    a: u16,
    body: u32,
    lambda: bool,
) -> Result<Flow, AllocError>
    ensures { IfOk result (λ flow. procs.Makes code.now (beside.of parts.old) hot.old a body lambda flow hot.new
        (beside.of parts.new)) }
{
    parts.frames.capture(hot)?;
    let scopes = parts.frames.lists_around(hot)?;
    let contents = contents_of(code, parts.frames.activation(), scopes, body, lambda);
    let id = parts.heap.make_proc(contents)?;
    put(hot, parts, a, Value::Obj(id));
    Ok(Flow::Stays)
}
