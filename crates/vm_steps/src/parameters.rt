//! ENTER: the arguments become the values of parameters.
ghost use Rattle.std.specs.Prelude.{◌≡◌, IfOk};
ghost use Rattle.vm_parts.specs.Beside as beside;
ghost use Rattle.vm_steps.specs.Answering as acts;
ghost use Rattle.vm_steps.specs.Parameters as binding;

use def_core::{Bound, Cause};
use rb_value::{Args, Shape, Value};
use rite_code::Parameters;
use std::alloc::AllocError;
use vm_parts::arguments::block_value;
use vm_parts::exits::after;
use vm_parts::flow::Flow;
use vm_parts::loaded::Loaded;
use vm_parts::parts::{Parts, behind, put};
use vm_parts::vm_frames::Frame;

/// The shape of parameters.
pub fn shape_of(parameters: Parameters) -> Shape
    ensures { result ≡ binding.shape_of parameters }
{
    Shape {
        required: parameters.required,
        optional: parameters.optional,
        rest: parameters.rest,
        post: parameters.post,
    }
}

/// The registers from 1 on get the values of the parameters, and the block after them; the frame has no arguments then.
#[tactic(auto, unfolding(crate::specs::Parameters::few))]
fn put_values(hot: &mut Frame, parts: &mut Parts, list: &Args, filled: u8)
    ensures frame { hot.new ≡ binding.behind_jumps hot.old filled }
    ensures put { beside.of parts.new ≡ binding.put_in (beside.of parts.old) hot.old list.now }
{
    parts.frames.set_parameters(hot, list.as_slice());
    let block = block_value(hot.block);
    let place = u16::try_from(list.len()).unwrap_or(u16::MAX);
    parts.set(hot, behind(place), block);
    hot.given = 0;
    hot.index = hot.index.wrapping_add(1 + u32::from(filled));
}

/// Why so many arguments don't fit.
fn wrong_count(shape: Shape, given: usize) -> Cause
    ensures { result ≡ binding.wrong_count shape given }
{
    let least = u64::from(shape.required) + u64::from(shape.post);
    let most = if shape.rest {
        None
    } else {
        Some(least + u64::from(shape.optional))
    };
    Cause::WrongCount {
        given: given as u64,
        least,
        most,
    }
}

/// Raises since so many arguments don't fit.
fn refuse_count(
    code: &Loaded,
    hot: &mut Frame,
    parts: &mut Parts,
    shape: Shape,
    given: usize,
) -> Result<Flow, AllocError>
    ensures { IfOk result (λ flow. acts.Fails code.now (beside.of parts.old) hot.old (binding.wrong_count shape given) 0
        flow hot.new (beside.of parts.new)) }
{
    let given = parts.heap.fail(wrong_count(shape, given))?;
    after(code, hot, parts, given, 0)
}

/// The parameters get what was bound, or the number of the arguments doesn't fit.
fn enter_bound(
    code: &Loaded,
    hot: &mut Frame,
    parts: &mut Parts,
    parameters: Parameters,
    bound: Bound,
) -> Result<Flow, AllocError>
    ensures { IfOk result (λ flow. binding.EntersWith code.now (beside.of parts.old) hot.old parameters bound flow
        hot.new (beside.of parts.new)) }
{
    match bound {
        Bound::Values { list, filled } => {
            put_values(hot, parts, &list, filled);
            Ok(Flow::Stays)
        }
        Bound::Wrong { given } => refuse_count(code, hot, parts, shape_of(parameters), given),
    }
}

/// ENTER: the arguments are bound by the shape of the parameters; the frame goes on at the jump for the optional
/// parameters that are given.
pub fn enter_parameters(
    code: &Loaded,
    hot: &mut Frame,
    parts: &mut Parts,
    parameters: Parameters,
) -> Result<Flow, AllocError>
    ensures { IfOk result (λ flow. binding.Enters code.now (beside.of parts.old) hot.old parameters flow hot.new
        (beside.of parts.new)) }
{
    let shape = shape_of(parameters);
    let bound = parts
        .heap
        .bind(shape, parts.frames.arguments(hot), hot.binds)?;
    enter_bound(code, hot, parts, parameters, bound)
}

/// BLKPUSH: the Proc that a yield calls.
pub fn push_block(
    code: &Loaded,
    hot: &mut Frame,
    parts: &mut Parts,
    a: u16,
) -> Result<Flow, AllocError>
    ensures { IfOk result (λ flow. binding.PushesBlock code.now (beside.of parts.old) hot.old a flow hot.new (beside.of
        parts.new)) }
{
    match hot.yields {
        Some(block) => {
            put(hot, parts, a, Value::Obj(block));
            Ok(Flow::Stays)
        }
        None => {
            let given = parts.heap.fail(Cause::NoBlockToYield)?;
            after(code, hot, parts, given, a)
        }
    }
}
