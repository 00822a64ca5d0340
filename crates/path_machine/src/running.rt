//! Turn after turn of one body.
ghost use Rattle.std.specs.Prelude.{◌≡◌, ◌≢◌, [], IfOk, OnOk, OnErr, IsErrOf};
ghost use Rattle.rb_base.specs.Outside.{Rose, TookFront, with_more};
ghost use Rattle.path_core.specs.Rows.{line_of};
ghost use Rattle.path_turns.specs.State.{no_body};
ghost use Rattle.path_machine.specs.Course.{course};
ghost use Rattle.path_machine.specs.Standing.{whole_course};

use crate::machine::{Next, step};
use crate::ran::{Ran, RunFault};
use path_number::Line;
use path_value::Value;
use rb_base::{Failed, Sink, write_all};
use rite_code::Irep;
use std::alloc::Global;

/// How a program without a body comes out.
#[tactic(auto, using(crate::proofs::Loop::spent_of, crate::proofs::Loop::ended_of))]
pub fn ended(budget: u64) -> Ran
    ensures { record { written = []; ran = result } ≡ whole_course no_body budget }
{
    if budget == 0 {
        Ran::Spent
    } else {
        Ran::Ended(0)
    }
}

/// Writes the line of a value.
fn put<O: Sink>(out: &mut O, value: Value) -> Result<(), Failed>
    ensures took { OnOk result (O.taken out.new ≡ with_more (O.taken out.old) (line_of value)) }
    ensures counted { OnOk result (O.faults out.new ≡ O.faults out.old) }
    ensures failed { OnErr result (Rose (O.faults out.old) (O.faults out.new)) }
    ensures front { OnErr result (TookFront (O.taken out.old) (O.taken out.new) (line_of value)) }
{
    let line = Line::of(value);
    write_all(out, line.as_slice())
}

/// At most `budget` turns from the start of a body, over its registers.
fn turns<O: Sink>(
    body: &Irep,
    registers: &mut [Value],
    budget: u64,
    out: &mut O,
) -> Result<Ran, Failed>
    ensures ran { IfOk result (λ ran. ran ≡ (course body.now budget 0 registers.old).ran) }
    ensures written { OnOk result
        (O.taken out.new ≡ with_more (O.taken out.old) (course body.now budget 0 registers.old).written) }
    ensures counted { OnOk result (O.faults out.new ≡ O.faults out.old) }
    ensures failed { OnErr result (Rose (O.faults out.old) (O.faults out.new)) }
    ensures front { OnErr result
        (TookFront (O.taken out.old) (O.taken out.new) (course body.now budget 0 registers.old).written) }
{
    let mut place = 0;
    let mut left = budget;
    'turns: while left > 0 {
        left -= 1;
        match step(body, place, registers) {
            Next::To(next) => place = next,
            Next::Puts(next, value) => {
                put(out, value)?;
                place = next;
            }
            Next::Ended(status) => return Ok(Ran::Ended(status)),
            Next::Uncaught(failure) => return Ok(Ran::Uncaught(failure)),
        }
    }
    Ok(Ran::Spent)
}

/// At most `budget` turns from the start of a body.
pub fn run_body<O: Sink>(
    alloc: Global,
    body: &Irep,
    budget: u64,
    out: &mut O,
) -> Result<Ran, RunFault>
    ensures ran { IfOk result (λ ran. ran ≡ (whole_course body.now budget).ran) }
    ensures written { OnOk result
        (O.taken out.new ≡ with_more (O.taken out.old) (whole_course body.now budget).written) }
    ensures counted { result ≢ Err RunFault.OutputFault → O.faults out.new ≡ O.faults out.old }
    ensures fault { IsErrOf result RunFault.OutputFault → Rose (O.faults out.old) (O.faults out.new) }
    ensures stopped { OnErr result
        (TookFront (O.taken out.old) (O.taken out.new) (whole_course body.now budget).written) }
{
    let mut registers = vec![in alloc; Value::Nil; usize::from(body.registers)]?;
    let ran = turns(body, &mut registers, budget, out)?;
    Ok(ran)
}
