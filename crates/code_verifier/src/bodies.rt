//! The checks of a body: its instructions, the place where reading ends, its catch entries; and of all bodies.
ghost use Rattle.std.specs.Prelude.{◌≡◌, ◌≤◌, length, map, IfOk, IfErr};
ghost use Rattle.code_outline.specs.Layout as laid;
ghost use Rattle.code_outline.specs.Outlined.{LaysOut, Outlines, seen};
ghost use Rattle.code_verifier.specs.Answers.{answer, outcome};
ghost use Rattle.code_verifier.specs.Checks as checks;
ghost use Rattle.code_verifier.specs.Known.{KnowsBody};
ghost use Rattle.code_verifier.specs.Verified.{IsVerified, IsFault};

use crate::causes::check_instruction;
use crate::checks::catch_holds;
use crate::error::VerifyError;
use crate::unread::unread;
use code_outline::laying::layout;
use code_outline::{Layout, Outline, Standing};
use rite_code::{Cause, Code, Irep};
use std::alloc::Global;

fn check_instructions(
    code: &Code,
    outline: &Outline,
    number: u32,
    body: &Irep,
    layout: &Layout,
) -> Result<(), VerifyError>
    requires { KnowsBody code.now outline.now number body.now layout.now }
    ensures { let list = laid.layout code.now.version body.now.code in
        result ≡ answer (checks.first (checks.instructions_bad code.now number body.now list list)) }
{
    for standing in layout.instructions.as_slice() {
        let at = standing.at;
        if let Err(cause) = check_instruction(code, outline, number, body, layout, standing) {
            return Err(VerifyError::Bad {
                irep: number,
                at,
                cause,
            });
        }
    }
    Ok(())
}

/// Where reading ends.
fn end_of(list: &[Standing]) -> u32
    ensures { result ≡ laid.end_of 0 (map seen list.now) }
{
    match list {
        [] => 0,
        [.., last] => last.next,
    }
}

/// The code is read to its end, and has an instruction.
fn check_end(version: u8, code: &[u8], end: u32) -> Result<(), Cause>
    requires { end ≤ length code.now }
    ensures { result ≡ outcome (checks.read_whole version code.now end) }
{
    if code.is_empty() {
        return Err(Cause::Cut);
    }
    if end as usize == code.len() {
        return Ok(());
    }
    Err(unread(version, &code[end as usize..]))
}

fn check_catches(version: u8, number: u32, body: &Irep, layout: &Layout) -> Result<(), VerifyError>
    requires laid { LaysOut version body.now.code layout.now }
    ensures { let list = laid.layout version body.now.code in
        result ≡ answer (checks.first (checks.catches_bad number body.now list body.now.catches)) }
{
    for entry in body.catches.as_slice() {
        if !catch_holds(body.code.len(), layout, entry) {
            let at = entry.begin;
            return Err(VerifyError::Bad {
                irep: number,
                at,
                cause: Cause::Catch,
            });
        }
    }
    Ok(())
}

/// The first check of body `number` that fails.
#[tactic(auto, using(crate::proofs::Parts::in_instructions))]
fn check_body(
    code: &Code,
    outline: &Outline,
    number: u32,
    body: &Irep,
    layout: &Layout,
) -> Result<(), VerifyError>
    requires { KnowsBody code.now outline.now number body.now layout.now }
    ensures { result ≡ answer (checks.body_bad code.now number body.now) }
{
    check_instructions(code, outline, number, body, layout)?;
    let version = code.version();
    let end = end_of(layout.instructions.as_slice());
    if let Err(cause) = check_end(version, body.code.as_slice(), end) {
        return Err(VerifyError::Bad {
            irep: number,
            at: end,
            cause,
        });
    }
    check_catches(version, number, body, layout)
}

/// Checks every body, each laid out where it is checked, so that one layout at most is kept. `Bad` is the first check of
/// the program that fails, `NoMemory` where memory runs out.
#[tactic(auto, unfolding(crate::specs::Checks::first_bad))]
pub fn check_bodies(alloc: Global, code: &Code, outline: &Outline) -> Result<(), VerifyError>
    requires { Outlines code.now outline.now }
    ensures verified { IfOk result (λ _. IsVerified code.now) }
    ensures bad { IfErr result (IsFault (checks.first_bad code.now)) }
{
    let bodies = code.bodies();
    for number in 0..bodies.len() {
        let body = &bodies[number];
        let layout = layout(alloc, code.version(), body.code.as_slice())?;
        check_body(code, outline, number as u32, body, &layout)?;
    }
    Ok(())
}
