//! The first check of an instruction that fails.
ghost use Rattle.std.specs.Prelude.{◌≡◌};
ghost use Rattle.code_outline.specs.Layout as laid;
ghost use Rattle.code_outline.specs.Outlined.{seen};
ghost use Rattle.code_verifier.specs.Answers.{outcome};
ghost use Rattle.code_verifier.specs.Checks as checks;
ghost use Rattle.code_verifier.specs.Known.{KnowsBody};

use crate::checks::{
    catch_holds, child_holds, count_holds, enter_holds, entry_holds, is_used, jump_holds,
    makes_once, place_holds, takes_arguments, variable_holds,
};
use crate::needs::{leaves, registers_of, symbols_hold};
use crate::plain::passes;
use code_outline::{Layout, Outline, Standing};
use rite_code::{Cause, Code, Irep};

/// The cause, where its check doesn't hold.
#[inline(always)]
pub fn check(holds: bool, cause: Cause) -> Result<(), Cause>
    ensures { result ≡ outcome (checks.unless holds cause) }
{
    if holds { Ok(()) } else { Err(cause) }
}

/// The first check of an instruction of body `number` that fails, each being made.
///
/// It stands by itself, so that the loop of the instructions that need no more than a look stays short.
#[inline(never)]
#[tactic(auto, unfolding(crate::specs::Checks::cause_of, crate::specs::Checks::first))]
fn check_all(
    code: &Code,
    outline: &Outline,
    number: u32,
    body: &Irep,
    layout: &Layout,
    standing: &Standing,
) -> Result<(), Cause>
    requires { KnowsBody code.now outline.now number body.now layout.now }
    ensures { let list = laid.layout code.now.version body.now.code in
        result ≡ outcome (checks.cause_of code.now number body.now list (seen standing.now)) }
{
    let Standing { at, next, instr } = *standing;
    let operation = instr.operation();
    let maker = outline.maker(number);
    let list = layout.instructions.as_slice();
    check(count_holds(&instr), Cause::Extended)?;
    check(
        registers_of(operation) <= u32::from(body.registers),
        Cause::Register,
    )?;
    check(entry_holds(body.pool.as_slice(), operation), Cause::Pool)?;
    check(symbols_hold(body.symbols.len(), operation), Cause::Symbol)?;
    check(child_holds(body, operation), Cause::Child)?;
    check(jump_holds(layout, next, operation), Cause::Jump)?;
    check(
        variable_holds(code, outline, number, operation),
        Cause::Upvar,
    )?;
    check(
        enter_holds(takes_arguments(maker), at, body, list, operation),
        Cause::Enter,
    )?;
    check(place_holds(number, maker, operation), Cause::Place)?;
    let is_sole = makes_once(code, outline, number, body, at, operation);
    check(is_sole && is_used(code, outline, number, at), Cause::Use)?;
    check(
        leaves(operation) || (next as usize) < body.code.len(),
        Cause::Fall,
    )
}

/// The first check of an instruction of body `number` that fails.
#[inline(always)]
pub fn check_instruction(
    code: &Code,
    outline: &Outline,
    number: u32,
    body: &Irep,
    layout: &Layout,
    standing: &Standing,
) -> Result<(), Cause>
    requires { KnowsBody code.now outline.now number body.now layout.now }
    ensures { let list = laid.layout code.now.version body.now.code in
        result ≡ outcome (checks.cause_of code.now number body.now list (seen standing.now)) }
{
    let Standing { at, next, instr } = *standing;
    if at != 0 && (next as usize) < body.code.len() && passes(body, instr.operation()) {
        Ok(())
    } else {
        check_all(code, outline, number, body, layout, standing)
    }
}
