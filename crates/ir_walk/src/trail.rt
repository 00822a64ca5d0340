//! What is met on a walk, in order.
ghost use Rattle.std.specs.Prelude.{◌≡◌, ◌++◌, ◌∷◌, [], OnOk};
ghost use Rattle.ir_core.specs.View.{term_view};
ghost use Rattle.ir_walk.specs.Steps.{step, steps};
ghost use Rattle.ir_walk.specs.Walk.{met, leaving};

use crate::step::Step;
use ir_core::Term;
use std::alloc::AllocError;

/// Notes a core.
#[tactic(auto, using(std::proofs::lemmas::Grind::common_steps))]
pub fn meet<'a>(trail: &mut Vec<Step<'a>>, core: &'a Term) -> Result<(), AllocError>
    ensures { OnOk result (steps trail.new.items ≡ met (steps trail.old.items) (term_view core.now)) }
{
    trail.push(Step::At(core))?;
    Ok(())
}

/// Notes the beginning of a body.
#[tactic(auto, using(std::proofs::lemmas::Grind::common_steps))]
pub fn enter<'a>(trail: &mut Vec<Step<'a>>, beginning: Step<'a>) -> Result<(), AllocError>
    ensures { OnOk result (steps trail.new.items ≡ steps trail.old.items ++ step beginning.entry ∷ []) }
{
    trail.push(beginning)?;
    Ok(())
}

/// Notes the end of a body.
#[tactic(auto, using(std::proofs::lemmas::Grind::common_steps))]
pub fn leave<'a>(trail: &mut Vec<Step<'a>>) -> Result<(), AllocError>
    ensures { OnOk result (steps trail.new.items ≡ leaving (steps trail.old.items)) }
{
    trail.push(Step::Leave)?;
    Ok(())
}
