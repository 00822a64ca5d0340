//! The bodies of a program, depth first.
ghost use Rattle.std.specs.Prelude.{◌≡◌, ◌++◌, map, IfOk, OnOk};
ghost use Rattle.ir_core.specs.View.{body_view};
ghost use Rattle.ir_counts.specs.Bodies.{begun, bodies as all};
ghost use Rattle.ir_walk.specs.Steps.{body as view, steps as seen};

use ir_core::{Body, Core, Program};
use ir_walk::{Extent, Step, Walked};
use std::alloc::{AllocError, Global};

/// Adds the bodies that the steps begin.
#[tactic(auto, using(std::proofs::lemmas::Grind::common_steps))]
fn add_begun<'a>(list: &mut Vec<&'a Body<Core>>, steps: &[Step<'a>]) -> Result<(), AllocError>
    ensures { OnOk result (map view list.new.items ≡ map view list.old.items ++ begun (seen steps.now)) }
{
    for step in steps {
        match step {
            Step::Enter(body) => list.push(*body)?,
            Step::At(_) | Step::Leave => {}
        }
    }
    Ok(())
}

/// The main program and the bodies within it.
pub fn bodies_of<'a>(alloc: Global, program: &'a Program) -> Result<Vec<&'a Body<Core>>, AllocError>
    ensures { IfOk result (λ list. map view list.items ≡ all (body_view program.now)) }
{
    let mut steps = Vec::new(alloc);
    program.form.walk(Extent::Program, &mut steps)?;
    let mut list = Vec::new(alloc);
    list.push(program)?;
    add_begun(&mut list, &steps)?;
    Ok(list)
}
