//! A machine for programs of one body.
//!
//! Types: [`Ran`], [`RunFault`]. Call: [`run`].
#![tactic(auto)]

ghost use Rattle.std.specs.Prelude.{◌≡◌, ◌≢◌, ℕ, List, IfOk, OnOk, OnErr, IsErrOf};
ghost use Rattle.rb_base.specs.Outside.{Rose, with_more};
ghost use Rattle.path_eval.specs.Seen.{output_of};
ghost use Rattle.path_machine.specs.Run.{seen_after, IsRan, StoppedWithin};

mod machine;
pub mod ran;
mod running;

pub use ran::{Ran, RunFault};
use rb_base::Sink;
use rite_code::Code;
use std::alloc::Global;

/// Makes at most `budget` turns from the start of the code, and writes what they write. The code reads no
/// input, so the clauses hold for every input.
pub fn run<O: Sink>(alloc: Global, code: &Code, budget: u64, out: &mut O) -> Result<Ran, RunFault>
    ensures ran { IfOk result (λ ran. (input : List ℕ) → IsRan ran (seen_after code.now budget input)) }
    ensures written { OnOk result
        ((input : List ℕ) → O.taken out.new ≡ with_more (O.taken out.old) (output_of (seen_after code.now budget input))) }
    ensures counted { result ≢ Err RunFault.OutputFault → O.faults out.new ≡ O.faults out.old }
    ensures fault { IsErrOf result RunFault.OutputFault → Rose (O.faults out.old) (O.faults out.new) }
    ensures stopped { OnErr result
        ((input : List ℕ) → StoppedWithin code.now budget input (O.taken out.old) (O.taken out.new)) }
{
    match code.bodies().first() {
        Some(body) => running::run_body(alloc, body, budget, out),
        None => Ok(running::ended(budget)),
    }
}

#[cfg(test)]
mod tests;
