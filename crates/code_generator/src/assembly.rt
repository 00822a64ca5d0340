//! A list of narrow instructions that grows at its end.
ghost use Rattle.std.specs.Prelude.{◌≡◌, ◌++◌, [], ◌∷◌, false, map, IfOk, OnOk, IsTrue};
ghost use Rattle.rite_code.specs.Instruction.{narrow};
ghost use Rattle.rite_code.specs.Shape.{fits_as};
ghost use Rattle.rite_code.specs.Spelling.{encodings};

use rite_code::{Instr, Operation, encode};
use std::alloc::{AllocError, Global};
use std::marker::Model;

/// Narrow instructions, seen as the list of what they do.
#[derive(Debug, Drop)]
pub struct Assembly {
    instructions: Vec<Instr>,
}

impl Model for Assembly {
    ghost use Rattle.std.specs.Prelude as prelude;
    ghost use Rattle.rite_code.specs.declared.operation.Operation.{Operation};
    ghost use Rattle.code_generator.specs.Narrow.{operations_in, AreNarrow};

    ghost Value = { prelude.List Operation };

    ghost view = { λ a. operations_in a.instructions.items };

    ghost invariant = { λ a. AreNarrow a.instructions.items };
}

impl Assembly {
    /// No instruction. It takes no memory.
    pub fn new(alloc: Global) -> Assembly
        ensures { result ≡ [] }
    {
        Assembly {
            instructions: Vec::new(alloc),
        }
    }

    /// Puts an instruction at the end.
    #[tactic(auto, using(crate::proofs::Narrow::are_narrow_push))]
    pub fn put(&mut self, operation: Operation) -> Result<(), AllocError>
        requires { IsTrue (fits_as false operation) }
        ensures { OnOk result (self.new ≡ self.old ++ operation ∷ []) }
    {
        self.instructions
            .push(Instr::from_fitting(false, operation))?;
        Ok(())
    }

    /// The bytes of the instructions.
    #[tactic(auto, using(crate::proofs::Narrow::narrow_operations))]
    pub fn encode(&self, alloc: Global) -> Result<Vec<u8>, AllocError>
        ensures { IfOk result (λ bytes. bytes.items ≡ encodings (map narrow self.now)) }
    {
        encode(alloc, &self.instructions)
    }
}
