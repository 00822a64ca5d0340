//! The body of a file from the code of a body.
ghost use Rattle.std.specs.Prelude.{◌≡◌, IfOk, OnOk};
ghost use Rattle.gen_parts.specs.Pieces.{makes};
ghost use Rattle.gen_parts.specs.Emission.{with_piece};
ghost use Rattle.gen_parts.specs.Assembly as assembly;

use crate::emitter::Emitter;
use crate::places::{catch_table, instructions, places};
use rb_base::{Bytes, List};
use rite_code::{Irep, Operation, PoolItem, encode};
use std::alloc::{AllocError, Global};
use std::marker::Model;

/// What a body says before its code: its registers, and whether its jumps are wide.
#[derive(Clone, Copy, Debug, PartialEq, Eq)]
pub struct Head {
    pub locals: u16,
    pub registers: u16,
    pub wide: bool,
}

/// Bodies, the first of which makes the others.
#[derive(Drop)]
pub struct Bodies {
    first: Irep,
    others: Vec<Irep>,
}

impl Model for Bodies {
    ghost use Rattle.std.specs.Prelude as prelude;
    ghost use Rattle.rite_code.specs.declared.code.Irep.{Irep};

    ghost Value = { prelude.List Irep };

    ghost use Rattle.std.specs.Prelude.{◌∷◌};

    ghost view = { λ b. b.first ∷ b.others.items };
}

/// The body, and the bodies in it. It fails where memory runs out or something is past what a file can say.
#[tactic(auto, unfolding(crate::specs::Assembly::assembled))]
pub fn assemble(
    alloc: Global,
    head: Head,
    pool: List<PoolItem>,
    symbols: List<Bytes>,
    code: Emitter,
) -> Result<Bodies, AllocError>
    ensures { IfOk result (λ bodies. bodies ≡ assembly.assembled head pool symbols code.piece) }
{
    let at = places(alloc, head.wide, code.lines())?;
    let list = instructions(alloc, head.wide, &at, code.lines())?;
    let bytes = encode(alloc, &list)?;
    let catches = catch_table(alloc, &at, code.catches())?;
    let (children, others) = code.into_bodies();
    Ok(Bodies {
        first: Irep {
            locals: head.locals,
            registers: head.registers,
            code: Bytes::from_vec(bytes),
            catches,
            pool,
            symbols,
            children: List::from_vec(children),
        },
        others,
    })
}

impl Bodies {
    /// An emitter takes an instruction that makes these bodies, the first by its number.
    pub fn put_into(
        self,
        code: &mut Emitter,
        operation: Operation,
        number: u32,
    ) -> Result<(), AllocError>
        ensures { OnOk result (code.new ≡ with_piece code.old (makes operation number self)) }
    {
        code.take_body(operation, number, self.first, self.others)
    }

    /// The bodies as a list.
    pub fn into_list(self, alloc: Global) -> Result<List<Irep>, AllocError>
        ensures { IfOk result (λ list. list ≡ self) }
    {
        let mut list = Vec::new(alloc);
        list.push(self.first)?;
        let mut others = self.others;
        list.append(&mut others)?;
        Ok(List::from_vec(list))
    }
}
