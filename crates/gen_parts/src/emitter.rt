//! What takes the code of a body, line after line.
ghost use Rattle.std.specs.Prelude.{◌≡◌, ◌+◌, ◌∷◌, true, IfOk, OnOk};
ghost use Rattle.gen_parts.specs.Pieces.{puts, does, catches_in, makes};
ghost use Rattle.gen_parts.specs.Emission.{with_piece, here, patched, all_patched, led, caught, catch_count, empty, line_by};

use crate::line::{Catch, Line};
use rite_code::{Irep, Operation};
use std::alloc::{AllocError, Global};
use std::marker::Model;

/// Where code goes on: so many lines and made bodies of the same body come before it, and the number of the next body.
#[derive(Clone, Copy, Debug, PartialEq, Eq)]
pub struct Spot {
    pub line: u32,
    pub child: u16,
    pub body: u32,
}

/// A jump whose line isn't known yet.
#[derive(Clone, Copy, Debug, PartialEq, Eq)]
pub enum Held {
    Jump,
    JumpIf(u16),
    JumpNot(u16),
}

/// Takes the code of a body.
#[derive(Drop)]
pub struct Emitter {
    lines: Vec<Line>,
    catches: Vec<Catch>,
    children: Vec<u32>,
    bodies: Vec<Irep>,
    first_body: u32,
}

impl Model for Emitter {
    ghost use Rattle.gen_parts.specs.Emission as emission;

    ghost Value = { emission.Emission };

    ghost view = { λ e. record {
      first_body = e.first_body;
      piece = record {
        lines = e.lines.items;
        catches = e.catches.items;
        children = e.children.items;
        bodies = e.bodies.items;
      };
    } };
}

/// A count that fits the numbers of lines and bodies. More is answered as if memory ran out: no file can hold it.
fn small(count: usize) -> Result<u32, AllocError>
    ensures { IfOk result (λ n. n ≡ count) }
{
    match u32::try_from(count) {
        Ok(n) => Ok(n),
        Err(_) => Err(AllocError),
    }
}

fn child_number(count: usize) -> Result<u16, AllocError>
    ensures { IfOk result (λ n. n ≡ count) }
{
    match u16::try_from(count) {
        Ok(n) => Ok(n),
        Err(_) => Err(AllocError),
    }
}

fn sum(a: u32, b: u32) -> Result<u32, AllocError>
    ensures { IfOk result (λ n. n ≡ a + b) }
{
    match a.checked_add(b) {
        Some(n) => Ok(n),
        None => Err(AllocError),
    }
}

impl Held {
    /// The jump to a line.
    fn to(self, to: u32) -> Line
        ensures { result ≡ line_by self to }
    {
        match self {
            Held::Jump => Line::Jump { to },
            Held::JumpIf(register) => Line::JumpIf { register, to },
            Held::JumpNot(register) => Line::JumpNot { register, to },
        }
    }
}

impl Emitter {
    /// No code yet. The first body that its instructions make has this number. It takes no memory.
    #[tactic(auto, using(std::proofs::lemmas::Grind::common_steps), unfolding(crate::specs::Emission::empty, crate::specs::Pieces::nothing))]
    pub fn new(alloc: Global, first_body: u32) -> Emitter
        ensures { result ≡ empty first_body }
    {
        Emitter {
            lines: Vec::new(alloc),
            catches: Vec::new(alloc),
            children: Vec::new(alloc),
            bodies: Vec::new(alloc),
            first_body,
        }
    }

    /// Where code goes on.
    #[tactic(auto, using(std::proofs::lemmas::Grind::common_steps), unfolding(crate::specs::Emission::here))]
    pub fn here(&self) -> Result<Spot, AllocError>
        ensures { IfOk result (λ s. s ≡ here self.now) }
    {
        let line = small(self.lines.len())?;
        let child = child_number(self.children.len())?;
        let body = sum(self.first_body, small(self.bodies.len())?)?;
        Ok(Spot { line, child, body })
    }

    /// The number of the next line.
    #[tactic(auto, using(std::proofs::lemmas::Grind::common_steps), unfolding(crate::specs::Emission::here))]
    pub fn next_line(&self) -> Result<u32, AllocError>
        ensures { IfOk result (λ n. n ≡ (here self.now).line) }
    {
        small(self.lines.len())
    }

    /// Takes a line.
    #[tactic(auto, using(std::proofs::lemmas::Grind::common_steps), unfolding(crate::specs::Emission::with_piece, crate::specs::Pieces::both, crate::specs::Pieces::puts))]
    pub fn put(&mut self, line: Line) -> Result<(), AllocError>
        ensures { OnOk result (self.new ≡ with_piece self.old (puts line)) }
    {
        self.lines.push(line)?;
        Ok(())
    }

    /// Takes an instruction that is no jump.
    pub fn does(&mut self, operation: Operation) -> Result<(), AllocError>
        ensures { OnOk result (self.new ≡ with_piece self.old (does operation)) }
    {
        self.put(Line::Does(operation))
    }

    /// Takes a jump that leads to line 0 until it lands, and gives the number of its line.
    pub fn hold(&mut self, held: Held) -> Result<u32, AllocError>
        ensures number { IfOk result (λ n. n ≡ (here self.old).line) }
        ensures taken { OnOk result (self.new ≡ with_piece self.old (puts (line_by held 0))) }
    {
        let line = self.next_line()?;
        self.put(held.to(0))?;
        Ok(line)
    }

    /// Another line stands in a place, where there is one.
    #[tactic(auto, using(std::proofs::lemmas::Grind::common_steps), unfolding(crate::specs::Emission::patched))]
    fn patch(&mut self, place: u32, line: Line)
        ensures { self.new ≡ patched self.old place line }
    {
        if let Some(slot) = self.lines.get_mut(place as usize) {
            *slot = line;
        }
    }

    /// A held jump leads to the next line.
    pub fn land(&mut self, place: u32, held: Held) -> Result<(), AllocError>
        ensures { OnOk result (self.new ≡ patched self.old place (line_by held (here self.old).line)) }
    {
        let to = self.next_line()?;
        self.patch(place, held.to(to));
        Ok(())
    }

    /// Held jumps of one kind lead to the next line.
    pub fn land_each(&mut self, places: &[u32], held: Held) -> Result<(), AllocError>
        ensures { OnOk result (self.new ≡ all_patched self.old places.now (line_by held (here self.old).line)) }
    {
        let to = self.next_line()?;
        for place in places {
            self.patch(*place, held.to(to));
        }
        Ok(())
    }

    /// The jumps in the places from one on lead to these lines.
    pub fn lead(&mut self, first: u32, lines: &[u32]) -> Result<(), AllocError>
        ensures { OnOk result (self.new ≡ led self.old first lines.now) }
    {
        let mut place = first;
        for line in lines {
            self.patch(place, Line::Jump { to: *line });
            place = sum(place, 1)?;
        }
        Ok(())
    }

    /// Takes an entry of the catch table that says nothing yet, and gives its number.
    #[tactic(auto, using(std::proofs::lemmas::Grind::common_steps), unfolding(crate::specs::Emission::with_piece, crate::specs::Pieces::both, crate::specs::Pieces::catches, crate::specs::Emission::catch_count))]
    pub fn hold_catch(&mut self) -> Result<usize, AllocError>
        ensures number { IfOk result (λ n. n ≡ catch_count self.old) }
        ensures taken { OnOk result (self.new ≡ with_piece self.old (catches_in true 0 0 0)) }
    {
        let number = self.catches.len();
        self.catches.push(Catch {
            rescue: true,
            begin: 0,
            end: 0,
            target: 0,
        })?;
        Ok(number)
    }

    /// The entry of the catch table says this.
    #[tactic(auto, using(std::proofs::lemmas::Grind::common_steps), unfolding(crate::specs::Emission::caught))]
    pub fn land_catch(&mut self, number: usize, entry: Catch)
        ensures { self.new ≡ caught self.old number entry }
    {
        if let Some(slot) = self.catches.get_mut(number) {
            *slot = entry;
        }
    }
}

impl Emitter {
    /// The lines.
    pub(crate) fn lines(&self) -> &[Line]
        ensures { result.now ≡ self.now.piece.lines }
    {
        self.lines.as_slice()
    }

    /// The entries of the catch table by lines.
    pub(crate) fn catches(&self) -> &[Catch]
        ensures { result.now ≡ self.now.piece.catches }
    {
        self.catches.as_slice()
    }

    /// The numbers of the bodies that the instructions make, and the bodies.
    pub(crate) fn into_bodies(self) -> (Vec<u32>, Vec<Irep>)
        ensures children { result.0.items ≡ self.piece.children }
        ensures bodies { result.1.items ≡ self.piece.bodies }
    {
        (self.children, self.bodies)
    }

    /// Takes an instruction that makes a body, by its number, with the bodies in it.
    #[tactic(auto, using(std::proofs::lemmas::Grind::common_steps), unfolding(crate::specs::Emission::with_piece, crate::specs::Pieces::both, crate::specs::Pieces::makes))]
    pub(crate) fn take_body(
        &mut self,
        operation: Operation,
        number: u32,
        first: Irep,
        others: Vec<Irep>,
    ) -> Result<(), AllocError>
        ensures { OnOk result (self.new ≡ with_piece self.old (makes operation number (first ∷ others.items))) }
    {
        self.lines.push(Line::Does(operation))?;
        self.children.push(number)?;
        self.bodies.push(first)?;
        let mut rest = others;
        self.bodies.append(&mut rest)?;
        Ok(())
    }
}
