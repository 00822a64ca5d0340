//! `-`, `&` and `|` of Arrays.
ghost use Rattle.std.specs.Prelude.{◌≡◌, IfOk, OnOk};
ghost use Rattle.iter_comparing.specs.Sifting as sifting;

use crate::questions::Question;
use core_calls::heap::Heap;
use rb_base::List;
use rb_value::Value;
use std::alloc::AllocError;
use std::mem;

/// Which elements stay: those that another Array hasn't; those that it has, and each once; or each once.
#[derive(Clone, Copy, Debug, PartialEq, Eq)]
pub enum Sieve {
    Difference,
    Intersection,
    Union,
}

impl Sieve {
    /// Whether each value stays once.
    pub(crate) fn is_union(self) -> bool
        ensures { result ≡ sifting.is_union self }
    {
        match self {
            Sieve::Union => true,
            Sieve::Difference | Sieve::Intersection => false,
        }
    }

    /// Whether those stay that the others haven't.
    fn is_difference(self) -> bool
        ensures { result ≡ sifting.is_difference self }
    {
        match self {
            Sieve::Difference => true,
            Sieve::Intersection | Sieve::Union => false,
        }
    }
}

/// Values of which some stay. The one at a place is looked for among the others or among those that stayed.
#[derive(Drop)]
pub struct Sifting {
    pub(crate) sieve: Sieve,
    pub(crate) values: List<Value>,
    pub(crate) place: usize,
    pub(crate) others: List<Value>,
    pub(crate) kept: List<Value>,
    pub(crate) among_kept: bool,
    /// The place of the next that is asked among those.
    pub(crate) asked: usize,
}

impl Sifting {
    /// The next of those among which a value is looked for.
    fn candidate(&self) -> Option<Value>
        ensures { result ≡ sifting.candidate self.now }
    {
        if self.among_kept {
            self.kept.as_slice().get(self.asked).copied()
        } else {
            self.others.as_slice().get(self.asked).copied()
        }
    }

    /// Goes on to the next value, which is first looked for among the others, but for a union.
    fn pass(&mut self)
        ensures { self.new ≡ sifting.passed self.old }
    {
        self.place = self.place.saturating_add(1);
        self.asked = 0;
        self.among_kept = self.sieve.is_union();
    }

    /// Whether a value stays that isn't among those where it was looked for; where it is, it is passed then.
    fn keeps_missed(&self) -> bool
        ensures { result ≡ sifting.keeps_missed self.now }
    {
        self.among_kept || self.sieve.is_difference()
    }

    /// The value isn't among those where it was looked for.
    fn miss(&mut self, value: Value) -> Result<(), AllocError>
        ensures { OnOk result (self.new ≡ sifting.missed self.old value) }
    {
        if self.keeps_missed() {
            self.kept.push(value)?;
        }
        self.pass();
        Ok(())
    }

    /// Asks the next of those among which a value is looked for; at the end those that stayed are given.
    #[tactic(auto, using(crate::proofs::Sifted::sifts_on, crate::proofs::Sifted::sifts_asking, crate::proofs::Sifted::sifts_ending))]
    pub(crate) fn question(&mut self, heap: &mut Heap) -> Result<Question, AllocError>
        ensures asks { IfOk result (λ question. question ≡ (sifting.question heap.old self.old).question) }
        ensures work { OnOk result (self.new ≡ (sifting.question heap.old self.old).work) }
        ensures heap { OnOk result (heap.new ≡ (sifting.question heap.old self.old).held) }
    {
        'values: for place in self.place..self.values.len() {
            let value = self.values.as_slice()[place];
            match self.candidate() {
                Some(candidate) => return Ok(Question::compare(candidate, value)),
                None => self.miss(value)?,
            }
        }
        let kept = mem::replace(&mut self.kept, List::new(heap.alloc()));
        Ok(Question::Ends(heap.make_array(kept.into_vec())?))
    }

    /// Takes what one of those says to the value.
    pub(crate) fn hear(&mut self, answer: Value)
        ensures { self.new ≡ sifting.heard self.old answer }
    {
        if !answer.is_true() {
            self.asked = self.asked.saturating_add(1);
        } else if self.keeps_missed() {
            self.pass();
        } else {
            self.asked = 0;
            self.among_kept = true;
        }
    }
}
