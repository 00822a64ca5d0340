//! Exceptions that the language raises.
ghost use Rattle.std.specs.Prelude.{◌≡◌};
ghost use Rattle.def_core.specs.declared.cause.Cause.TheVariants as cause;
ghost use Rattle.def_core.specs.Store.{core};
ghost use Rattle.def_core.specs.Classes as classes;
ghost use Rattle.def_core.specs.Sound.{Sound, census};
ghost use Rattle.def_calls.specs.Values as values;
ghost use Rattle.def_calls.specs.World as world;
ghost use Rattle.rb_store.specs.Keeps.{Keeps};
ghost use Rattle.run_values.specs.Answers.{Answers};
ghost use Rattle.heap.specs.Operands as operands;
ghost use Rattle.heap.specs.Told.{told};

use crate::heap::Heap;
use crate::testing::told;
use def_core::Cause;
use rb_store::Store;
use rb_value::{CoreClass, Value};
use run_values::Given;
use std::alloc::AllocError;

/// Raises by a cause, whose text and exception are new objects.
#[tactic(auto, using(rb_store::proofs::Keeping::keeps_itself))]
pub(crate) fn fail(st: &mut Store, cause: Cause) -> Result<Given, AllocError>
    requires sound { Sound st.old.store }
    ensures keeps { Keeps st.old st.new }
    ensures answers { Answers st.old st.new result (λ w. world.fail w (told st.old.store cause)) }
{
    let cause = told(st, cause);
    run_values::fail(st, cause)
}

/// Raises since an instruction of that name meets a value that it isn't made for.
#[tactic(auto, using(rb_store::proofs::Keeping::keeps_itself))]
pub(crate) fn wrong_value(st: &mut Store, instruction: &[u8]) -> Result<Given, AllocError>
    requires sound { Sound st.old.store }
    ensures keeps { Keeps st.old st.new }
    ensures answers { Answers st.old st.new result (λ w. values.wrong_value w instruction.now) }
{
    run_values::wrong_value(st, instruction)
}

impl Heap {
    /// Raises by a cause, whose text and exception are new objects.
    pub fn fail(&mut self, cause: Cause) -> Result<Given, AllocError>
        ensures answers { Answers self.old self.new result (λ w. world.fail w (told self.old.store cause)) }
    {
        fail(&mut self.st, cause)
    }

    /// Raises since an instruction of that name meets a value that it isn't made for.
    pub fn wrong_value(&mut self, instruction: &[u8]) -> Result<Given, AllocError>
        ensures { Answers self.old self.new result (λ w. values.wrong_value w instruction.now) }
    {
        wrong_value(&mut self.st, instruction)
    }

    /// Raises since a value of a core class was expected.
    pub fn unexpected(&mut self, class: CoreClass, value: Value) -> Result<Given, AllocError>
        ensures answers { Answers self.old self.new result (λ w. world.fail w (cause.Expected (core class)
            (classes.plain_class_of self.old.store.objects (operands.own self.old.store value)))) }
    {
        let cause = self.refusal(class, value);
        self.fail(cause)
    }

    /// The cause by which a value is refused where one of a core class is expected.
    #[tactic(auto, using(crate::proofs::Told::expected_told))]
    pub fn refusal(&self, class: CoreClass, value: Value) -> Cause
        ensures cause { result ≡ cause.Expected (core class)
            (classes.plain_class_of self.now.store.objects (operands.own self.now.store value)) }
        ensures told { told self.now.store result ≡ result }
    {
        Cause::Expected {
            class: self.st.class_object(class),
            got: self.plain_class_of(value),
        }
    }
}
