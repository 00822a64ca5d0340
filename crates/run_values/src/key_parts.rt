//! The parts of a key that is an Array: those of its elements, and of nested Arrays after their heads. Nested Arrays
//! are passed with a stack of their own, so that no depth of a program's Arrays is one of the machine's stack.
ghost use Rattle.std.specs.Prelude.{◌≡◌, ◌<◌, ◌+◌, ◌-◌, ◌∷◌, [], ◌++◌, length, get_or, Some, IfOk, IfSome, OnOk};
ghost use Rattle.rb_value.specs.declared.value.Value.TheVariants.{Nil};
ghost use Rattle.rb_value.specs.declared.key.KeyPart.TheVariants as parts;
ghost use Rattle.def_core.specs.Parts.{elements_at};
ghost use Rattle.def_core.specs.Sound.{Sound, SoundPart, census, Is, Array, IsValue, AllAre};
ghost use Rattle.def_calls.specs.Values as values;
ghost use Rattle.def_calls.specs.Views as views;
ghost use Rattle.run_values.specs.Levels as nested;

use crate::kinds::{a_string, an_array};
use key_list::KeyList;
use rb_store::Store;
use rb_value::{KeyPart, ObjId, Value};
use std::alloc::AllocError;

/// The elements of an Array from a place on, in which so many levels of Arrays may be nested.
#[derive(Clone, Copy)]
pub struct Level {
    id: ObjId,
    at: usize,
    below: u64,
}

/// The parts that were passed, the level that is being passed, and those around it, the innermost last.
#[derive(Drop)]
pub struct Walk {
    parts: Vec<KeyPart>,
    level: Level,
    around: Vec<Level>,
}

/// What a step of a walk comes to.
#[derive(Clone, Copy)]
pub enum Step {
    On,
    End,
    TooDeep,
}

/// The part of a value that is no Array.
#[tactic(auto, using(def_core::proofs::Good::is_good, crate::proofs::Strings::string_there, crate::proofs::Strings::no_string))]
fn plain_part(st: &Store, value: Value) -> Result<KeyPart, AllocError>
    requires sound { Sound st.now.store }
    requires value { IsValue (census st.now.store) value }
    ensures part { IfOk result (λ part. Some (part ∷ []) ≡
        values.text_part value (views.string_of (views.kind_in st.now.store.objects value))) }
    ensures sound { IfOk result (SoundPart (census st.now.store)) }
{
    match a_string(st, value) {
        Some(id) => Ok(KeyPart::Text(KeyList::from_slice(st.alloc(), st.text(id))?)),
        None => Ok(KeyPart::Plain(value)),
    }
}

impl Walk {
    /// Goes on with the level around the one that is passed.
    fn leave(&mut self) -> Step
        ensures { nested.Leaves result self.old self.new }
    {
        match self.around.pop() {
            Some(level) => {
                self.level = level;
                Step::On
            }
            None => Step::End,
        }
    }

    /// Puts the head of an Array after the parts, and goes on with its elements.
    fn enter(&mut self, id: ObjId, count: usize) -> Result<(), AllocError>
        requires { 0 < self.old.level.below }
        ensures parts { OnOk result (self.new.parts.items ≡ self.old.parts.items ++ parts.Array count ∷ []) }
        ensures level { OnOk result (self.new.level ≡
            record { id = id; at = 0; below = self.old.level.below - 1 }) }
        ensures around { OnOk result (self.new.around.items ≡ self.old.around.items ++ self.old.level ∷ []) }
    {
        self.parts.push(KeyPart::Array(count as u64))?;
        self.around.push(self.level)?;
        self.level = Level {
            id,
            at: 0,
            below: self.level.below - 1,
        };
        Ok(())
    }

    /// Puts a part after the others.
    fn put(&mut self, part: KeyPart) -> Result<(), AllocError>
        ensures parts { OnOk result (self.new.parts.items ≡ self.old.parts.items ++ part ∷ []) }
        ensures level { OnOk result (self.new.level ≡ self.old.level) }
        ensures around { OnOk result (self.new.around.items ≡ self.old.around.items) }
    {
        self.parts.push(part)?;
        Ok(())
    }

    /// Passes a value: the head of an Array, whose elements come next, and any other value whole.
    #[tactic(auto, using(def_core::proofs::Good::is_good))]
    fn pass(&mut self, st: &Store, value: Value) -> Result<(), AllocError>
        requires sound { Sound st.now.store }
        requires value { IsValue (census st.now.store) value }
        requires walk { nested.IsWalk (census st.now.store) self.old }
        requires below { 0 < self.old.level.below }
        ensures whole { OnOk result (nested.whole st.now.store.objects self.new ≡
            values.joined (Some self.old.parts.items)
            (values.joined (nested.parts_within self.old.level.below st.now.store.objects value)
            (values.joined (nested.rest_of st.now.store.objects self.old.level)
            (nested.around st.now.store.objects self.old.around.items)))) }
        ensures steps { OnOk result (nested.steps st.now.store.objects self.new ≡
            nested.steps_of self.old.level.below st.now.store.objects value
            + nested.steps st.now.store.objects self.old) }
        ensures walk { OnOk result (nested.IsWalk (census st.now.store) self.new) }
    {
        match an_array(st, value) {
            Some(id) => {
                self.enter(id, st.elements(id).len())?;
                Ok(())
            }
            None => {
                let part = plain_part(st, value)?;
                self.put(part)?;
                Ok(())
            }
        }
    }

    /// The next element.
    #[tactic(auto, using(def_core::proofs::Good::is_good))]
    fn next(&mut self, st: &Store) -> Value
        requires sound { Sound st.now.store }
        requires walk { nested.IsWalk (census st.now.store) self.old }
        requires within { self.old.level.at < length (elements_at st.now.store.objects self.old.level.id) }
        ensures value { result ≡
            get_or (elements_at st.now.store.objects self.old.level.id) self.old.level.at Nil }
        ensures belongs { IsValue (census st.now.store) result }
        ensures walk { self.new ≡
            record self.old { level = record self.old.level { at = self.old.level.at + 1 } } }
    {
        let value = st.elements(self.level.id)[self.level.at];
        self.level.at += 1;
        value
    }

    /// Passes the next element.
    #[tactic(auto, using(def_core::proofs::Good::is_good))]
    fn step(&mut self, st: &Store) -> Result<Step, AllocError>
        requires sound { Sound st.now.store }
        requires walk { nested.IsWalk (census st.now.store) self.old }
        ensures comes { IfOk result (λ step. nested.Comes st.now.store.objects step self.old self.new) }
        ensures walk { OnOk result (nested.IsWalk (census st.now.store) self.new) }
    {
        if self.level.at >= st.elements(self.level.id).len() {
            return Ok(self.leave());
        }
        if self.level.below == 0 {
            return Ok(Step::TooDeep);
        }
        let value = self.next(st);
        self.pass(st, value)?;
        Ok(Step::On)
    }
}

/// The parts of the elements of an Array, in which so many levels of Arrays may be nested; nothing where there are
/// more.
pub(crate) fn parts_of_elements(
    st: &Store,
    id: ObjId,
    levels: u64,
) -> Result<Option<KeyList<KeyPart>>, AllocError>
    requires sound { Sound st.now.store }
    requires array { Is (census st.now.store) Array id }
    ensures parts { IfOk result (λ parts. parts ≡
        values.all_parts (nested.parts_within levels st.now.store.objects) (elements_at st.now.store.objects id)) }
    ensures sound { IfOk result (λ parts. IfSome parts (AllAre (SoundPart (census st.now.store)))) }
{
    let mut walk = Walk {
        parts: Vec::new(st.alloc()),
        level: Level {
            id,
            at: 0,
            below: levels,
        },
        around: Vec::new(st.alloc()),
    };
    'steps: loop {
        match walk.step(st)? {
            Step::On => {}
            Step::End => return Ok(Some(KeyList::from_vec(walk.parts))),
            Step::TooDeep => return Ok(None),
        }
    }
}
