//! The lists of classes whose bodies enclose a text.
ghost use Rattle.std.specs.Prelude.{◌≡◌, ◌+◌, ◌<◌, ◌++◌, ◌∷◌, [], length, IfOk, OnOk, OnErr};
ghost use Rattle.rb_value.specs.declared.core_class.CoreClass.TheVariants as classes;
ghost use Rattle.def_core.specs.Store.{core};
ghost use Rattle.def_core.specs.Sound.{Sound, census, Is, ClassOrModule};
ghost use Rattle.def_calls.specs.World as world;
ghost use Rattle.run_definitions.specs.Enclosing.{enclosed, AreEnclosing};

use rb_store::Store;
use rb_value::{CoreClass, ObjId};
use std::alloc::{AllocError, Global};
use std::marker::Model;

/// The innermost class around a text, and the number of the list of those around it.
#[derive(Clone, Copy, Debug)]
pub struct Enclosing {
    class: ObjId,
    around: u64,
}

impl Model for Enclosing {
    ghost use Rattle.def_calls.specs.World as world;

    ghost Value = { world.Enclosing };

    ghost view = { λ e. record { class = e.class; around = e.around } };

    ghost inverse = { λ e. record { class = e.class; around = e.around } };
}

/// The lists of enclosing classes, numbered from 1. List 0 has no classes.
#[derive(Debug, Drop)]
pub struct EnclosingLists {
    lists: Vec<Enclosing>,
}

impl Model for EnclosingLists {
    ghost use Rattle.std.specs.Prelude as prelude;
    ghost use Rattle.def_calls.specs.World as world;

    ghost Value = { prelude.List world.Enclosing };

    ghost view = { λ l. l.lists.items };
}

impl EnclosingLists {
    /// No lists. It takes no memory.
    pub fn new(alloc: Global) -> EnclosingLists
        ensures { result ≡ [] }
    {
        EnclosingLists {
            lists: Vec::new(alloc),
        }
    }

    /// Adds the list with one class more, and gives its number. Where memory runs out all is as before.
    pub fn open(&mut self, class: ObjId, around: u64) -> Result<u64, AllocError>
        ensures listed { OnOk result (self.new ≡ self.old ++ record { class = class; around = around } ∷ []) }
        ensures number { IfOk result (λ n. (w : world.World) → n ≡ world.next_classes (enclosed self.old w)) }
        ensures ok { OnOk result ((w : world.World) →
            enclosed self.new w ≡ world.with_enclosing (enclosed self.old w) class around) }
        ensures err { OnErr result (self.new ≡ self.old) }
    {
        self.lists.push(Enclosing { class, around })?;
        Ok(self.lists.len() as u64)
    }

    /// The list of a number: its innermost class, and the list around it. It takes no memory.
    pub(crate) fn at(&self, number: u64) -> Enclosing
        requires { 0 < number }
        ensures { (w : world.World) → result ≡ world.enclosing_at (enclosed self.now w) number }
    {
        match self.lists.get((number - 1) as usize) {
            Some(enclosing) => *enclosing,
            None => Enclosing {
                class: ObjId(CoreClass::Object.number()),
                around: 0,
            },
        }
    }

    /// The class in which a method is defined: the innermost of a list, and Object outside of all. It takes no memory.
    pub fn class_around(&self, number: u64) -> ObjId
        ensures { (w : world.World) → result ≡ world.class_around (enclosed self.now w) number }
    {
        if number == 0 {
            ObjId(CoreClass::Object.number())
        } else {
            self.at(number).class
        }
    }
}

impl Enclosing {
    /// The class.
    pub fn class(self) -> ObjId
        ensures { result ≡ self.class }
    {
        self.class
    }

    /// The number of the list of those around it.
    pub fn around(self) -> u64
        ensures { result ≡ self.around }
    {
        self.around
    }
}
