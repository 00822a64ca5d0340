//! Objects.
ghost use Rattle.std.specs.Prelude.{◌≡◌, None, Some, [], OnOk, OnErr};
ghost use Rattle.rb_value.specs.Contents.{elements_in, bytes_in};
ghost use Rattle.rb_value.specs.KindRef as refs;
ghost use Rattle.rb_value.specs.Sort.{sort_of};
ghost use Rattle.rb_value.specs.Variables.{variable_of, with_variable};

use crate::held::Held;
use crate::kind::{Kind, KindRef, Sort};
use crate::value::{ObjId, SymId, Value};
use crate::variables::{Variable, value_in};
use std::alloc::{AllocError, Global};
use std::marker::Model;
use std::mem::size_of;

/// An object: its class, its singleton class where one was made, its instance variables in the order in which they
/// were first set, and what it holds. It takes 48 bytes without what stands apart.
#[derive(Drop)]
pub struct Object {
    class: ObjId,
    pub(crate) held: Held,
}

impl Model for Object {
    ghost use Rattle.rb_value.specs.Object as objects;

    ghost Value = { objects.Object };

    ghost use Rattle.rb_value.specs.Held as helds;

    ghost view = { λ o. helds.seen o.class o.held };
}

impl Object {
    /// An object with a class and contents alone. It takes no memory.
    pub fn new(class: ObjId, kind: Kind) -> Object
        ensures { result ≡ record { class = class; singleton = None; variables = []; kind = kind } }
    {
        Object {
            class,
            held: Held::of(kind),
        }
    }

    /// The class.
    #[inline(always)]
    pub fn class(&self) -> ObjId
        ensures { result ≡ self.now.class }
    {
        self.class
    }

    /// The singleton class, where one was made.
    pub fn singleton(&self) -> Option<ObjId>
        ensures { result ≡ self.now.singleton }
    {
        match &self.held {
            Held::Rich(rich) => rich.get().singleton,
            _ => None,
        }
    }

    /// The instance variables, in the order in which they were first set.
    pub fn variables(&self) -> &[Variable]
        ensures { result.now ≡ self.now.variables }
    {
        match &self.held {
            Held::Varied(variables) => variables.as_slice(),
            Held::Rich(rich) => rich.get().variables.as_slice(),
            _ => &[],
        }
    }

    /// The value of an instance variable, where it was set.
    #[inline(always)]
    pub fn variable(&self, name: SymId) -> Option<Value>
        ensures { result ≡ variable_of self.now.variables name }
    {
        value_in(self.variables(), name)
    }

    /// What it is.
    #[inline(always)]
    pub fn sort(&self) -> Sort
        ensures { result ≡ sort_of self.now.kind }
    {
        self.held.sort()
    }

    /// What it holds.
    #[inline(always)]
    pub fn kind(&self) -> KindRef<'_>
        ensures { refs.seen result ≡ self.now.kind }
    {
        self.held.as_ref()
    }

    /// The elements of an Array; none of any other object.
    #[inline(always)]
    pub fn items(&self) -> &[Value]
        ensures { result.now ≡ elements_in self.now.kind }
    {
        self.held.items()
    }

    /// The bytes of a String; none of any other object.
    #[inline(always)]
    pub fn text(&self) -> &[u8]
        ensures { result.now ≡ bytes_in self.now.kind }
    {
        self.held.text()
    }

    /// Sets an instance variable: one that was set before keeps its place. Where memory runs out the object is as
    /// before.
    pub fn set_variable(
        &mut self,
        alloc: Global,
        name: SymId,
        value: Value,
    ) -> Result<(), AllocError>
        ensures ok { OnOk result (self.new ≡ record self.old
            { variables = with_variable self.old.variables name value }) }
        ensures err { OnErr result (self.new ≡ self.old) }
    {
        self.held.set_variable(alloc, name, value)
    }

    /// Gives the object a singleton class. Where memory runs out it is as before.
    pub fn set_singleton(&mut self, alloc: Global, singleton: ObjId) -> Result<(), AllocError>
        ensures ok { OnOk result (self.new ≡ record self.old { singleton = Some singleton }) }
        ensures err { OnErr result (self.new ≡ self.old) }
    {
        self.held.set_singleton(alloc, singleton)
    }
}

const _: () = prove!(size_of::<Object>() <= 48);
