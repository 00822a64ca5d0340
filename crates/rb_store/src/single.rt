//! Changes of single facts of objects, in place: an instance variable, the sending of a Proc, the end of a fiber, all that
//! an object holds.
ghost use Rattle.std.specs.Prelude.{◌≡◌, ◌<◌, false, length, OnOk, OnErr};
ghost use Rattle.rb_value.specs.Sort.{sort_of};
ghost use Rattle.rb_value.specs.declared.kind.Sort.TheVariants as sorts;
ghost use Rattle.def_core.specs.Store.{sort_at};
ghost use Rattle.def_core.specs.Parts as parts;
ghost use Rattle.def_core.specs.Sound.{plays, ClassOrModule, Sound, SoundKind, census, IsSymbol, IsValue, IsGood};
ghost use Rattle.rb_store.specs.Keeps.{Keeps};

use crate::store::Store;
use rb_value::{Kind, ObjId, SymId, Value};
use std::alloc::AllocError;

impl Store {
    /// The value of an instance variable, where it was set. It takes no memory.
    pub fn variable(&self, id: ObjId, name: SymId) -> Option<Value>
        requires { IsGood self.now.store id }
        ensures { result ≡ parts.variable_of self.now.store.objects id name }
    {
        self.get(id).variable(name)
    }

    /// Sets an instance variable: one that was set before keeps its place. Where memory runs out all is as before.
    pub fn set_variable(&mut self, id: ObjId, name: SymId, value: Value) -> Result<(), AllocError>
        requires { IsGood self.old.store id }
        ensures ok { OnOk result (self.new ≡ record self.old {
          store = parts.with_objects self.old.store (parts.with_variable self.old.store.objects id name value);
        }) }
        ensures err { OnErr result (self.new ≡ self.old) }
        ensures keeps { Sound self.old.store → IsSymbol (census self.old.store) name
            → IsValue (census self.old.store) value → Keeps self.old self.new }
    {
        let alloc = self.alloc;
        self.objects
            .get_mut(id.0 as usize)
            .set_variable(alloc, name, value)
    }

    /// Notes that a Proc was the block of a call that opened that activation, or none. Only the first call counts; a
    /// Proc of a core method has no such fact. It takes no memory.
    pub fn send_proc(&mut self, id: ObjId, activation: Option<u64>)
        requires { IsGood self.old.store id }
        ensures sent { self.new ≡ record self.old {
          store = parts.with_objects self.old.store (parts.with_sent self.old.store.objects id activation);
        } }
        ensures keeps { Sound self.old.store → Keeps self.old self.new }
    {
        self.objects.get_mut(id.0 as usize).send(activation);
    }

    /// Notes that a fiber has ended. It takes no memory.
    pub fn end_fiber(&mut self, id: ObjId)
        requires there { IsGood self.old.store id }
        requires fiber { sort_at self.old.store.objects id ≡ sorts.Fiber }
        ensures ended { self.new ≡ record self.old {
          store = parts.with_objects self.old.store (parts.with_ended self.old.store.objects id);
        } }
        ensures keeps { Sound self.old.store → Keeps self.old self.new }
    {
        self.objects.get_mut(id.0 as usize).end();
    }

    /// Puts other contents of the same sort into an object that is no class or module. It takes no memory.
    pub fn put_kind(&mut self, id: ObjId, kind: Kind)
        requires there { IsGood self.old.store id }
        requires sort { sort_of kind ≡ sort_at self.old.store.objects id }
        requires other { plays ClassOrModule (sort_of kind) ≡ false }
        ensures after { self.new ≡ record self.old {
          store = parts.with_objects self.old.store (parts.with_kind self.old.store.objects id kind);
        } }
        ensures keeps { Sound self.old.store → SoundKind (census self.old.store) id.0 kind → Keeps self.old self.new }
    {
        self.objects.get_mut(id.0 as usize).set_kind(kind);
    }
}
