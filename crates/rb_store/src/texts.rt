//! The bytes of Strings, in place.
ghost use Rattle.std.specs.Prelude.{◌≡◌, ◌<◌, ◌++◌, length, OnOk, OnErr};
ghost use Rattle.rb_value.specs.declared.kind.Sort.TheVariants as sorts;
ghost use Rattle.def_core.specs.Store.{sort_at};
ghost use Rattle.def_core.specs.Parts as parts;
ghost use Rattle.def_core.specs.Sound.{Sound, IsGood};
ghost use Rattle.rb_store.specs.Keeps.{Keeps};

use crate::store::Store;
use rb_value::{ObjId, SmallBytes};
use std::alloc::AllocError;

impl Store {
    /// The bytes of a String; none of any other object. It takes no memory.
    pub fn text(&self, id: ObjId) -> &[u8]
        requires { IsGood self.now.store id }
        ensures { result.now ≡ parts.text_at self.now.store.objects id }
    {
        self.get(id).text()
    }

    /// Puts bytes at the end of a String. Where memory runs out all is as before.
    pub fn append_bytes(&mut self, id: ObjId, more: &[u8]) -> Result<(), AllocError>
        requires there { IsGood self.old.store id }
        requires string { sort_at self.old.store.objects id ≡ sorts.String }
        ensures ok { OnOk result (self.new ≡ record self.old {
          store = parts.with_objects self.old.store (parts.with_text self.old.store.objects id
              (parts.text_at self.old.store.objects id ++ more.now));
        }) }
        ensures err { OnErr result (self.new ≡ self.old) }
        ensures keeps { Sound self.old.store → Keeps self.old self.new }
    {
        let alloc = self.alloc;
        self.objects.get_mut(id.0 as usize).append_text(alloc, more)
    }

    /// Puts other bytes into a String, and hands the ones before back. It takes no memory.
    pub fn replace_text(&mut self, id: ObjId, bytes: SmallBytes) -> SmallBytes
        requires there { IsGood self.old.store id }
        requires string { sort_at self.old.store.objects id ≡ sorts.String }
        ensures before { result ≡ parts.text_at self.old.store.objects id }
        ensures after { self.new ≡ record self.old {
          store = parts.with_objects self.old.store (parts.with_text self.old.store.objects id bytes);
        } }
        ensures keeps { Sound self.old.store → Keeps self.old self.new }
    {
        self.objects.get_mut(id.0 as usize).replace_text(bytes)
    }
}
