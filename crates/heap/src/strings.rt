//! Changes of Strings.
ghost use Rattle.std.specs.Prelude.{◌≡◌, ◌≢◌, [], true, OnOk, OnErr};
ghost use Rattle.def_core.specs.Parts as parts;
ghost use Rattle.def_core.specs.Sound.{Sound, census};
ghost use Rattle.def_core.specs.Store.{sort_at};
ghost use Rattle.def_calls.specs.Values as values;
ghost use Rattle.rb_store.specs.Keeps.{Keeps};
ghost use Rattle.heap.specs.Changes as changes;
ghost use Rattle.heap.specs.Operands as operands;

use crate::heap::Heap;
use crate::testing::string;
use rb_store::Store;
use rb_value::{ObjId, SmallBytes, Value};
use std::alloc::AllocError;

/// Puts bytes after those of a String. Where memory runs out the String is as before.
#[tactic(auto, using(rb_store::proofs::Keeping::keeps_itself, def_core::proofs::Good::is_good))]
pub(crate) fn append_bytes(st: &mut Store, id: ObjId, more: &[u8]) -> Result<(), AllocError>
    requires sound { Sound st.old.store }
    ensures keeps { Keeps st.old st.new }
    ensures ok { OnOk result (st.new ≡ changes.with_more_bytes st.old id more.now) }
    ensures err { OnErr result (st.new ≡ st.old) }
{
    match string(st, id) {
        Some(id) => st.append_bytes(id, more),
        None => Ok(()),
    }
}

/// Puts other bytes in the place of all bytes of a String.
#[tactic(auto, using(rb_store::proofs::Keeping::keeps_itself, def_core::proofs::Good::is_good))]
pub(crate) fn replace_text(st: &mut Store, id: ObjId, bytes: SmallBytes)
    requires sound { Sound st.old.store }
    ensures keeps { Keeps st.old st.new }
    ensures replaced { st.new ≡ changes.with_bytes st.old id bytes }
{
    if let Some(id) = string(st, id) {
        let _before = st.replace_text(id, bytes);
    }
}

/// Takes all bytes out of a String, and hands them back. It takes no memory.
#[tactic(auto, using(rb_store::proofs::Keeping::keeps_itself, def_core::proofs::Good::is_good))]
pub(crate) fn take_text(st: &mut Store, id: ObjId) -> SmallBytes
    requires sound { Sound st.old.store }
    ensures keeps { Keeps st.old st.new }
    ensures before { operands.is_string (sort_at st.old.store.objects id) ≡ true →
        result ≡ parts.text_at st.old.store.objects id }
    ensures taken { st.new ≡ changes.with_bytes st.old id [] }
{
    match string(st, id) {
        Some(id) => st.replace_text(id, SmallBytes::new()),
        None => SmallBytes::new(),
    }
}

impl Heap {
    /// Takes all bytes out of a String, and hands them back. It takes no memory.
    fn take_text(&mut self, id: ObjId) -> SmallBytes
        ensures before { operands.is_string (sort_at self.old.store.objects id) ≡ true →
            result ≡ parts.text_at self.old.store.objects id }
        ensures taken { self.new ≡ changes.with_bytes self.old id [] }
    {
        take_text(&mut self.st, id)
    }

    /// Puts a text in the place of all bytes of a String.
    fn put_text(&mut self, id: ObjId, text: SmallBytes)
        ensures replaced { self.new ≡ changes.with_bytes self.old id text }
    {
        replace_text(&mut self.st, id, text);
    }

    /// Puts the bytes of a String after those of another, which lends them for that. Where memory runs out both are as
    /// before.
    #[tactic(auto, using(crate::proofs::Lent::given_back, crate::proofs::Lent::appended_and_given_back))]
    fn append_lent(&mut self, id: ObjId, from: ObjId) -> Result<(), AllocError>
        requires apart { from ≢ id }
        requires string { operands.is_string (sort_at self.old.store.objects from) ≡ true }
        ensures ok { OnOk result (self.new ≡ changes.with_more_bytes self.old id (parts.text_at self.old.store.objects from)) }
        ensures err { OnErr result (self.new ≡ self.old) }
    {
        let lent = self.take_text(from);
        let answer = self.append_bytes(id, lent.as_slice());
        self.put_text(from, lent);
        answer
    }

    /// Puts what a value is in a text after a String. Where memory runs out both are as before.
    #[tactic(auto, using(crate::proofs::Lent::text_of_a_string, crate::proofs::Lent::a_string_is))]
    pub fn append_text(&mut self, id: ObjId, value: Value) -> Result<(), AllocError>
        ensures ok { OnOk result (self.new ≡ changes.with_more_bytes self.old id
            (values.text_of_value self.old.store (operands.own self.old.store value))) }
        ensures err { OnErr result (self.new ≡ self.old) }
    {
        match self.a_string(value) {
            Some(from) if from != id => self.append_lent(id, from),
            _ => {
                let bytes = self.text_of_value(value)?;
                self.append_bytes(id, &bytes)
            }
        }
    }

    /// Puts bytes after those of a String. Where memory runs out the String is as before.
    pub fn append_bytes(&mut self, id: ObjId, more: &[u8]) -> Result<(), AllocError>
        ensures ok { OnOk result (self.new ≡ changes.with_more_bytes self.old id more.now) }
        ensures err { OnErr result (self.new ≡ self.old) }
    {
        append_bytes(&mut self.st, id, more)
    }

    /// Puts other bytes in the place of all bytes of a String.
    pub fn replace_text(&mut self, id: ObjId, bytes: Vec<u8>)
        ensures replaced { self.new ≡ changes.with_bytes self.old id bytes.items }
    {
        self.put_text(id, SmallBytes::from_vec(bytes));
    }
}
