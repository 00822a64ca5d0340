//! What objects hold.
ghost use Rattle.std.specs.Prelude.{◌≡◌, ◌≢◌, [], length, true, false, None, slice_get, option_map, IfSome, MatchOption, if◌then◌else◌};
ghost use Rattle.rb_value.specs.declared.value.Value.TheVariants.{Obj};
ghost use Rattle.rb_value.specs.KindRef as refs;
ghost use Rattle.def_core.specs.Store.{absent, object_at, name_at, sort_at};
ghost use Rattle.def_core.specs.Sound.{has_object};
ghost use Rattle.def_core.specs.Parts as parts;
ghost use Rattle.def_core.specs.Bind.{elements_in};
ghost use Rattle.def_calls.specs.Views as views;
ghost use Rattle.heap.specs.Operands as operands;
ghost use Rattle.heap.specs.Reading as reading;

use crate::hashes::absent_of;
use crate::heap::Heap;
use crate::testing::{object, own, symbol};
use rb_value::{
    EnumeratorContents, HashItem, Key, KindRef, ObjId, ProcContents, RangeContents, Sort, SymId,
    Value, Variable,
};

impl Heap {
    /// What an object holds.
    #[inline(always)]
    #[tactic(auto, using(def_core::proofs::Good::is_good, def_core::proofs::Good::absent_where_none))]
    pub fn kind(&self, id: ObjId) -> Option<KindRef<'_>>
        ensures found { MatchOption result (has_object self.now.store.objects id ≡ false)
            (λ kind. refs.seen kind ≡ (object_at self.now.store.objects id).kind) }
        ensures there { IfSome result (λ kind. has_object self.now.store.objects id ≡ true) }
        ensures none { result ≡ None → object_at self.now.store.objects id ≡ absent }
    {
        let id = object(&self.st, id)?;
        Some(self.st.get(id).kind())
    }

    /// What sort an object is of.
    #[inline(always)]
    #[tactic(auto, using(def_core::proofs::Good::is_good))]
    fn object_sort(&self, id: ObjId) -> Option<Sort>
        ensures found { MatchOption result (has_object self.now.store.objects id ≡ false)
            (λ sort. sort_at self.now.store.objects id ≡ sort) }
        ensures there { IfSome result (λ sort. has_object self.now.store.objects id ≡ true) }
    {
        let id = object(&self.st, id)?;
        Some(self.st.get(id).sort())
    }

    /// What sort of object a value is.
    #[inline(always)]
    pub fn sort(&self, value: Value) -> Option<Sort>
        ensures { result ≡ reading.sort_of_value self.now.store value }
    {
        match value {
            Value::Obj(id) => self.object_sort(id),
            _ => None,
        }
    }

    /// The object that a value is, where it is of that sort.
    #[inline(always)]
    fn of_sort(&self, value: Value, sort: Sort) -> Option<ObjId>
        ensures found { IfSome result (λ id. (value ≡ Obj id) × (sort_at self.now.store.objects id ≡ sort)) }
        ensures none { result ≡ None → (id : ObjId) → value ≡ Obj id → has_object self.now.store.objects id ≡ true →
            sort_at self.now.store.objects id ≢ sort }
    {
        match value {
            Value::Obj(id) => if self.object_sort(id)? == sort {
                Some(id)
            } else {
                None
            },
            _ => None,
        }
    }

    /// The Array that a value is.
    #[inline(always)]
    pub fn an_array(&self, value: Value) -> Option<ObjId>
        ensures { result ≡ views.an_array self.now.store.objects value }
    {
        self.of_sort(value, Sort::Array)
    }

    /// The String that a value is.
    #[inline(always)]
    pub fn a_string(&self, value: Value) -> Option<ObjId>
        ensures { result ≡ views.a_string self.now.store.objects value }
    {
        self.of_sort(value, Sort::String)
    }

    /// The Hash that a value is.
    #[inline(always)]
    pub fn a_hash(&self, value: Value) -> Option<ObjId>
        ensures { result ≡ views.a_hash self.now.store.objects value }
    {
        self.of_sort(value, Sort::Hash)
    }

    /// The Proc that a value is.
    #[inline(always)]
    pub fn a_proc(&self, value: Value) -> Option<ObjId>
        ensures { result ≡ views.a_proc self.now.store.objects value }
    {
        self.of_sort(value, Sort::Proc)
    }

    /// The fiber that a value is.
    pub fn a_fiber(&self, value: Value) -> Option<ObjId>
        ensures { result ≡ views.a_fiber self.now.store.objects value }
    {
        self.of_sort(value, Sort::Fiber)
    }

    /// The exception that a value is.
    pub fn an_exception(&self, value: Value) -> Option<ObjId>
        ensures { result ≡ views.an_exception self.now.store.objects value }
    {
        self.of_sort(value, Sort::Exception)
    }

    /// The elements of an Array; none of another object.
    #[inline(always)]
    #[tactic(auto, using(def_core::proofs::Good::is_good, def_core::proofs::Good::absent_where_none))]
    pub fn elements(&self, id: ObjId) -> &[Value]
        ensures { result.now ≡ parts.elements_at self.now.store.objects id }
    {
        match object(&self.st, id) {
            Some(id) => self.st.elements(id),
            None => &[],
        }
    }

    /// The elements of an Array.
    #[tactic(auto, using(crate::proofs::Sorted::elements_there, crate::proofs::Sorted::elements_none))]
    pub fn elements_of(&self, value: Value) -> Option<&[Value]>
        ensures { option_map (λ e. e.now) result ≡ elements_in self.now.store.objects value }
    {
        let id = self.an_array(value)?;
        Some(self.elements(id))
    }

    /// The bytes of a String; none of another object.
    #[tactic(auto, using(def_core::proofs::Good::is_good, def_core::proofs::Good::absent_where_none))]
    pub fn text(&self, id: ObjId) -> &[u8]
        ensures { result.now ≡ parts.text_at self.now.store.objects id }
    {
        match object(&self.st, id) {
            Some(id) => self.st.text(id),
            None => &[],
        }
    }

    /// The bytes of a String.
    #[tactic(auto, using(crate::proofs::Sorted::text_there, crate::proofs::Sorted::text_none))]
    pub fn text_of(&self, value: Value) -> Option<&[u8]>
        ensures { option_map (λ t. t.now) result ≡ views.string_of (views.kind_in self.now.store.objects value) }
    {
        let id = self.a_string(value)?;
        Some(self.text(id))
    }

    /// How many symbols there are.
    pub fn symbol_count(&self) -> u64
        ensures { result ≡ length self.now.store.symbols }
    {
        self.st.symbol_count()
    }

    /// The name of a symbol.
    #[tactic(auto)]
    pub fn symbol_name(&self, name: SymId) -> &[u8]
        ensures { result.now ≡ (if operands.has_symbol self.now.store name then name_at self.now.store name else []) }
    {
        match symbol(&self.st, name) {
            Some(name) => self.st.symbol_name(name),
            None => b"",
        }
    }

    /// The ends of a Range.
    pub fn range_of(&self, value: Value) -> Option<RangeContents>
        ensures { result ≡ reading.range_in (views.kind_in self.now.store.objects value) }
    {
        let Value::Obj(id) = value else {
            return None;
        };
        match self.kind(id)? {
            KindRef::Range(contents) => Some(contents),
            _ => None,
        }
    }

    /// What a Proc with a body holds.
    #[inline(always)]
    #[tactic(auto, using(def_core::proofs::Good::is_good, def_core::proofs::Good::absent_where_none))]
    pub fn proc_of(&self, id: ObjId) -> Option<&ProcContents>
        ensures { option_map (λ p. p.now) result ≡ reading.proc_in (object_at self.now.store.objects id).kind }
    {
        let id = object(&self.st, id)?;
        self.st.get(id).proc()
    }

    /// The row that a call of a Proc without a body enters, and the value that it keeps.
    pub fn core_proc_of(&self, id: ObjId) -> Option<(u16, Value)>
        ensures { result ≡ reading.core_proc_in self.now.store (object_at self.now.store.objects id).kind }
    {
        match self.kind(id)? {
            KindRef::CoreProc { row, kept } => Some((row, own(&self.st, kept))),
            _ => None,
        }
    }

    /// The Proc that a fiber runs, and whether it has ended.
    pub fn fiber_of(&self, id: ObjId) -> Option<(ObjId, bool)>
        ensures { result ≡ views.fiber_of (object_at self.now.store.objects id).kind }
    {
        match self.kind(id)? {
            KindRef::Fiber { block, ended } => Some((block, ended)),
            _ => None,
        }
    }

    /// The message of an exception; nil of another object.
    pub fn message_of(&self, id: ObjId) -> Value
        ensures { result ≡ views.message_of (object_at self.now.store.objects id).kind }
    {
        match self.kind(id) {
            Some(KindRef::Exception { message, detail: _ }) => message,
            _ => Value::Nil,
        }
    }

    /// The name, status or result that an exception has; nil of another object.
    pub fn detail_of(&self, id: ObjId) -> Value
        ensures { result ≡ views.detail_of (object_at self.now.store.objects id).kind }
    {
        match self.kind(id) {
            Some(KindRef::Exception { message: _, detail }) => detail,
            _ => Value::Nil,
        }
    }

    /// What an Enumerator holds.
    pub fn enumerator_of(&self, id: ObjId) -> Option<&EnumeratorContents>
        ensures { option_map (λ e. e.now) result ≡ reading.contents_in (object_at self.now.store.objects id).kind }
    {
        match self.kind(id)? {
            KindRef::Enumerator(contents) => Some(contents.get()),
            _ => None,
        }
    }

    /// The Proc that a Yielder gives its items to.
    pub fn yielder_of(&self, id: ObjId) -> Option<ObjId>
        ensures { result ≡ reading.yielder_in (object_at self.now.store.objects id).kind }
    {
        match self.kind(id)? {
            KindRef::Yielder { block } => Some(block),
            _ => None,
        }
    }

    /// How many pairs a Hash has; none of another object.
    #[tactic(auto, using(def_core::proofs::Good::is_good, def_core::proofs::Good::absent_where_none))]
    pub fn pair_count(&self, id: ObjId) -> usize
        ensures { result ≡ length (parts.hash_at self.now.store.objects id).pairs }
    {
        match object(&self.st, id) {
            Some(id) => self.st.pair_count(id),
            None => 0,
        }
    }

    /// The pair at a place of a Hash.
    #[tactic(auto, using(def_core::proofs::Good::is_good, def_core::proofs::Good::absent_where_none))]
    pub fn pair_at(&self, id: ObjId, place: usize) -> Option<HashItem>
        ensures { result ≡ option_map (λ p. p.1) (slice_get (parts.hash_at self.now.store.objects id).pairs place) }
    {
        let id = object(&self.st, id)?;
        self.st.pair_at(id, place)
    }

    /// What stands under a key of a Hash.
    #[tactic(auto, using(def_core::proofs::Good::is_good, def_core::proofs::Good::absent_where_none))]
    pub fn pair(&self, id: ObjId, key: &Key) -> Option<HashItem>
        ensures { result ≡ parts.pair_of self.now.store.objects id key.now }
    {
        let id = object(&self.st, id)?;
        self.st.pair(id, key)
    }

    /// What an absent key of a Hash gives, and the Proc that is called for it.
    pub fn absent_of(&self, id: ObjId) -> (Value, Option<ObjId>)
        ensures default { result.0 ≡ (parts.hash_at self.now.store.objects id).default }
        ensures block { result.1 ≡ (parts.hash_at self.now.store.objects id).block }
    {
        absent_of(&self.st, id)
    }

    /// The instance variables of an object, in the order in which they were first set.
    #[tactic(auto, using(def_core::proofs::Good::is_good, def_core::proofs::Good::absent_where_none))]
    pub fn variables(&self, id: ObjId) -> &[Variable]
        ensures { result.now ≡ (object_at self.now.store.objects id).variables }
    {
        match object(&self.st, id) {
            Some(id) => self.st.get(id).variables(),
            None => &[],
        }
    }

    /// The value of an instance variable of an object, where it was set.
    #[tactic(auto, using(def_core::proofs::Good::is_good, def_core::proofs::Good::absent_where_none))]
    pub fn variable(&self, id: ObjId, name: SymId) -> Option<Value>
        ensures { result ≡ parts.variable_of self.now.store.objects id name }
    {
        let id = object(&self.st, id)?;
        self.st.variable(id, name)
    }
}
