//! New objects.
ghost use Rattle.std.specs.Prelude.{◌≡◌, length, IfOk, OnOk, OnErr};
ghost use Rattle.rb_value.specs.declared.value.Value.TheVariants.{Obj};
ghost use Rattle.rb_value.specs.declared.core_class.CoreClass.TheVariants as classes;
ghost use Rattle.rb_value.specs.declared.kind.Kind.TheVariants as kinds;
ghost use Rattle.def_core.specs.Store.{core, next_number};
ghost use Rattle.def_core.specs.Parts as parts;
ghost use Rattle.def_core.specs.Sound.{Sound, SoundKind, census, Is, Class};
ghost use Rattle.def_calls.specs.Values as values;
ghost use Rattle.rb_store.specs.Keeps.{Keeps};
ghost use Rattle.run_values.specs.Answers.{Answers};
ghost use Rattle.heap.specs.Made as made;

use crate::heap::Heap;
use crate::testing::{are_own, class_or_object, own, own_proc, proc};
use pair_table::PairTable;
use rb_store::Store;
use rb_value::{
    Boxed, CoreClass, HashContents, Items, Kind, ObjId, Object, ProcContents, RangeContents,
    SmallBytes, Value,
};
use run_values::Given;
use std::alloc::{AllocError, Global};

/// What a new object of a class holds.
#[derive(Clone, Copy, Debug, PartialEq, Eq)]
pub enum Blank {
    Plain,
    String,
    Array,
    Hash,
    Exception,
}

/// A Hash without pairs.
fn no_pairs(alloc: Global) -> HashContents
    ensures { result ≡ parts.no_pairs }
{
    HashContents {
        pairs: PairTable::new(alloc),
        default: Value::Nil,
        block: None,
    }
}

/// A new object of a class, with what it holds. Where memory runs out the store is as before.
#[tactic(auto, using(crate::proofs::Fresh::fresh_is, crate::proofs::Fresh::held_is))]
pub(crate) fn add(st: &mut Store, of: ObjId, kind: Kind) -> Result<ObjId, AllocError>
    requires sound { Sound st.old.store }
    requires class { Is (census st.old.store) Class of }
    requires kind { SoundKind (census st.old.store) (length st.old.store.objects) kind }
    ensures number { IfOk result (λ id. id ≡ next_number st.old.store) }
    ensures made { OnOk result (st.new ≡ made.with_new st.old of kind) }
    ensures err { OnErr result (st.new ≡ st.old) }
    ensures keeps { Keeps st.old st.new }
{
    st.add(Object::new(of, kind))
}

/// What a new object holds that has nothing in it.
#[tactic(auto, using(crate::proofs::Fresh::no_pairs_is))]
fn blank_kind(st: &Store, blank: Blank) -> Result<Kind, AllocError>
    ensures sound { IfOk result (SoundKind (census st.now.store) (length st.now.store.objects)) }
    ensures kind { IfOk result (λ kind. kind ≡ made.blank_kind blank) }
{
    let alloc = st.alloc();
    match blank {
        Blank::Plain => Ok(Kind::Plain),
        Blank::String => Ok(Kind::String(SmallBytes::new())),
        Blank::Array => Ok(Kind::Array(Items::new())),
        Blank::Hash => Ok(Kind::Hash(Boxed::new(alloc, no_pairs(alloc))?)),
        Blank::Exception => Ok(Kind::Exception {
            message: Value::Nil,
            detail: Value::Nil,
        }),
    }
}

/// A new Array of these elements; nil where one of them is of no heap. Where memory runs out all is as before.
#[tactic(auto, using(rb_store::proofs::Keeping::keeps_itself, crate::proofs::Fresh::array_class))]
pub(crate) fn make_array(st: &mut Store, elements: Items) -> Result<Value, AllocError>
    requires sound { Sound st.old.store }
    ensures value { IfOk result (λ v. v ≡ made.array_given st.old.store elements) }
    ensures made { OnOk result (st.new ≡ made.with_array st.old elements) }
    ensures err { OnErr result (st.new ≡ st.old) }
    ensures keeps { Keeps st.old st.new }
{
    if !are_own(st, elements.as_slice()) {
        return Ok(Value::Nil);
    }
    let class = st.class_object(CoreClass::Array);
    let id = add(st, class, Kind::Array(elements))?;
    Ok(Value::Obj(id))
}

/// A new String of these bytes.
#[tactic(auto, using(crate::proofs::Fresh::string_class))]
pub(crate) fn make_string(st: &mut Store, bytes: SmallBytes) -> Result<Value, AllocError>
    requires sound { Sound st.old.store }
    ensures value { IfOk result (λ v. v ≡ Obj (next_number st.old.store)) }
    ensures made { OnOk result (st.new ≡ made.with_new st.old (core classes.String) (kinds.String bytes)) }
    ensures err { OnErr result (st.new ≡ st.old) }
    ensures keeps { Keeps st.old st.new }
{
    let class = st.class_object(CoreClass::String);
    let id = add(st, class, Kind::String(bytes))?;
    Ok(Value::Obj(id))
}

/// A new Range, or the failure of ends that are none of a Range.
#[tactic(auto, using(rb_store::proofs::Keeping::keeps_itself))]
pub(crate) fn make_range(
    st: &mut Store,
    first: Value,
    last: Value,
    exclusive: bool,
) -> Result<Given, AllocError>
    requires sound { Sound st.old.store }
    ensures keeps { Keeps st.old st.new }
    ensures answers { Answers st.old st.new result (λ w. values.make_range w first last exclusive) }
{
    run_values::make_range(st, first, last, exclusive)
}

/// A new Range of a class, and of Object where there is no such class.
#[tactic(auto, using(rb_store::proofs::Keeping::keeps_itself))]
pub(crate) fn make_range_of(
    st: &mut Store,
    of: ObjId,
    contents: RangeContents,
) -> Result<ObjId, AllocError>
    requires sound { Sound st.old.store }
    ensures number { IfOk result (λ id. id ≡ next_number st.old.store) }
    ensures made { OnOk result (st.new ≡ made.with_range st.old of contents) }
    ensures err { OnErr result (st.new ≡ st.old) }
    ensures keeps { Keeps st.old st.new }
{
    let of = class_or_object(st, of);
    add(st, of, Kind::Range(contents))
}

/// A new object of a class with nothing in it; of Object where there is no such class.
#[tactic(auto, using(rb_store::proofs::Keeping::keeps_itself))]
pub(crate) fn make_blank(st: &mut Store, of: ObjId, blank: Blank) -> Result<Value, AllocError>
    requires sound { Sound st.old.store }
    ensures value { IfOk result (λ v. v ≡ Obj (next_number st.old.store)) }
    ensures made { OnOk result (st.new ≡ made.with_blank st.old of blank) }
    ensures err { OnErr result (st.new ≡ st.old) }
    ensures keeps { Keeps st.old st.new }
{
    let of = class_or_object(st, of);
    let kind = blank_kind(st, blank)?;
    let id = add(st, of, kind)?;
    Ok(Value::Obj(id))
}

/// A new exception of a class.
#[tactic(auto, using(rb_store::proofs::Keeping::keeps_itself))]
pub(crate) fn make_exception(
    st: &mut Store,
    of: ObjId,
    message: Value,
    detail: Value,
) -> Result<ObjId, AllocError>
    requires sound { Sound st.old.store }
    ensures number { IfOk result (λ id. id ≡ next_number st.old.store) }
    ensures made { OnOk result (st.new ≡ made.with_exception st.old of message detail) }
    ensures err { OnErr result (st.new ≡ st.old) }
    ensures keeps { Keeps st.old st.new }
{
    let of = class_or_object(st, of);
    let message = own(st, message);
    let detail = own(st, detail);
    add(st, of, Kind::Exception { message, detail })
}

/// A new Proc with a body of code; what it names and isn't of the heap is left out.
#[tactic(auto, using(rb_store::proofs::Keeping::keeps_itself, crate::proofs::Fresh::proc_class))]
pub(crate) fn make_proc(st: &mut Store, contents: ProcContents) -> Result<ObjId, AllocError>
    requires sound { Sound st.old.store }
    ensures number { IfOk result (λ id. id ≡ next_number st.old.store) }
    ensures made { OnOk result (st.new ≡ made.with_proc st.old contents) }
    ensures err { OnErr result (st.new ≡ st.old) }
    ensures keeps { Keeps st.old st.new }
{
    let of = st.class_object(CoreClass::Proc);
    let contents = own_proc(st, contents);
    let kind = Kind::Proc(Boxed::new(st.alloc(), contents)?);
    add(st, of, kind)
}

/// A new Proc whose call enters a row with the kept value as the receiver.
#[tactic(auto, using(rb_store::proofs::Keeping::keeps_itself, crate::proofs::Fresh::proc_class))]
pub(crate) fn make_core_proc(st: &mut Store, row: u16, kept: Value) -> Result<ObjId, AllocError>
    requires sound { Sound st.old.store }
    ensures number { IfOk result (λ id. id ≡ next_number st.old.store) }
    ensures made { OnOk result (st.new ≡ made.with_core_proc st.old row kept) }
    ensures err { OnErr result (st.new ≡ st.old) }
    ensures keeps { Keeps st.old st.new }
{
    let of = st.class_object(CoreClass::Proc);
    let kept = own(st, kept);
    add(st, of, Kind::CoreProc { row, kept })
}

/// A new fiber of a class that runs a Proc; none where that is no Proc.
#[tactic(auto, using(rb_store::proofs::Keeping::keeps_itself))]
pub(crate) fn make_fiber(
    st: &mut Store,
    of: ObjId,
    block: ObjId,
) -> Result<Option<ObjId>, AllocError>
    requires sound { Sound st.old.store }
    ensures number { IfOk result (λ found. found ≡ made.number_for st.old.store block) }
    ensures made { OnOk result (st.new ≡ made.with_fiber st.old of block) }
    ensures err { OnErr result (st.new ≡ st.old) }
    ensures keeps { Keeps st.old st.new }
{
    let of = class_or_object(st, of);
    match proc(st, block) {
        Some(block) => {
            let kind = Kind::Fiber {
                block,
                ended: false,
            };
            Ok(Some(add(st, of, kind)?))
        }
        None => Ok(None),
    }
}

/// A new Yielder that gives its items to a Proc; none where that is no Proc.
#[tactic(auto, using(rb_store::proofs::Keeping::keeps_itself, crate::proofs::Fresh::yielder_class))]
pub(crate) fn make_yielder(st: &mut Store, block: ObjId) -> Result<Option<ObjId>, AllocError>
    requires sound { Sound st.old.store }
    ensures number { IfOk result (λ found. found ≡ made.number_for st.old.store block) }
    ensures made { OnOk result (st.new ≡ made.with_yielder st.old block) }
    ensures err { OnErr result (st.new ≡ st.old) }
    ensures keeps { Keeps st.old st.new }
{
    let of = st.class_object(CoreClass::Yielder);
    match proc(st, block) {
        Some(block) => Ok(Some(add(st, of, Kind::Yielder { block })?)),
        None => Ok(None),
    }
}

impl Heap {
    /// A new Array of these elements; nil where one of them is of no heap. Where memory runs out all is as before.
    pub fn make_array(&mut self, elements: Vec<Value>) -> Result<Value, AllocError>
        ensures value { IfOk result (λ v. v ≡ made.array_given self.old.store elements.items) }
        ensures made { OnOk result (self.new ≡ made.with_array self.old elements.items) }
        ensures err { OnErr result (self.new ≡ self.old) }
    {
        make_array(&mut self.st, Items::from_vec(elements))
    }

    /// A new Array of a copy of these elements; nil where one of them is of no heap. Where memory runs out all is as
    /// before.
    pub fn make_list(&mut self, elements: &[Value]) -> Result<Value, AllocError>
        ensures value { IfOk result (λ v. v ≡ made.array_given self.old.store elements.now) }
        ensures made { OnOk result (self.new ≡ made.with_array self.old elements.now) }
        ensures err { OnErr result (self.new ≡ self.old) }
    {
        let elements = Items::from_slice(self.alloc(), elements)?;
        make_array(&mut self.st, elements)
    }

    /// A new String of these bytes.
    pub fn make_string(&mut self, bytes: Vec<u8>) -> Result<Value, AllocError>
        ensures value { IfOk result (λ v. v ≡ Obj (next_number self.old.store)) }
        ensures made { OnOk result (self.new ≡ made.with_new self.old (core classes.String) (kinds.String bytes.items)) }
        ensures err { OnErr result (self.new ≡ self.old) }
    {
        make_string(&mut self.st, SmallBytes::from_vec(bytes))
    }

    /// A new String of these bytes.
    pub fn make_text(&mut self, bytes: &[u8]) -> Result<Value, AllocError>
        ensures value { IfOk result (λ v. v ≡ Obj (next_number self.old.store)) }
        ensures made { OnOk result (self.new ≡ made.with_new self.old (core classes.String) (kinds.String bytes.now)) }
        ensures err { OnErr result (self.new ≡ self.old) }
    {
        let bytes = SmallBytes::from_slice(self.alloc(), bytes)?;
        make_string(&mut self.st, bytes)
    }

    /// A new Range, or the failure of ends that are none of a Range.
    pub fn make_range(
        &mut self,
        first: Value,
        last: Value,
        exclusive: bool,
    ) -> Result<Given, AllocError>
        ensures answers { Answers self.old self.new result (λ w. values.make_range w first last exclusive) }
    {
        make_range(&mut self.st, first, last, exclusive)
    }

    /// A new Range of a class, and of Object where there is no such class.
    pub fn make_range_of(&mut self, of: ObjId, contents: RangeContents) -> Result<ObjId, AllocError>
        ensures number { IfOk result (λ id. id ≡ next_number self.old.store) }
        ensures made { OnOk result (self.new ≡ made.with_range self.old of contents) }
        ensures err { OnErr result (self.new ≡ self.old) }
    {
        make_range_of(&mut self.st, of, contents)
    }

    /// A new object of a class with nothing in it; of Object where there is no such class.
    pub fn make_blank(&mut self, of: ObjId, blank: Blank) -> Result<Value, AllocError>
        ensures value { IfOk result (λ v. v ≡ Obj (next_number self.old.store)) }
        ensures made { OnOk result (self.new ≡ made.with_blank self.old of blank) }
        ensures err { OnErr result (self.new ≡ self.old) }
    {
        make_blank(&mut self.st, of, blank)
    }

    /// A new Hash without pairs.
    #[tactic(auto, using(crate::proofs::Fresh::hash_own))]
    pub fn make_hash(&mut self) -> Result<Value, AllocError>
        ensures value { IfOk result (λ v. v ≡ Obj (next_number self.old.store)) }
        ensures made { OnOk result (self.new ≡ made.with_new self.old (core classes.Hash) (kinds.Hash parts.no_pairs)) }
        ensures err { OnErr result (self.new ≡ self.old) }
    {
        let class = self.st.class_object(CoreClass::Hash);
        self.make_blank(class, Blank::Hash)
    }

    /// A new exception of a class.
    pub fn make_exception(
        &mut self,
        of: ObjId,
        message: Value,
        detail: Value,
    ) -> Result<ObjId, AllocError>
        ensures number { IfOk result (λ id. id ≡ next_number self.old.store) }
        ensures made { OnOk result (self.new ≡ made.with_exception self.old of message detail) }
        ensures err { OnErr result (self.new ≡ self.old) }
    {
        make_exception(&mut self.st, of, message, detail)
    }

    /// A new Proc with a body of code; what it names and isn't of the heap is left out.
    pub fn make_proc(&mut self, contents: ProcContents) -> Result<ObjId, AllocError>
        ensures number { IfOk result (λ id. id ≡ next_number self.old.store) }
        ensures made { OnOk result (self.new ≡ made.with_proc self.old contents) }
        ensures err { OnErr result (self.new ≡ self.old) }
    {
        make_proc(&mut self.st, contents)
    }

    /// A new Proc whose call enters a row with the kept value as the receiver.
    pub fn make_core_proc(&mut self, row: u16, kept: Value) -> Result<ObjId, AllocError>
        ensures number { IfOk result (λ id. id ≡ next_number self.old.store) }
        ensures made { OnOk result (self.new ≡ made.with_core_proc self.old row kept) }
        ensures err { OnErr result (self.new ≡ self.old) }
    {
        make_core_proc(&mut self.st, row, kept)
    }

    /// A new fiber of a class that runs a Proc; none where that is no Proc.
    pub fn make_fiber(&mut self, of: ObjId, block: ObjId) -> Result<Option<ObjId>, AllocError>
        ensures number { IfOk result (λ found. found ≡ made.number_for self.old.store block) }
        ensures made { OnOk result (self.new ≡ made.with_fiber self.old of block) }
        ensures err { OnErr result (self.new ≡ self.old) }
    {
        make_fiber(&mut self.st, of, block)
    }

    /// A new Yielder that gives its items to a Proc; none where that is no Proc.
    pub fn make_yielder(&mut self, block: ObjId) -> Result<Option<ObjId>, AllocError>
        ensures number { IfOk result (λ found. found ≡ made.number_for self.old.store block) }
        ensures made { OnOk result (self.new ≡ made.with_yielder self.old block) }
        ensures err { OnErr result (self.new ≡ self.old) }
    {
        make_yielder(&mut self.st, block)
    }
}
