//! Enumerators.
ghost use Rattle.std.specs.Prelude.{◌≡◌, IfOk, OnOk, OnErr};
ghost use Rattle.def_core.specs.Store.{object_at, next_number};
ghost use Rattle.def_core.specs.Sound.{Sound, SoundSource, census, Is, Array, Fiber, IsValue, OptionIs};
ghost use Rattle.rb_store.specs.Keeps.{Keeps};
ghost use Rattle.heap.specs.Changes as changes;
ghost use Rattle.heap.specs.Made as made;
ghost use Rattle.heap.specs.Reading as reading;
ghost use Rattle.heap.specs.Operands as operands;

use crate::heap::Heap;
use crate::making::add;
use crate::testing::{
    are_own, array, class_or_object, enumerator, fiber, object, own, proc, symbol,
};
use rb_base::List;
use rb_store::Store;
use rb_value::{
    Boxed, CoreClass, EnumeratorContents, EnumeratorSource, Items, Kind, KindRef, ObjId, Value,
};
use std::alloc::{AllocError, Global};

/// How far an Enumerator has come: the fiber that gives its items, where one has begun; the Array of the items that
/// came; how many of them were given; and the result of its source, where the end was reached.
#[derive(Clone, Copy, Debug)]
pub struct Cursor {
    pub fiber: Option<ObjId>,
    pub items: ObjId,
    pub position: u64,
    pub result: Option<Value>,
}

/// A new empty Array.
#[tactic(auto, using(crate::proofs::Fresh::array_class, crate::proofs::Fresh::next_is_array))]
fn add_array(st: &mut Store) -> Result<ObjId, AllocError>
    requires sound { Sound st.old.store }
    ensures array { IfOk result (Is (census st.new.store) Array) }
    ensures number { IfOk result (λ id. id ≡ next_number st.old.store) }
    ensures made { OnOk result (st.new ≡ made.with_items st.old) }
    ensures err { OnErr result (st.new ≡ st.old) }
    ensures keeps { Keeps st.old st.new }
{
    let of = st.class_object(CoreClass::Array);
    add(st, of, Kind::Array(Items::new()))
}

/// The source, where all that it names is of the store.
fn own_source(st: &Store, source: EnumeratorSource) -> Option<EnumeratorSource>
    ensures sound { OptionIs (SoundSource (census st.now.store)) result }
    ensures own { result ≡ operands.own_source st.now.store source }
{
    match source {
        EnumeratorSource::Call {
            receiver,
            name,
            args,
        } => {
            let name = symbol(st, name)?;
            if !are_own(st, args.as_slice()) {
                return None;
            }
            Some(EnumeratorSource::Call {
                receiver: own(st, receiver),
                name,
                args,
            })
        }
        EnumeratorSource::Block(id) => {
            let id = proc(st, id)?;
            Some(EnumeratorSource::Block(id))
        }
    }
}

/// The same source.
fn copy_source(alloc: Global, source: &EnumeratorSource) -> Result<EnumeratorSource, AllocError>
    ensures { IfOk result (λ copy. copy ≡ source.now) }
{
    match source {
        EnumeratorSource::Call {
            receiver,
            name,
            args,
        } => Ok(EnumeratorSource::Call {
            receiver: *receiver,
            name: *name,
            args: List::from_vec(Vec::from_slice(alloc, args.as_slice())?),
        }),
        EnumeratorSource::Block(id) => Ok(EnumeratorSource::Block(*id)),
    }
}

/// A new Enumerator of a class with a source, and the number of an empty Array where the source names what isn't of
/// the heap.
#[tactic(auto, using(rb_store::proofs::Keeping::keeps_itself))]
pub(crate) fn make_enumerator(
    st: &mut Store,
    of: ObjId,
    source: EnumeratorSource,
) -> Result<ObjId, AllocError>
    requires sound { Sound st.old.store }
    ensures number { IfOk result (λ id. id ≡ made.enumerator_number st.old source) }
    ensures made { OnOk result (st.new ≡ made.with_enumerator st.old of source) }
    ensures keeps { Keeps st.old st.new }
{
    let items = add_array(st)?;
    let of = class_or_object(st, of);
    let Some(source) = own_source(st, source) else {
        return Ok(items);
    };
    let Some(items) = array(st, items) else {
        return Ok(items);
    };
    let contents = EnumeratorContents {
        source,
        fiber: None,
        items,
        position: 0,
        result: None,
    };
    let kind = Kind::Enumerator(Boxed::new(st.alloc(), contents)?);
    add(st, of, kind)
}

/// Notes how far an Enumerator has come.
#[tactic(auto, using(rb_store::proofs::Keeping::keeps_itself, crate::proofs::Fresh::has_source))]
pub(crate) fn set_cursor(st: &mut Store, id: ObjId, cursor: Cursor) -> Result<(), AllocError>
    requires sound { Sound st.old.store }
    ensures ok { OnOk result (st.new ≡ changes.with_cursor st.old id cursor) }
    ensures err { OnErr result (st.new ≡ st.old) }
    ensures keeps { Keeps st.old st.new }
{
    let Some(source) = copied_source(st, id)? else {
        return Ok(());
    };
    let Some(source) = own_source(st, source) else {
        return Ok(());
    };
    let Some(items) = array(st, cursor.items) else {
        return Ok(());
    };
    let contents = EnumeratorContents {
        source,
        fiber: own_fiber(st, cursor.fiber),
        items,
        position: cursor.position,
        result: own_result(st, cursor.result),
    };
    let kind = Kind::Enumerator(Boxed::new(st.alloc(), contents)?);
    if let Some(id) = enumerator(st, id) {
        st.put_kind(id, kind);
    }
    Ok(())
}

/// The source of an Enumerator, copied.
#[tactic(auto, using(def_core::proofs::Good::is_good, def_core::proofs::Good::absent_where_none))]
fn copied_source(st: &Store, id: ObjId) -> Result<Option<EnumeratorSource>, AllocError>
    ensures { IfOk result (λ source. source ≡ reading.source_in (object_at st.now.store.objects id).kind) }
{
    match object(st, id) {
        Some(id) => match st.get(id).kind() {
            KindRef::Enumerator(contents) => Ok(Some(copy_source(
                st.alloc(),
                &contents.get().source,
            )?)),
            _ => Ok(None),
        },
        None => Ok(None),
    }
}

impl Heap {
    /// The source of an Enumerator.
    pub fn source_of(&self, id: ObjId) -> Result<Option<EnumeratorSource>, AllocError>
        ensures { IfOk result (λ source. source ≡ reading.source_in (object_at self.now.store.objects id).kind) }
    {
        copied_source(&self.st, id)
    }

    /// How far an Enumerator has come.
    pub fn cursor_of(&self, id: ObjId) -> Option<Cursor>
        ensures { result ≡ reading.cursor_in (object_at self.now.store.objects id).kind }
    {
        let contents = self.enumerator_of(id)?;
        Some(Cursor {
            fiber: contents.fiber,
            items: contents.items,
            position: contents.position,
            result: contents.result,
        })
    }

    /// A new Enumerator of a class with a source, and the number of an empty Array where the source names what isn't of
    /// the heap.
    pub fn make_enumerator(
        &mut self,
        of: ObjId,
        source: EnumeratorSource,
    ) -> Result<ObjId, AllocError>
        ensures number { IfOk result (λ id. id ≡ made.enumerator_number self.old source) }
        ensures made { OnOk result (self.new ≡ made.with_enumerator self.old of source) }
    {
        make_enumerator(&mut self.st, of, source)
    }

    /// Notes how far an Enumerator has come.
    pub fn set_cursor(&mut self, id: ObjId, cursor: Cursor) -> Result<(), AllocError>
        ensures ok { OnOk result (self.new ≡ changes.with_cursor self.old id cursor) }
        ensures err { OnErr result (self.new ≡ self.old) }
    {
        set_cursor(&mut self.st, id, cursor)
    }
}

/// The fiber, where there is one of that number.
fn own_fiber(st: &Store, id: Option<ObjId>) -> Option<ObjId>
    ensures there { OptionIs (Is (census st.now.store) Fiber) result }
    ensures own { result ≡ operands.own_fiber st.now.store id }
{
    match id {
        Some(id) => fiber(st, id),
        None => None,
    }
}

/// The value, where there is one.
fn own_result(st: &Store, value: Option<Value>) -> Option<Value>
    ensures there { OptionIs (IsValue (census st.now.store)) result }
    ensures own { result ≡ operands.own_result st.now.store value }
{
    match value {
        Some(value) => Some(own(st, value)),
        None => None,
    }
}
