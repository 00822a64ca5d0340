//! A visit of items.
ghost use Rattle.std.specs.Prelude.{◌≡◌};
ghost use Rattle.iter_items.specs.Asking as asking;

use crate::row::Task;
use crate::source::Source;
use crate::wish::Wish;
use rb_base::List;
use rb_value::{ObjId, SymId, Value};
use rows_items::heap::{Heap, Site};

/// A visit of items: what is done with them, those that are left, and the one for which the last call was.
#[derive(Drop)]
pub struct Visit {
    pub(crate) task: Task,
    pub(crate) receiver: Value,
    pub(crate) source: Source,
    pub(crate) block: Option<ObjId>,
    pub(crate) item: Value,
    /// What was gathered: items, or answers.
    pub(crate) kept: List<Value>,
    /// The other items of a partition, or the answers that order the items.
    pub(crate) others: List<Value>,
    /// The Hash that is made.
    pub(crate) made: Option<ObjId>,
    /// What was made of the items so far, an object that goes to each call, or the value that is counted.
    pub(crate) value: Option<Value>,
    /// The method by which a value is made of two or compared, and where the cache keeps it.
    pub(crate) name: Option<SymId>,
    pub(crate) site: Site,
    /// How many items a group has.
    pub(crate) size: u64,
    /// How many items came, or counted.
    pub(crate) tally: u64,
    /// Whether the block was called for the item, whose answer is then used in its place.
    pub(crate) called: bool,
    /// What it wants next, where it was asked already.
    pub(crate) wish: Option<Wish>,
}

impl Visit {
    /// A visit of items at its beginning.
    pub(crate) fn new(
        heap: &Heap,
        task: Task,
        receiver: Value,
        source: Source,
        block: Option<ObjId>,
    ) -> Visit
        ensures { result ≡ asking.begun task receiver source block }
    {
        Visit {
            task,
            receiver,
            source,
            block,
            item: Value::Nil,
            kept: List::new(heap.alloc()),
            others: List::new(heap.alloc()),
            made: None,
            value: None,
            name: None,
            site: Site { place: 0 },
            size: 0,
            tally: 0,
            called: false,
            wish: None,
        }
    }

    /// The value that was made so far; nil where there is none.
    pub(crate) fn value_or_nil(&self) -> Value
        ensures { result ≡ asking.value_or_nil self.now }
    {
        self.value.unwrap_or(Value::Nil)
    }

    /// How many items came, or counted.
    pub(crate) fn tally_value(&self) -> Value
        ensures { result ≡ asking.tally_value self.now }
    {
        Value::Int(i64::try_from(self.tally).unwrap_or(i64::MAX))
    }
}
