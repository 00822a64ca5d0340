//! Where an iteration stands.
ghost use Rattle.std.specs.Prelude.{◌≡◌};
ghost use Rattle.core_iter.specs.Writing as writing;

use crate::counting::Count;
use crate::filling::Filling;
use crate::pairs::PairWalk;
use crate::strings::{ByteWalk, TextWalk};
use crate::visiting::Visit;
use rb_base::List;
use rb_value::{ObjId, Value};
use run_rows::iter_items::ItemsState;

/// Values of which those from a place on are left.
#[derive(Drop)]
pub struct Rest {
    pub values: List<Value>,
    pub place: usize,
}

/// Where an iteration stands: it gives what its call gives, or a value that it has; values are left to write, or one of
/// them waits for its text; it raises what its call gives; it calls a Proc again and again, with numbers, with parts of
/// a String, with elements or places of an Array, where the answer may replace or delete the element, or with pairs of
/// a Hash; it fills a new Array; or it is one over items.
#[derive(Drop)]
pub enum Iteration {
    Handing,
    Giving(Value),
    Putting(Rest),
    PuttingText(Rest),
    Printing(Rest),
    PrintingText(Rest),
    Inspecting(Rest),
    InspectingText(Rest),
    Raising,
    /// An exception waits for its message, to give it.
    Messaging(Value),
    /// An exception waits for the message by which it is shown, or for the text of that.
    Telling(Value),
    TellingText(Value),
    /// An exception that nothing rescued is asked for its message, or waits for it, and is raised again then.
    Reporting(ObjId),
    Reported(ObjId),
    Looping(ObjId),
    Counting(Count),
    Characters(TextWalk),
    Lines(TextWalk),
    Bytes(ByteWalk),
    Visiting(Visit),
    Indexing(Visit),
    Replacing(Visit),
    Deleting(Visit),
    Filling(Filling),
    Pairs(PairWalk),
    Items(ItemsState),
}

impl Rest {
    /// The first that is left, which is passed.
    pub fn take(&mut self) -> Option<Value>
        ensures first { result ≡ writing.first self.old }
        ensures rest { self.new ≡ writing.passed self.old }
    {
        let value = self.values.as_slice().get(self.place).copied()?;
        self.place = self.place.saturating_add(1);
        Some(value)
    }
}
