//! Where a method of an Enumerator or a Yielder stands.
use rb_value::{ObjId, Value};

/// It waits for the next item of an Enumerator, whose fiber was resumed, and which the item then leaves or stays in;
/// for the end of the source that a fiber of an Enumerator runs; for what is given as it is; or for an answer in place
/// of which a value is given.
#[derive(Clone, Copy, Debug)]
pub enum EnumeratorState {
    Waits {
        enumerator: ObjId,
        fiber: ObjId,
        leaves: bool,
    },
    Runs {
        enumerator: ObjId,
        fiber: Option<ObjId>,
    },
    Hands,
    Gives(Value),
}
