//! Where a method over items stands.
use crate::gathering::Gathering;
use crate::visit::Visit;
use iter_comparing::ComparingState;
use iter_enumerators::EnumeratorState;
use rb_value::Boxed;

/// Where a method stands: it visits items; it waits for `each` to give the items; it compares or shows values; or it is
/// one of an Enumerator.
#[derive(Drop)]
pub enum ItemsState {
    Visits(Boxed<Visit>),
    Gathers(Boxed<Gathering>),
    Compares(ComparingState),
    Enumerates(EnumeratorState),
}
