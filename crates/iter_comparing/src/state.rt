//! Where a comparison stands.
use crate::equating::{Equating, KeySearch};
use crate::joining::Joining;
use crate::ordering::Order;
use crate::pairing::Pairing;
use crate::removing::Removing;
use crate::searching::Search;
use crate::showing::Showing;
use crate::sifting::Sifting;
use core_calls::heap::Site;
use rb_value::{Boxed, SymId};

/// Where a method that compares or shows values stands: it waits for an answer that it negates, tests, gives, or shows
/// as the key that is absent; for one of `<=>`; or for one of many.
#[derive(Drop)]
pub enum ComparingState {
    Negates,
    Tests,
    Hands,
    Missing,
    Orders(Order),
    Asks(Boxed<Asking>),
}

/// What asks values again and again: the name of the method that they are asked for, where the cache keeps what was
/// found for it, and the work.
#[derive(Drop)]
pub struct Asking {
    pub(crate) name: SymId,
    pub(crate) site: Site,
    pub(crate) work: Work,
}

/// A work that asks values again and again.
#[derive(Drop)]
pub enum Work {
    Pairs(Pairing),
    Searches(Search),
    Sifts(Sifting),
    Removes(Removing),
    Joins(Joining),
    Shows(Showing),
    Equates(Equating),
    FindsKey(KeySearch),
}
