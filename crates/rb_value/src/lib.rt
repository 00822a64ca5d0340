//! Values and what a store holds: the values of the language, the core classes, methods, objects with their kinds,
//! and what calls hand on.
//!
//! Types: [`Value`] with [`SymId`] and [`ObjId`], [`Exit`], [`Slot`], [`Cell`]; [`CoreClass`]; [`Method`] and [`Visibility`]
//! in a [`MethodEntry`] of a [`MethodTable`], [`Shape`]; [`Object`] with its [`Variable`]s, made of a [`Kind`] and read as
//! a [`KindRef`], whose [`Sort`] is what it is without its contents; [`Boxed`]; [`Items`], [`SmallBytes`]; [`Key`];
//! [`Args`]; [`Failure`] and [`Outcome`].
//! What a [`Kind`] holds is public. Contracts see lists where vectors, texts and maps stand, and no box; nor do they see
//! where in an object its contents stand.
#![tactic(auto)]

pub mod args;
pub mod boxed;
pub mod cell;
mod changing;
pub mod core_class;
pub mod exit;
mod few;
pub mod hash;
mod held;
mod holding;
pub mod items;
pub mod key;
pub mod kind;
pub mod method;
pub mod method_table;
pub mod object;
pub mod outcome;
mod pair;
pub mod procs;
mod reading;
pub mod value;
pub mod variables;

pub use args::Args;
pub use boxed::Boxed;
pub use cell::Cell;
pub use core_class::CoreClass;
pub use exit::{Exit, Slot};
pub use hash::{HashContents, HashItem, put_pair};
pub use items::Items;
pub use key::{Key, KeyPart};
pub use kind::{
    ClassContents, ClassForm, EnumeratorContents, EnumeratorSource, Kind, KindRef, RangeContents,
    RangeEnds, Sort,
};
pub use method::{Method, MethodEntry, Shape, Visibility};
pub use method_table::MethodTable;
pub use object::Object;
pub use outcome::{Failure, Outcome};
pub use procs::{ProcContents, Sending};
pub use small_bytes::SmallBytes;
pub use value::{ObjId, SymId, Value};
pub use variables::{Variable, Variables};
