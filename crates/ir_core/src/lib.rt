//! Core forms: what is left of a source once names are known and every construct of the surface language is written
//! with a few. A core is a box, also inside another; contracts see the whole as a `CoreForm` (specs/CoreForm.antt,
//! specs/View.antt). specs/Forms.antt has the forms that several constructs become, specs/Parts.antt the forms of a
//! core's parts, and proofs/Views.antt the form of each core whose parts lie in lists and options. specs/PartsBy.antt says
//! the same by any function on the cores in them: what a walk over cores says of its steps.
//!
//! Types: [`Core`], a box over a [`Term`] with its parts; [`Body`], [`Program`], the body of a whole source,
//! [`Parameters`], [`Local`].
#![tactic(auto)]

pub mod local;
pub mod term;

pub use local::{Local, Parameters};
pub use term::{BeginForm, Body, Clause, Core, Program, Receiver, Term};
