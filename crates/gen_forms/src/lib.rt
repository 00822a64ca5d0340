//! The code of core forms: a form leaves its value in a register and uses none below it (docs/formats.md,
//! docs/core.md).
//!
//! What the code of a form is stands in specs/Gen.antt. [`main_code`] gives the bodies of a program.
#![tactic(auto, using(gen_parts::proofs::Laws::piece_laws))]

pub mod bodies;
pub mod branches;
pub mod calls;
pub mod collections;
pub mod context;
pub mod definitions;
pub mod emits;
pub mod exits;
pub mod form;
pub mod guards;
pub mod layout;
pub mod leaves;
pub mod loops;
pub mod names;
pub mod numbers;
pub mod operators;
pub mod questions;
pub mod sequences;

pub use form::main_code;
