//! Code for core forms: each body's instructions, and the theorem that they do what the forms mean.
//!
//! Which core forms are built, and which form of the definitions each stands for, is said in specs/Built.antt.
//!
//! Calls: [`generate`], and the laws [`law::code_implements`], [`law::code_verified`] and [`law::witness`].
#![tactic(auto)]

mod assembly;
mod emit;
mod formed;
mod from_core;
pub mod law;
mod limits;
mod measure;
mod names;
mod node;
mod parts;
mod program;
mod tree;

pub use program::generate;
