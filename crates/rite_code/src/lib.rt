//! Instructions, the bodies that they stand in, and how bytes spell them (docs/formats.md).
//!
//! Types: [`Instr`] over [`Operation`], [`Opcode`], [`Shape`], [`Parameters`], [`Irep`], [`CatchEntry`], [`PoolItem`],
//! [`Code`], [`Cause`].
//! Calls: [`decode`], which chooses by the version between [`decode_at`] and [`decode_wide_at`], [`encode`], and
//! [`word_of`], the number that ENTER has. Law: [`decoding_undoes_encoding`].
#![tactic(auto)]

pub mod cause;
pub mod code;
pub mod decoding;
pub mod encoding;
pub mod instr;
pub mod opcode;
pub mod operation;

pub use cause::Cause;
pub use code::{CatchEntry, Code, Irep, PoolItem};
pub use decoding::{decode, decode_at, decode_wide_at, decoding_undoes_encoding};
pub use encoding::{encode, word_of};
pub use instr::Instr;
pub use opcode::{Opcode, Shape};
pub use operation::{Operands, Operation, Parameters};
