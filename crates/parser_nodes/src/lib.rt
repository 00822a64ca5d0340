//! The trees that the rules of the grammar make of trees (ISO/IEC 30170:2012, 11 and 12): those of operators,
//! conditions and assignments, of one word, of lists, and of calls and targets. Contracts see each tree as its node.
//!
//! Types: [`nodes::Shape`], [`listed::Part`], [`listed::Listed`], [`listed::Phrase`], [`operand::Callee`],
//! [`operand::Operand`]. Calls: those of the modules.
#![tactic(auto)]

pub mod leaf;
pub mod listed;
pub mod nodes;
pub mod operand;
