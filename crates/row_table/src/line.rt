//! Rows.
use crate::integer::IntegerMethod;
use crate::range::{RangeClassMethod, RangeMethod};
use crate::signature::Signature;
use crate::string::{StringClassMethod, StringMethod};
use crate::symbol::SymbolMethod;
use crate::truth::{NilMethod, TruthMethod};

/// A core method.
#[derive(Clone, Copy, Debug, PartialEq, Eq)]
pub enum CoreRow {
    Integer(IntegerMethod),
    Range(RangeMethod),
    RangeClass(RangeClassMethod),
    String(StringMethod),
    StringClass(StringClassMethod),
    Symbol(SymbolMethod),
    Nil(NilMethod),
    True(TruthMethod),
    False(TruthMethod),
}

/// A row: a core method, and what it takes.
#[derive(Clone, Copy, Debug, PartialEq, Eq)]
pub struct Line {
    pub row: CoreRow,
    pub signature: Signature,
}
