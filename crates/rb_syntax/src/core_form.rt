//! The parts that trees and core forms share: items, pairs, branches, names of parameters, and what `defined?` asks
//! about.
use rb_base::{Bytes, List};

/// An item of a call or an Array.
#[derive(Debug, Drop)]
pub enum Item<F> {
    Plain(F),
    /// `*e`: the elements of the value.
    Splat(F),
}

/// A key and a value of a Hash.
#[derive(Debug, Drop)]
pub struct Pair<F> {
    pub key: F,
    pub value: F,
}

/// A test and the body that is done where it is true.
#[derive(Debug, Drop)]
pub struct Branch<F> {
    pub test: F,
    pub body: F,
}

/// The names of the parameters of a function, in order.
#[derive(Debug, Drop)]
pub struct Parameters {
    pub required: List<Bytes>,
    pub optional: List<Bytes>,
    pub rest: Option<Bytes>,
    pub post: List<Bytes>,
    pub block: Option<Bytes>,
}

/// What `defined?` asks about.
#[derive(Clone, Copy, Debug, PartialEq, Eq)]
pub enum DefinedKind {
    Expression,
    LocalVariable,
    InstanceVariable,
    GlobalVariable,
    Constant,
    Method,
    Yield,
    Super,
    SelfReference,
    Assignment,
}
