//! The forms of the language as a tree with nothing else in it.
use rb_base::Bytes;
use rb_syntax::Operator;

/// A form. A form inside another is after a `Box` or in a `Vec`.
#[derive(Debug, Drop)]
pub enum Tree {
    Nil,
    True,
    Int(i64),
    Operate(Operator, Box<Tree>, Box<Tree>),
    Puts(Box<Tree>),
    Local(Bytes),
    SetLocal(Bytes, Box<Tree>),
    Seq(Vec<Tree>),
    Cond(Box<Tree>, Box<Tree>, Box<Tree>),
    While(Box<Tree>, Box<Tree>),
}
