//! How many bytes and how many registers the code of a form takes.
ghost use Rattle.std.specs.Prelude.{◌≡◌, ◌+◌, ◌<◌, ◌^◌, map};
ghost use Rattle.code_generator.specs.Gen.{len, len_all, len_rest, number_size, width, all_width, operands_width};
ghost use Rattle.code_generator.specs.Emission.{form, all_forms};

use crate::tree::Tree;
use std::cmp::max;

/// How many bytes the instruction takes that loads a number.
fn number_length(n: i64) -> usize
    ensures { result ≡ number_size n }
{
    if 0 <= n && n < 256 {
        3
    } else if -32768 <= n && n < 32768 {
        4
    } else {
        6
    }
}

/// How many bytes the code of a form takes.
#[cycle(lengths)]
pub fn length(tree: &Tree) -> usize
    requires { len (form tree.now) < 2 ^ 32 }
    ensures { result ≡ len (form tree.now) }
{
    match tree {
        Tree::Nil | Tree::True => 2,
        Tree::Int(n) => number_length(*n),
        Tree::Operate(_, a, b) => length(a) + length(b) + 2,
        Tree::Puts(e) => length(e) + 4,
        Tree::Local(_) => 3,
        Tree::SetLocal(_, e) => length(e) + 3,
        Tree::Seq(list) => match list.split_first() {
            None => 2,
            Some((first, rest)) => length(first) + length_all(rest),
        },
        Tree::Cond(t, a, b) => length(t) + 4 + length(a) + 3 + length(b),
        Tree::While(t, b) => length(t) + 4 + length(b) + 3 + 2,
    }
}

#[cycle(lengths)]
fn length_all(list: &[Tree]) -> usize
    requires { len_rest (all_forms list.now) < 2 ^ 32 }
    ensures { result ≡ len_rest (all_forms list.now) }
{
    let mut sum: usize = 0;
    for tree in list {
        sum += length(tree);
    }
    sum
}

/// How many registers a form takes from its own on.
#[cycle(widths)]
pub fn width_of(tree: &Tree) -> usize
    requires { width (form tree.now) < 2 ^ 32 }
    ensures { result ≡ width (form tree.now) }
{
    match tree {
        Tree::Nil | Tree::True | Tree::Int(_) | Tree::Local(_) => 1,
        Tree::Operate(_, a, b) => max(width_of(a), 1 + max(width_of(b), 1)),
        Tree::Puts(e) => 1 + max(width_of(e), 1),
        Tree::SetLocal(_, e) => width_of(e),
        Tree::Seq(list) => width_of_all(list),
        Tree::Cond(t, a, b) => max(width_of(t), max(width_of(a), width_of(b))),
        Tree::While(t, b) => max(1, max(width_of(t), width_of(b))),
    }
}

#[cycle(widths)]
#[tactic(auto, using(crate::proofs::Widths::one_at_least, crate::proofs::Widths::max_right, crate::proofs::Widths::max_left))]
fn width_of_all(list: &[Tree]) -> usize
    requires { all_width (all_forms list.now) < 2 ^ 32 }
    ensures { result ≡ all_width (all_forms list.now) }
{
    let mut widest: usize = 1;
    for tree in list {
        widest = max(widest, width_of(tree));
    }
    widest
}
