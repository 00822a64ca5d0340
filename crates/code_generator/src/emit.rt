//! The instructions of a form.
ghost use Rattle.std.specs.Prelude.{◌≡◌, ◌+◌, ◌<◌, ◌≤◌, ◌++◌, [], ◌∷◌, false, length, map, OnOk, IsTrue};
ghost use Rattle.code_generator.specs.Limits.{is_number};
ghost use Rattle.rite_code.specs.declared.operation.Operation.TheVariants.{Move, Jmp, JmpNot};
ghost use Rattle.rite_code.specs.Shape.{fits_as, is_short};
ghost use Rattle.code_generator.specs.Gen.{distance, gen, gen_rest, len, len_rest, load_number, operate, register_of, width, all_width};
ghost use Rattle.code_generator.specs.Emission.{form, all_forms, HasNumbers, HaveNumbers};

use crate::assembly::Assembly;
use crate::measure::length;
use crate::names::place;
use crate::tree::Tree;
use rb_base::Bytes;
use rb_syntax::Operator;
use rite_code::Operation;
use std::alloc::AllocError;

/// The distance of a jump between places of a short code.
fn between(from: usize, to: usize) -> i32
    requires begin { from < 32768 }
    requires end { to < 32768 }
    ensures value { result ≡ distance from to }
    ensures short { IsTrue (is_short result) }
{
    to as i32 - from as i32
}

fn put_move(code: &mut Assembly, a: u16, b: u16) -> Result<(), AllocError>
    requires to { a < 256 }
    requires from { b < 256 }
    ensures { OnOk result (code.new ≡ code.old ++ Move a b ∷ []) }
{
    code.put(Operation::Move { a, b })
}

/// Puts a jump at the end, from the place after it.
fn put_jump(code: &mut Assembly, from: usize, to: usize) -> Result<(), AllocError>
    requires begin { from < 32768 }
    requires end { to < 32768 }
    ensures { OnOk result (code.new ≡ code.old ++ Jmp (distance from to) ∷ []) }
{
    code.put(Operation::Jmp {
        by: between(from, to),
    })
}

/// Puts a jump at the end that is taken where `r` holds nil or false.
fn put_jump_not(code: &mut Assembly, r: u16, from: usize, to: usize) -> Result<(), AllocError>
    requires register { r < 256 }
    requires begin { from < 32768 }
    requires end { to < 32768 }
    ensures { OnOk result (code.new ≡ code.old ++ JmpNot r (distance from to) ∷ []) }
{
    code.put(Operation::JmpNot {
        a: r,
        by: between(from, to),
    })
}

/// The shortest instruction that loads a number.
fn load(r: u16, n: i64) -> Operation
    requires register { r < 256 }
    requires number { IsTrue (is_number n) }
    ensures value { result ≡ load_number r n }
    ensures fits { IsTrue (fits_as false result) }
{
    if 0 <= n && n < 256 {
        Operation::LoadI { a: r, b: n as u16 }
    } else if -32768 <= n && n < 32768 {
        Operation::LoadI16 { a: r, b: n as i32 }
    } else {
        Operation::LoadI32 { a: r, b: n as i32 }
    }
}

/// The instruction of an operator on `r` and the register after it.
fn operation(operator: Operator, r: u16) -> Operation
    requires { r < 256 }
    ensures value { result ≡ operate operator r }
    ensures fits { IsTrue (fits_as false result) }
{
    match operator {
        Operator::Plus => Operation::Add { a: r },
        Operator::Minus => Operation::Sub { a: r },
        Operator::Times => Operation::Mul { a: r },
        Operator::Equal => Operation::Eq { a: r },
        Operator::Less => Operation::Lt { a: r },
        Operator::LessEqual => Operation::Le { a: r },
        Operator::Greater => Operation::Gt { a: r },
        Operator::GreaterEqual => Operation::Ge { a: r },
    }
}

/// The register of a name: self has register 0.
fn register(name: &Bytes, names: &[Bytes]) -> u16
    requires { length names.now < 255 }
    ensures value { result ≡ register_of names.now name.now }
    ensures byte { result < 256 }
{
    (place(name.as_slice(), names) + 1) as u16
}

/// Puts the code of a form at the byte `at`, with its value in `r`.
#[cycle(emission)]
#[tactic(auto, using(crate::specs::declared::tree::Tree::the_lemmas, std::proofs::lemmas::List::append_assoc))]
pub fn emit(
    code: &mut Assembly,
    names: &[Bytes],
    tree: &Tree,
    r: u16,
    at: usize,
) -> Result<(), AllocError>
    requires locals { length names.now < 255 }
    requires register { r < 256 }
    requires numbers { HasNumbers (form tree.now) }
    requires room { r + width (form tree.now) ≤ 256 }
    requires fits { at + len (form tree.now) < 32768 }
    ensures { OnOk result (code.new ≡ code.old ++ gen names.now (form tree.now) r at) }
{
    match tree {
        Tree::Nil => code.put(Operation::LoadNil { a: r }),
        Tree::True => code.put(Operation::LoadT { a: r }),
        Tree::Int(n) => code.put(load(r, *n)),
        Tree::Operate(operator, a, b) => {
            emit(code, names, a, r, at)?;
            emit(code, names, b, r + 1, at + length(a))?;
            code.put(operation(*operator, r))
        }
        Tree::Puts(e) => {
            emit(code, names, e, r + 1, at)?;
            code.put(Operation::SSend { a: r, b: 0, c: 1 })
        }
        Tree::Local(name) => put_move(code, r, register(name, names)),
        Tree::SetLocal(name, e) => {
            emit(code, names, e, r, at)?;
            put_move(code, register(name, names), r)
        }
        Tree::Seq(list) => match list.split_first() {
            None => code.put(Operation::LoadNil { a: r }),
            Some((first, rest)) => {
                emit(code, names, first, r, at)?;
                emit_all(code, names, rest, r, at + length(first))
            }
        },
        Tree::Cond(test, body, other) => {
            let first = at + length(test) + 4;
            let second = first + length(body) + 3;
            let end = second + length(other);
            emit(code, names, test, r, at)?;
            put_jump_not(code, r, first, second)?;
            emit(code, names, body, r, first)?;
            put_jump(code, second, end)?;
            emit(code, names, other, r, second)
        }
        Tree::While(test, body) => {
            let inside = at + length(test) + 4;
            let end = inside + length(body) + 3;
            emit(code, names, test, r, at)?;
            put_jump_not(code, r, inside, end)?;
            emit(code, names, body, r, inside)?;
            put_jump(code, end, at)?;
            code.put(Operation::LoadNil { a: r })
        }
    }
}

/// Puts the code of forms, one after another.
#[cycle(emission)]
fn emit_all(
    code: &mut Assembly,
    names: &[Bytes],
    list: &[Tree],
    r: u16,
    at: usize,
) -> Result<(), AllocError>
    requires locals { length names.now < 255 }
    requires register { r < 256 }
    requires numbers { HaveNumbers (all_forms list.now) }
    requires room { r + all_width (all_forms list.now) ≤ 256 }
    requires fits { at + len_rest (all_forms list.now) < 32768 }
    ensures { OnOk result (code.new ≡ code.old ++ gen_rest names.now (all_forms list.now) r at) }
{
    let mut place = at;
    for tree in list {
        emit(code, names, tree, r, place)?;
        place += length(tree);
    }
    Ok(())
}
