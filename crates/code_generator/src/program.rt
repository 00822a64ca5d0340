//! The code of a main program.
ghost use Rattle.std.specs.Prelude.{◌≡◌, [], ◌∷◌, IfOk};
ghost use Rattle.rite_code.specs.Code.{IsWhole};
ghost use Rattle.code_generator.specs.Limits.{IsWithin};
ghost use Rattle.ir_core.specs.View.{body_view};
ghost use Rattle.code_generator.specs.Built as built;
ghost use Rattle.code_generator.specs.Gen.{any_calls_puts, code_of, symbols_of};
ghost use Rattle.code_generator.specs.Gen as gen;
ghost use Rattle.code_generator.specs.Emission.{form, all_forms};

use crate::assembly::Assembly;
use crate::emit::emit;
use crate::formed::Formed;
use crate::limits::is_within;
use crate::measure::width_of;
use crate::names::collect;
use crate::tree::Tree;
use ir_core::Program;
use rb_base::{Bytes, List};
use rite_code::{Code, Irep, Operation};
use std::alloc::{AllocError, Global};

/// Whether a form calls puts.
#[cycle(calls)]
fn calls_puts(tree: &Tree) -> bool
    ensures { result ≡ gen.calls_puts (form tree.now) }
{
    match tree {
        Tree::Nil | Tree::True | Tree::Int(_) | Tree::Local(_) => false,
        Tree::Puts(_) => true,
        Tree::SetLocal(_, e) => calls_puts(e),
        Tree::Seq(list) => one_calls_puts(list),
        Tree::Operate(_, a, b) | Tree::While(a, b) => calls_puts(a) || calls_puts(b),
        Tree::Cond(t, a, b) => calls_puts(t) || calls_puts(a) || calls_puts(b),
    }
}

#[cycle(calls)]
fn one_calls_puts(list: &[Tree]) -> bool
    ensures { result ≡ any_calls_puts (all_forms list.now) }
{
    for tree in list {
        if calls_puts(tree) {
            return true;
        }
    }
    false
}

/// The symbols of the calls of a form.
fn symbols(alloc: Global, tree: &Tree) -> Result<List<Bytes>, AllocError>
    ensures { IfOk result (λ names. names ≡ symbols_of (form tree.now)) }
{
    let mut symbols = List::new(alloc);
    if calls_puts(tree) {
        symbols.push(Bytes::from_slice(alloc, b"puts".as_slice())?)?;
    }
    Ok(symbols)
}

/// Whether the program has no line.
fn is_nothing(tree: &Tree) -> bool
    ensures { result ≡ gen.is_nothing (form tree.now) }
{
    match tree {
        Tree::Seq(list) => list.as_slice().is_empty(),
        _ => false,
    }
}

/// The program of one body.
fn program(alloc: Global, body: Irep) -> Result<Code, AllocError>
    requires { IsWhole (record { version = 2; bodies = body ∷ [] }) }
    ensures { IfOk result (λ code. code ≡ record { version = 2; bodies = body ∷ [] }) }
{
    let mut bodies = List::new(alloc);
    bodies.push(body)?;
    Ok(Code::new(2, bodies))
}

/// The code of a program without a line: its end.
#[tactic(auto, using(crate::proofs::Nothing::nothing_is_whole))]
fn nothing(alloc: Global) -> Result<Code, AllocError>
    ensures { IfOk result (λ code. code ≡ gen.nothing_code) }
{
    let mut code = Assembly::new(alloc);
    code.put(Operation::Stop)?;
    let body = Irep {
        locals: 1,
        registers: 1,
        code: Bytes::from_vec(code.encode(alloc)?),
        catches: List::new(alloc),
        pool: List::new(alloc),
        symbols: List::new(alloc),
        children: List::new(alloc),
    };
    program(alloc, body)
}

/// The code of a program with lines.
#[tactic(auto, using(crate::proofs::Bounds::within_registers, crate::proofs::Bounds::within_code, crate::proofs::Numbers::within_numbers, crate::proofs::Bodies::full_is_whole))]
fn full(alloc: Global, tree: &Tree) -> Result<Code, AllocError>
    requires { IsWithin (form tree.now) }
    ensures { IfOk result (λ code. code ≡ gen.full_code (form tree.now)) }
{
    let mut names = Vec::new(alloc);
    collect(alloc, &mut names, tree)?;
    let locals = names.len() + 1;
    let mut code = Assembly::new(alloc);
    emit(&mut code, &names, tree, locals as u16, 0)?;
    code.put(Operation::Stop)?;
    let body = Irep {
        locals: locals as u16,
        registers: (locals + width_of(tree)) as u16,
        code: Bytes::from_vec(code.encode(alloc)?),
        catches: List::new(alloc),
        pool: List::new(alloc),
        symbols: symbols(alloc, tree)?,
        children: List::new(alloc),
    };
    program(alloc, body)
}

/// The code of a main program.
fn main_program(alloc: Global, tree: &Tree) -> Result<Code, AllocError>
    requires { IsWithin (form tree.now) }
    ensures { IfOk result (λ code. code ≡ code_of (form tree.now)) }
{
    if is_nothing(tree) {
        nothing(alloc)
    } else {
        full(alloc, tree)
    }
}

/// A program that is nil has no lines.
fn of_program(alloc: Global, tree: Tree) -> Tree
    ensures { form result ≡ built.of_program (form tree) }
{
    match tree {
        Tree::Nil => Tree::Seq(Vec::new(alloc)),
        other => other,
    }
}

/// The code of a form within the limits, or none.
#[tactic(auto, using(crate::proofs::Within::is_within_means))]
fn code_within(alloc: Global, tree: &Tree) -> Result<Option<Code>, AllocError>
    ensures { IfOk result (λ code. code ≡ built.code_within (form tree.now)) }
{
    if !is_within(alloc, tree)? {
        return Ok(None);
    }
    Ok(Some(main_program(alloc, tree)?))
}

/// The code of a program that the generator builds, or none where it doesn't. The error is that memory ran out.
pub fn generate(alloc: Global, source: &Program) -> Result<Option<Code>, AllocError>
    ensures { IfOk result (λ code. code ≡ built.code_built (body_view source.now)) }
{
    match source.form.tree(alloc)? {
        Some(tree) => code_within(alloc, &of_program(alloc, tree)),
        None => Ok(None),
    }
}
