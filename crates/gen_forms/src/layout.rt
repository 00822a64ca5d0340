//! What a body says besides its code: its registers, its constant pool and its symbols.
ghost use Rattle.std.specs.Prelude.{◌≡◌, ◌++◌, [], map, nat_lt, ◌||◌, IfOk, OnOk};
ghost use Rattle.ir_core.specs.CoreForm.{body, nil};
ghost use Rattle.ir_core.specs.View.{parameters_of, locals_of};
ghost use Rattle.ir_counts.specs.Counts as counts;
ghost use Rattle.rite_code.specs.declared.code.PoolItem.TheVariants as pool;
ghost use Rattle.text_set.specs.Sets.{texts as shown};
ghost use Rattle.gen_forms.specs.Gen as gens;

use crate::numbers::operand;
use gen_parts::Head;
use ir_core::Parameters;
use ir_counts::Tally;
use ir_walk::sums::{add, scaled_by};
use rb_base::{Bytes, List};
use rite_code::PoolItem;
use scope_resolver::{Scope, slot_count};
use std::alloc::{AllocError, Global};

/// The most that a narrow jump passes over.
const NARROW: u64 = 32767;

/// How many registers an operand of a narrow jump tells apart.
const TOLD_APART: u64 = 256;

/// The first register of a body's form, and what the body says before its code.
#[derive(Clone, Copy, Debug, PartialEq, Eq)]
pub struct Layout {
    pub first: u16,
    pub head: Head,
}

/// How many parameters there are, besides a named block.
fn parameter_count(parameters: &Parameters) -> Result<u64, AllocError>
    ensures { IfOk result (λ n. n ≡ counts.parameter_count (body (parameters_of parameters.now) [] nil)) }
{
    let required = parameters.required.len() as u64;
    let optional = parameters.optional.len() as u64;
    let rest = if parameters.rest.is_some() { 1 } else { 0 };
    let front = add(add(required, optional)?, rest)?;
    add(front, parameters.post.len() as u64)
}

/// The count of the bytes of a body's code.
fn code_count(parameters: &Parameters, tally: &Tally) -> Result<u64, AllocError>
    ensures { IfOk result (λ n. n ≡ counts.code_of (body (parameters_of parameters.now) [] nil) tally.now) }
{
    add(scaled_by(16, 32, parameter_count(parameters)?)?, tally.code)
}

/// Whether the jumps of a body with so much code and so many registers are wide.
fn wide_jumps(code: u64, registers: u64) -> bool
    ensures { result ≡ (nat_lt 32767 code || nat_lt 256 registers) }
{
    NARROW < code || TOLD_APART < registers
}

/// The layout of a body with that tally, whose form takes so many registers.
pub fn layout_of(scope: &Scope, tally: &Tally, width: u64) -> Result<Layout, AllocError>
    ensures { IfOk result (λ l. l ≡ gens.laid_out scope.now.kind
        (body (parameters_of scope.now.parameters.now) (locals_of scope.now.locals.now) nil) tally.now width) }
{
    let locals = add(1, slot_count(scope)?)?;
    let first = add(locals, tally.hidden)?;
    let registers = add(first, width)?;
    Ok(Layout {
        first: operand(first)?,
        head: Head {
            locals: operand(locals)?,
            registers: operand(registers)?,
            wide: wide_jumps(code_count(scope.parameters, tally)?, registers),
        },
    })
}

fn add_integers(items: &mut Vec<PoolItem>, integers: &[i64]) -> Result<(), AllocError>
    ensures { OnOk result (items.new.items ≡ items.old.items ++ map pool.Int integers.now) }
{
    for integer in integers {
        items.push(PoolItem::Int(*integer))?;
    }
    Ok(())
}

fn add_texts(alloc: Global, items: &mut Vec<PoolItem>, texts: &[&[u8]]) -> Result<(), AllocError>
    ensures { OnOk result (items.new.items ≡ items.old.items ++ map pool.Text (shown texts.now)) }
{
    for text in texts {
        items.push(PoolItem::Text(Bytes::from_slice(alloc, *text)?))?;
    }
    Ok(())
}

/// The constant pool of a body: its integers, then its texts.
pub fn constant_pool(alloc: Global, tally: &Tally) -> Result<List<PoolItem>, AllocError>
    ensures { IfOk result (λ list. list ≡ gens.pool_of tally.now) }
{
    let mut items = Vec::new(alloc);
    add_integers(&mut items, tally.integers.as_slice())?;
    add_texts(alloc, &mut items, tally.texts.as_slice())?;
    Ok(List::from_vec(items))
}

fn add_names(alloc: Global, names: &mut Vec<Bytes>, symbols: &[&[u8]]) -> Result<(), AllocError>
    ensures { OnOk result (names.new.items ≡ names.old.items ++ shown symbols.now) }
{
    for symbol in symbols {
        names.push(Bytes::from_slice(alloc, *symbol)?)?;
    }
    Ok(())
}

/// The symbols of a body.
pub fn symbol_list(alloc: Global, tally: &Tally) -> Result<List<Bytes>, AllocError>
    ensures { IfOk result (λ list. list ≡ tally.now.symbols) }
{
    let mut names = Vec::with_capacity(alloc, tally.symbols.len())?;
    add_names(alloc, &mut names, tally.symbols.as_slice())?;
    Ok(List::from_vec(names))
}
