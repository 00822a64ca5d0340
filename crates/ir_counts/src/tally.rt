//! The tally of a body's forms.
ghost use Rattle.std.specs.Prelude.{◌≡◌, IfOk, OnOk};
ghost use Rattle.ir_core.specs.View.{term_view};
ghost use Rattle.ir_counts.specs.Facts.{view};
ghost use Rattle.ir_walk.specs.Steps.{steps as seen};
ghost use Rattle.ir_counts.specs.Sets.{with_optional_integer};
ghost use Rattle.ir_counts.specs.Tally.{no_form, counted, tallied, with_numbers, with_values};

use crate::facts::{Facts, facts_of};
use crate::names::add_optional;
use integer_set::IntegerSet;
use ir_core::Term;
use ir_walk::Step;
use ir_walk::sums::add;
use std::alloc::{AllocError, Global};
use std::cmp::max;
use text_set::TextSet;

/// What the forms of a body add up to.
#[derive(Drop)]
pub struct Tally<'a> {
    /// The greatest number of parameters of one kind that a form speaks of.
    pub kind: u64,
    /// The most hidden locals in use.
    pub hidden: u64,
    /// Bytes of code.
    pub code: u64,
    /// Begins and their clauses.
    pub handlers: u64,
    /// Bodies within.
    pub children: u64,
    pub symbols: TextSet<'a>,
    pub texts: TextSet<'a>,
    /// The integers outside 32 bits.
    pub integers: IntegerSet,
}

fn empty_tally<'a>(alloc: Global) -> Tally<'a>
    ensures { result ≡ no_form }
{
    Tally {
        kind: 0,
        hidden: 0,
        code: 0,
        handlers: 0,
        children: 0,
        symbols: TextSet::new(alloc),
        texts: TextSet::new(alloc),
        integers: IntegerSet::new(alloc),
    }
}

/// Counts the numbers of one more form.
fn add_numbers<'a>(tally: &mut Tally<'a>, facts: Facts<'a>) -> Result<(), AllocError>
    ensures { OnOk result (tally.new ≡ with_numbers tally.old (view facts.entry)) }
{
    tally.kind = max(tally.kind, facts.kind);
    tally.hidden = max(tally.hidden, facts.hidden);
    tally.code = add(tally.code, facts.code)?;
    tally.handlers = add(tally.handlers, facts.handlers)?;
    tally.children = add(tally.children, facts.children)?;
    Ok(())
}

/// Adds an integer where there is one.
fn add_integer(set: &mut IntegerSet, integer: Option<i64>) -> Result<(), AllocError>
    ensures { OnOk result (set.new ≡ with_optional_integer set.old integer) }
{
    match integer {
        Some(integer) => {
            set.add(integer)?;
            Ok(())
        }
        None => Ok(()),
    }
}

/// Counts the names, the text and the integer of one more form.
fn add_values<'a>(tally: &mut Tally<'a>, facts: Facts<'a>) -> Result<(), AllocError>
    ensures { OnOk result (tally.new ≡ with_values tally.old (view facts.entry)) }
{
    add_optional(&mut tally.symbols, facts.name)?;
    add_optional(&mut tally.symbols, facts.old_name)?;
    add_optional(&mut tally.texts, facts.text)?;
    add_integer(&mut tally.integers, facts.integer)
}

/// Counts one more form.
fn count_form<'a>(tally: &mut Tally<'a>, core: &'a Term) -> Result<(), AllocError>
    ensures { OnOk result (tally.new ≡ counted tally.old (term_view core.now)) }
{
    let facts = facts_of(core)?;
    add_numbers(tally, facts)?;
    add_values(tally, facts)
}

/// The tally of the forms met on a walk.
pub fn tally_of<'a>(alloc: Global, steps: &[Step<'a>]) -> Result<Tally<'a>, AllocError>
    ensures { IfOk result (λ t. t ≡ tallied no_form (seen steps.now)) }
{
    let mut tally = empty_tally(alloc);
    for step in steps {
        match step {
            Step::At(core) => count_form(&mut tally, *core)?,
            Step::Enter(_) | Step::Leave => {}
        }
    }
    Ok(tally)
}
