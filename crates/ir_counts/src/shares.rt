//! The shares of a form's parts and values in what it adds.
ghost use Rattle.std.specs.Prelude.{◌≡◌, max, IfOk, Some};
ghost use Rattle.std.specs.Option.{option_copied};
ghost use Rattle.ir_core.specs.CoreForm.{int};
ghost use Rattle.ir_core.specs.Parts as part;
ghost use Rattle.ir_counts.specs.Tables as tables;

use ir_core::{Clause, Core};
use ir_walk::has_splat;
use ir_walk::sums::{add, scaled};
use rb_syntax::{DefinedKind, Item};
use std::alloc::AllocError;
use std::cmp::max;

/// How many parameters of one kind there are for the item `k` of an Array, from the end where `k` is negative.
pub fn kind_of_item(k: i32) -> u64
    ensures { result ≡ tables.kind_of_place k }
{
    if k < 0 {
        u64::from(k.unsigned_abs())
    } else {
        u64::from(k.unsigned_abs()) + 1
    }
}

/// The integer, where it doesn't fit 32 bits.
pub fn wide(n: i64) -> Option<i64>
    ensures { result ≡ tables.integer_of (int n) }
{
    if -2147483648 <= n && n < 2147483648 {
        None
    } else {
        Some(n)
    }
}

/// Whether the items of a call go into an Array: there is a splat, or there are more than 253.
#[tactic(auto, using(crate::proofs::PartCounts::count_laws))]
fn are_gathered(items: &[Item<Core>]) -> bool
    ensures { result ≡ tables.are_gathered (part.items items.now) }
{
    has_splat(items) || items.len() > 253
}

/// The bytes that the items of a call take where they go into an Array.
#[tactic(auto, using(crate::proofs::PartCounts::count_laws))]
pub fn items_code(items: &[Item<Core>]) -> Result<u64, AllocError>
    ensures { IfOk result (λ n. n ≡ tables.items_code (part.items items.now)) }
{
    if are_gathered(items) {
        scaled(0, 8, items.len())
    } else {
        Ok(0)
    }
}

#[tactic(auto, using(crate::proofs::PartCounts::count_laws))]
fn class_count(clause: &Clause<Core>) -> u64
    ensures { result ≡ max 1 (tables.count (part.cores clause.now.classes.items)) }
{
    max(1, clause.classes.len() as u64)
}

/// The classes of clauses, where no class counts as one.
pub fn classes(clauses: &[Clause<Core>]) -> Result<u64, AllocError>
    ensures { IfOk result (λ n. n ≡ tables.classes (part.clauses clauses.now)) }
{
    let mut sum = 0;
    for clause in clauses {
        sum = add(sum, class_count(clause))?;
    }
    Ok(sum)
}

/// The symbol of a `defined?` that looks for a name.
pub fn asked_name<'a>(kind: DefinedKind, name: &'a [u8]) -> Option<&'a [u8]>
    ensures { option_copied result ≡ tables.asked_name kind name.now }
{
    match kind {
        DefinedKind::InstanceVariable
        | DefinedKind::GlobalVariable
        | DefinedKind::Constant
        | DefinedKind::Method => Some(name),
        _ => None,
    }
}

fn some_text<'a>(text: &'a [u8]) -> Option<&'a [u8]>
    ensures { option_copied result ≡ Some text.now }
{
    Some(text)
}

/// The text of a `defined?` that looks for nothing.
pub fn answer<'a>(kind: DefinedKind) -> Option<&'a [u8]>
    ensures { option_copied result ≡ tables.answer_of kind }
{
    match kind {
        DefinedKind::Expression => some_text(b"expression"),
        DefinedKind::LocalVariable => some_text(b"local-variable"),
        DefinedKind::SelfReference => some_text(b"self"),
        DefinedKind::Assignment => some_text(b"assignment"),
        _ => None,
    }
}
