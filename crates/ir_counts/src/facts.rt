//! What a core adds to the counts of its body.
ghost use Rattle.std.specs.Prelude.{◌≡◌, ◌+◌, ◌*◌, [], IfOk};
ghost use Rattle.ir_core.specs.View.{local_of, term_view};
ghost use Rattle.ir_core.specs.Parts as part;
ghost use Rattle.ir_counts.specs.Facts.{view};
ghost use Rattle.ir_counts.specs.Tables as tables;

use crate::shares::{answer, asked_name, classes, items_code, kind_of_item, wide};
use ir_core::{Clause, Core, Local, Term};
use ir_walk::sums::{add, scaled, scaled_by};
use rb_base::Bytes;
use rb_syntax::{Branch, DefinedKind, Item, Pair};
use std::alloc::AllocError;
use std::cmp::max;

/// What a core adds to the counts of its body, without its parts.
#[derive(Clone, Copy)]
pub struct Facts<'a> {
    /// How many parameters of one kind it speaks of.
    pub kind: u64,
    /// How many hidden locals are in use, where it reads or sets one.
    pub hidden: u64,
    /// Bytes of code.
    pub code: u64,
    /// A Begin and its clauses.
    pub handlers: u64,
    /// Bodies within.
    pub children: u64,
    pub name: Option<&'a [u8]>,
    /// The old name of an alias.
    pub old_name: Option<&'a [u8]>,
    pub text: Option<&'a [u8]>,
    /// An integer outside 32 bits.
    pub integer: Option<i64>,
}

type Found<'a> = Result<Facts<'a>, AllocError>;

/// A core of so many bytes of code that adds nothing else.
fn plain<'a>(code: u64) -> Facts<'a>
    ensures { view result ≡ tables.plain code }
{
    Facts {
        kind: 0,
        hidden: 0,
        code,
        handlers: 0,
        children: 0,
        name: None,
        old_name: None,
        text: None,
        integer: None,
    }
}

/// A core that has a symbol.
fn symbolic<'a>(code: u64, children: u64, name: &'a Bytes) -> Facts<'a>
    ensures { view result ≡ tables.symbolic code children name.now }
{
    Facts {
        children,
        name: Some(name.as_slice()),
        ..plain(code)
    }
}

/// An alias.
fn renaming<'a>(name: &'a Bytes, old_name: &'a Bytes) -> Facts<'a>
    ensures { view result ≡ tables.renaming name.now old_name.now }
{
    Facts {
        name: Some(name.as_slice()),
        old_name: Some(old_name.as_slice()),
        ..plain(16)
    }
}

/// A core that has a text.
fn textual<'a>(code: u64, text: &'a [u8]) -> Facts<'a>
    ensures { view result ≡ tables.textual code text.now }
{
    Facts {
        text: Some(text),
        ..plain(code)
    }
}

/// A core at which a body begins.
fn parental<'a>(code: u64) -> Facts<'a>
    ensures { view result ≡ tables.parental code }
{
    Facts {
        children: 1,
        ..plain(code)
    }
}

/// How many hidden locals are in use at a local.
fn hidden_by(variable: &Local) -> Result<u64, AllocError>
    ensures { IfOk result (λ n. n ≡ tables.hidden_by (local_of variable.now)) }
{
    match variable {
        Local::Hidden(number) => add(*number as u64, 1),
        Local::Named(_) | Local::Pattern(_) | Local::Rest => Ok(0),
    }
}

/// A read of a local, or a store into one.
fn at_local<'a>(variable: &Local) -> Found<'a>
    ensures { IfOk result (λ f. view f ≡ tables.at_local (local_of variable.now)) }
{
    let hidden = hidden_by(variable)?;
    Ok(Facts {
        hidden,
        ..plain(16)
    })
}

/// Parts of an Array, which ask for so many parameters of one kind.
fn of_kind<'a>(kind: u64) -> Facts<'a>
    ensures { view result ≡ tables.of_kind kind }
{
    Facts { kind, ..plain(16) }
}

/// An integer.
fn numeric<'a>(n: i64) -> Facts<'a>
    ensures { view result ≡ tables.numeric n }
{
    Facts {
        integer: wide(n),
        ..plain(16)
    }
}

/// A `defined?`.
fn asking<'a>(kind: DefinedKind, name: &'a Bytes) -> Facts<'a>
    ensures { view result ≡ tables.asking kind name.now }
{
    Facts {
        name: asked_name(kind, name.as_slice()),
        text: answer(kind),
        ..plain(16)
    }
}

#[tactic(auto, using(crate::proofs::PartCounts::count_laws))]
fn of_array<'a>(items: &[Item<Core>]) -> Found<'a>
    ensures { IfOk result (λ f. view f ≡ tables.plain (16 + 8 * tables.item_count (part.items items.now))) }
{
    Ok(plain(scaled(16, 8, items.len())?))
}

#[tactic(auto, using(crate::proofs::PartCounts::count_laws))]
fn of_hash<'a>(pairs: &[Pair<Core>]) -> Found<'a>
    ensures { IfOk result (λ f. view f ≡ tables.plain (16 + 8 * tables.pair_count (part.pairs pairs.now))) }
{
    Ok(plain(scaled(16, 8, pairs.len())?))
}

#[tactic(auto, using(crate::proofs::PartCounts::count_laws))]
fn of_text<'a>(pieces: &[Core]) -> Found<'a>
    ensures { IfOk result (λ f. view f ≡ tables.textual (16 + 8 * tables.count (part.cores pieces.now)) []) }
{
    Ok(textual(scaled(16, 8, pieces.len())?, b""))
}

#[tactic(auto, using(crate::proofs::PartCounts::count_laws))]
fn of_cond<'a>(branches: &[Branch<Core>]) -> Found<'a>
    ensures { IfOk result (λ f. view f ≡ tables.plain (16 + 16 * tables.branch_count (part.branches branches.now))) }
{
    Ok(plain(scaled(16, 16, branches.len())?))
}

fn of_call<'a>(name: &'a Bytes, items: &[Item<Core>]) -> Found<'a>
    ensures { IfOk result (λ f. view f ≡ tables.symbolic (16 + tables.items_code (part.items items.now)) 0
        name.now) }
{
    let code = add(16, items_code(items)?)?;
    Ok(symbolic(code, 0, name))
}

/// A yield or a super.
fn passing<'a>(code: u64, items: &[Item<Core>]) -> Found<'a>
    ensures { IfOk result (λ f. view f ≡ tables.plain (code + tables.items_code (part.items items.now))) }
{
    Ok(plain(add(code, items_code(items)?)?))
}

#[tactic(auto, using(crate::proofs::PartCounts::count_laws))]
fn of_begin<'a>(clauses: &[Clause<Core>]) -> Found<'a>
    ensures { IfOk result (λ f. view f ≡ tables.handling
        (96 + 48 * tables.classes (part.clauses clauses.now))
        (1 + tables.clause_count (part.clauses clauses.now))) }
{
    let code = scaled_by(96, 48, classes(clauses)?)?;
    let handlers = scaled(1, 1, clauses.len())?;
    Ok(Facts {
        handlers,
        ..plain(code)
    })
}

/// What the core adds. A count past 2^64 - 1 is answered as if memory ran out.
#[tactic(auto, using(ir_core::proofs::Views::core_views))]
pub fn facts_of<'a>(core: &'a Term) -> Found<'a>
    ensures { IfOk result (λ f. view f ≡ tables.added (term_view core.now)) }
{
    match core {
        Term::Nil
        | Term::True
        | Term::False
        | Term::SelfRef
        | Term::Own(_)
        | Term::Exception
        | Term::Range { .. }
        | Term::Intern(_)
        | Term::Seq(_)
        | Term::And(_, _)
        | Term::Or(_, _)
        | Term::Return(_)
        | Term::Break(_)
        | Term::Next(_)
        | Term::Retry => Ok(plain(16)),
        Term::Int(n) => Ok(numeric(*n)),
        Term::Str(text) => Ok(textual(16, text.as_slice())),
        Term::Local(variable) | Term::SetLocal(variable, _) => at_local(variable),
        Term::Sym(name)
        | Term::Ivar(name)
        | Term::SetIvar(name, _)
        | Term::Gvar(name)
        | Term::SetGvar(name, _)
        | Term::Const(name)
        | Term::TopConst(name)
        | Term::InConst(_, name)
        | Term::SetConst(name, _)
        | Term::SetInConst(_, name, _)
        | Term::Undef(name) => Ok(symbolic(16, 0, name)),
        Term::Array(items) => of_array(items),
        Term::Hash(pairs) => of_hash(pairs),
        Term::Text(pieces) => of_text(pieces),
        Term::Cond(branches, _) => of_cond(branches),
        Term::While { .. } => Ok(plain(64)),
        Term::Call { name, items, .. } => of_call(name, items),
        Term::BlockCall { name, items, .. } => of_call(name, items),
        Term::Yield(items) => passing(16, items),
        Term::Super(items, _) => passing(32, items),
        Term::Fn(_) => Ok(parental(16)),
        Term::Lambda(_) => Ok(parental(32)),
        Term::Begin(begin) => of_begin(&begin.clauses),
        Term::Def(name, _) | Term::DefOn(_, name, _) => Ok(symbolic(32, 1, name)),
        Term::Class { name, .. } | Term::Module { name, .. } => Ok(symbolic(48, 1, name)),
        Term::SingletonClass(_, _) => Ok(parental(48)),
        Term::Alias(name, old_name) => Ok(renaming(name, old_name)),
        Term::Defined(kind, name, _) => Ok(asking(*kind, name)),
        Term::Item(_, k) => Ok(of_kind(kind_of_item(*k))),
        Term::Rest { from, post, .. } => Ok(of_kind(u64::from(max(*from, *post)))),
        Term::Tail { from, count, .. } => Ok(of_kind(u64::from(max(*from, *count)))),
    }
}
