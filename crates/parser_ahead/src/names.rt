//! The names that are known as locals.
ghost use Rattle.std.specs.Prelude.{◌≡◌, ◌==◌, ◌∷◌, ◌++◌, [], length, take, drop, IfOk, OnOk, OnErr};
ghost use Rattle.parser_ahead.specs.Names as naming;
ghost use Rattle.parser_ahead.specs.Kept as keeping;

use rb_base::{Bytes, List};
use std::alloc::{AllocError, Global};
use std::marker::Model;
use text_set::OwnedTextSet;

/// A name that is known, and whether it is a parameter of the innermost definition around it.
#[derive(Drop)]
pub struct Variable {
    pub name: Bytes,
    pub parameter: bool,
}

/// A variable, and how many different names were known before it.
#[derive(Drop)]
struct Kept {
    variable: Variable,
    before: usize,
}

/// The names that are known as locals, in the order of the text.
#[derive(Drop)]
pub struct Names {
    kept: Vec<Kept>,
    known: OwnedTextSet,
}

impl Model for Names {
    ghost use Rattle.std.specs.Prelude as prelude;
    ghost use Rattle.parser_ahead.specs.declared.names.Variable.{Variable};
    ghost use Rattle.parser_ahead.specs.Kept as keeping;

    ghost Value = { prelude.List Variable };

    ghost view = { λ n. keeping.variables n.kept.items };

    ghost invariant = { λ n. keeping.AreKnown n.kept.items n.known };
}

fn locals_of(alloc: Global, kept: &[Kept]) -> Result<List<Bytes>, AllocError>
    ensures { IfOk result (λ l. l ≡ naming.locals_of (keeping.variables kept.now)) }
{
    let mut locals = List::new(alloc);
    for one in kept {
        if !one.variable.parameter {
            locals.push(Bytes::from_slice(alloc, one.variable.name.as_slice())?)?;
        }
    }
    Ok(locals)
}

fn locals_behind(alloc: Global, kept: &[Kept], mark: usize) -> Result<List<Bytes>, AllocError>
    ensures { IfOk result (λ l. l ≡ naming.locals_of (keeping.variables (drop mark kept.now))) }
{
    if mark < kept.len() {
        locals_of(alloc, &kept[mark..])
    } else {
        Ok(List::new(alloc))
    }
}

/// Puts a variable behind the others. Where memory runs out they are as before.
fn keep(
    alloc: Global,
    kept: &mut Vec<Kept>,
    name: &[u8],
    parameter: bool,
    before: usize,
) -> Result<(), AllocError>
    ensures ok { OnOk result (kept.new.items ≡ kept.old.items ++ keeping.one name.now parameter before ∷ []) }
    ensures err { OnErr result (kept.new.items ≡ kept.old.items) }
{
    let name = Bytes::from_slice(alloc, name)?;
    kept.push(Kept {
        variable: Variable { name, parameter },
        before,
    })?;
    Ok(())
}

/// How many different names are known before a place, of so many in all.
#[tactic(auto, using(crate::proofs::Counting::known_front, crate::proofs::Counting::known_all))]
fn count_before(kept: &[Kept], mark: usize, count: usize) -> usize
    ensures { keeping.CountsBefore kept.now mark count result }
{
    match kept.get(mark) {
        Some(first) => first.before,
        None => count,
    }
}

impl Names {
    /// No names: the scope of a method, a class or a module begins so.
    pub fn new(alloc: Global) -> Names
        ensures { result ≡ [] }
    {
        Names {
            kept: Vec::new(alloc),
            known: OwnedTextSet::new(alloc),
        }
    }

    /// Whether the name is known.
    pub fn is_known(&self, name: &[u8]) -> bool
        ensures { result ≡ naming.is_known name.now self.now }
    {
        self.known.contains(name)
    }

    /// How many names are known.
    pub fn len(&self) -> usize
        ensures { result ≡ length self.now }
    {
        self.kept.len()
    }

    /// Whether no name is known.
    pub fn is_empty(&self) -> bool
        ensures { result ≡ (length self.now == 0) }
    {
        self.kept.is_empty()
    }

    /// A name that is known from here on: a parameter, or a variable of a block alone.
    pub fn declare(&mut self, alloc: Global, name: &[u8], parameter: bool) -> Result<(), AllocError>
        ensures { OnOk result (self.new ≡ naming.declared self.old name.now parameter) }
    {
        let before = self.known.len();
        self.known.add(alloc, name)?;
        match keep(alloc, &mut self.kept, name, parameter, before) {
            Ok(()) => Ok(()),
            Err(AllocError) => {
                self.known.truncate(before);
                Err(AllocError)
            }
        }
    }

    /// A name that an assignment begins, where it isn't known already.
    pub fn learn(&mut self, alloc: Global, name: &[u8]) -> Result<(), AllocError>
        ensures { OnOk result (self.new ≡ naming.learned self.old name.now) }
    {
        if self.is_known(name) {
            return Ok(());
        }
        self.declare(alloc, name, false)
    }

    /// The names from this one on that are no parameters.
    pub fn locals_from(&self, alloc: Global, mark: usize) -> Result<List<Bytes>, AllocError>
        ensures { IfOk result (λ l. l ≡ naming.locals_from mark self.now) }
    {
        locals_behind(alloc, &self.kept, mark)
    }

    /// Forgets the names from this one on.
    #[tactic(auto, using(crate::proofs::Counting::variables_front))]
    pub fn forget_from(&mut self, mark: usize)
        ensures { self.new ≡ take mark self.old }
    {
        let before = count_before(&self.kept, mark, self.known.len());
        self.known.truncate(before);
        self.kept.truncate(mark);
    }
}
