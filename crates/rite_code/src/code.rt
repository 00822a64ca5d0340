//! A compiled program, as the file holds it.
use rb_base::{Bytes, List};
use std::marker::Model;

/// The instructions from `begin` up to but not including `end` that an exit leaves at `target`:
/// exceptions alone, or every exit where it is no rescue entry.
#[derive(Clone, Copy, Debug, PartialEq, Eq)]
pub struct CatchEntry {
    pub rescue: bool,
    pub begin: u32,
    pub end: u32,
    pub target: u32,
}

/// An entry of a constant pool.
#[derive(Debug, Drop)]
pub enum PoolItem {
    Int(i64),
    Text(Bytes),
}

/// A body: the main program, a function, or the body of a class or module.
#[derive(Debug, Drop)]
pub struct Irep {
    /// The registers of self, the parameters and the named locals.
    pub locals: u16,
    /// All registers.
    pub registers: u16,
    pub code: Bytes,
    pub catches: List<CatchEntry>,
    pub pool: List<PoolItem>,
    pub symbols: List<Bytes>,
    /// The numbers of the bodies inside this one.
    pub children: List<u32>,
}

/// A program: the bodies depth first, of which number 0 is the main program. It is whole: within the bounds of
/// a file (docs/formats.md), with each body but the first a child of one that stands before it.
#[derive(Debug, Drop)]
pub struct Code {
    version: u8,
    bodies: List<Irep>,
}

impl Model for Code {
    ghost use Rattle.rite_code.specs.Code.{Program, IsWhole};

    ghost Value = { Program };

    ghost view = { λ c. record { version = c.version; bodies = c.bodies } };

    ghost invariant = { λ c. IsWhole (record { version = c.version; bodies = c.bodies }) };
}

impl Code {
    ghost use Rattle.std.specs.Prelude.{◌≡◌};
    ghost use Rattle.rite_code.specs.Code.{program, IsWhole};

    /// The program of these bodies.
    pub fn new(version: u8, bodies: List<Irep>) -> Code
        requires { IsWhole (program version bodies) }
        ensures { result ≡ program version bodies }
    {
        Code { version, bodies }
    }

    /// 1 or 2: version 2 has the wide instructions.
    pub fn version(&self) -> u8
        ensures value { result ≡ self.now.version }
        ensures whole { IsWhole self.now }
    {
        self.version
    }

    /// The bodies, depth first.
    pub fn bodies(&self) -> &[Irep]
        ensures value { result.now ≡ self.now.bodies }
        ensures whole { IsWhole self.now }
    {
        self.bodies.as_slice()
    }
}
