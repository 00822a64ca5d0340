//! Registers by the names of their locals.
ghost use Rattle.std.specs.Prelude.{◌≡◌, [], bytes_eq, OnOk};
ghost use Rattle.std.specs.Map.{lookup};
ghost use Rattle.scope_resolver.specs.Registers.{shown, with_name};

use indexmap::IndexMap;
use std::alloc::{AllocError, Global};
use std::marker::Model;

/// Registers by the names of their locals, in the order in which the names came.
#[derive(Drop)]
pub struct Registers<'a> {
    named: IndexMap<&'a [u8], u64>,
}

impl<'a> Model for Registers<'a> {
    ghost use Rattle.std.specs.Prelude as prelude;
    ghost use Rattle.scope_resolver.specs.Registers as registers;

    ghost Value = { registers.Named };

    ghost view = { λ r. registers.shown r.named.entries };
}

impl<'a> Registers<'a> {
    /// No registers. It takes no memory.
    pub fn new(alloc: Global) -> Registers<'a>
        ensures { result ≡ [] }
    {
        Registers {
            named: IndexMap::new(alloc),
        }
    }

    /// The register of a name.
    pub fn get(&self, name: &[u8]) -> Option<u64>
        ensures { result ≡ lookup (bytes_eq name.now) self.now }
    {
        self.named.get(name).copied()
    }

    /// Gives a name a register, where it has none.
    pub fn add(&mut self, name: &'a [u8], register: u64) -> Result<(), AllocError>
        ensures { OnOk result (self.new ≡ with_name self.old name.now register) }
    {
        if self.named.contains_key(name) {
            return Ok(());
        }
        self.named.insert(name, register)?;
        Ok(())
    }
}
