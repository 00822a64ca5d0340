//! The methods of a class by their names.
ghost use Rattle.std.specs.Prelude.{◌≡◌, [], length, nat_eq, slice_get, OnOk, OnErr};
ghost use Rattle.std.specs.Map.{lookup};
ghost use Rattle.rb_value.specs.MethodTable.{with_entry, without_entry};

use crate::method::MethodEntry;
use crate::value::SymId;
use indexmap::IndexMap;
use std::alloc::{AllocError, Global};
use std::marker::Model;

/// The methods of a class, seen as the list of the numbers of their names with their entries, in the order in which
/// the names came. No name is there twice.
#[derive(Drop)]
pub struct MethodTable {
    entries: IndexMap<u64, MethodEntry>,
}

impl Model for MethodTable {
    ghost use Rattle.std.specs.Prelude.{List, ℕ};
    ghost use Rattle.rb_value.specs.declared.method.MethodEntry.{MethodEntry};

    ghost Value = { List (ℕ × MethodEntry) };

    ghost view = { λ t. t.entries.entries };
}

impl MethodTable {
    /// No methods. It takes no memory.
    pub fn new(alloc: Global) -> MethodTable
        ensures { result ≡ [] }
    {
        MethodTable {
            entries: IndexMap::new(alloc),
        }
    }

    /// The entry of that name.
    pub fn get(&self, name: SymId) -> Option<MethodEntry>
        ensures { result ≡ lookup (nat_eq name.0) self.now }
    {
        self.entries.get(&name.0).copied()
    }

    /// Puts an entry in the place of what the name had, or at the end. Where memory runs out all is as before.
    pub fn set(&mut self, name: SymId, entry: MethodEntry) -> Result<(), AllocError>
        ensures ok { OnOk result (self.new ≡ with_entry self.old name entry) }
        ensures err { OnErr result (self.new ≡ self.old) }
    {
        self.entries.insert(name.0, entry)?;
        Ok(())
    }

    /// Takes the entry of that name out. It takes no memory.
    pub fn remove(&mut self, name: SymId) -> Option<MethodEntry>
        ensures entry { result ≡ lookup (nat_eq name.0) self.old }
        ensures rest { self.new ≡ without_entry self.old name }
    {
        self.entries.shift_remove(&name.0)
    }
}
