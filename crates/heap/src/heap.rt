//! The heap.
ghost use Rattle.std.specs.Prelude.{◌≡◌, IfOk};
ghost use Rattle.rb_value.specs.declared.value.Value.TheVariants.{Obj};
ghost use Rattle.def_core.specs.Store.{core};
ghost use Rattle.rb_store.specs.Opening as opening;

use method_lookup::{Cache, new_cache};
use rb_base::Steps;
use rb_store::Store;
use rb_value::{CoreClass, ObjId, Value};
use run_definitions::EnclosingLists;
use std::alloc::{AllocError, Global};
use std::marker::Model;

/// The store, the lists of enclosing classes, the cache of the search for methods, how many classes and modules the
/// searches asked, and how often a constant was set.
#[derive(Drop)]
pub struct Heap {
    pub(crate) st: Store,
    pub(crate) lists: EnclosingLists,
    pub(crate) cache: Cache,
    pub(crate) steps: Steps,
    pub(crate) constants: u64,
}

impl Model for Heap {
    ghost use Rattle.rb_store.specs.Held.{Held};

    ghost Value = { Held };

    ghost use Rattle.heap.specs.Whole.{IsWhole};

    ghost view = { λ h. h.st };

    ghost invariant = { λ h. IsWhole h.st h.lists h.cache };
}

impl Heap {
    /// A heap with the core classes, the main object, and the core methods of the table of rows.
    pub fn new(alloc: Global) -> Result<Heap, AllocError>
        ensures store { IfOk result (λ heap. heap.store ≡ opening.opening) }
        ensures changes { IfOk result (λ heap. heap.changes ≡ 0) }
    {
        Ok(Heap {
            st: Store::new(alloc)?,
            lists: EnclosingLists::new(alloc),
            cache: new_cache(alloc),
            steps: Steps::new(),
            constants: 0,
        })
    }

    /// The allocator.
    #[inline(always)]
    pub fn alloc(&self) -> Global {
        self.st.alloc()
    }

    /// The main object.
    pub fn main_object(&self) -> Value
        ensures { result ≡ Obj opening.main_object }
    {
        Value::Obj(self.st.main_object())
    }

    /// The number of the object of a core class.
    #[inline(always)]
    pub fn class_object(&self, class: CoreClass) -> ObjId
        ensures { result ≡ core class }
    {
        self.st.class_object(class)
    }

    /// The number of changes of classes and modules, which rises where one may find methods differently.
    #[inline(always)]
    pub fn changes(&self) -> u64
        ensures { result ≡ self.now.changes }
    {
        self.st.changes()
    }

    /// How often a constant was set that is no class or module of its own definition. Where this and the number of changes
    /// of classes and modules stayed, and are below 2^64 - 1, a name means the constant that it meant before.
    #[inline(always)]
    pub fn constant_changes(&self) -> u64 {
        self.constants
    }

    /// How many classes and modules the searches for methods asked.
    pub fn probes(&self) -> u64 {
        self.steps.count()
    }
}
