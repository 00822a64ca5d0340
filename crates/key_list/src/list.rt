ghost use Rattle.std.specs.Prelude.{◌≡◌, IfOk};
ghost use Rattle.std.specs.Cmp.Lexicographic.{pointwise, lists_per, lists_equiv};
ghost use Rattle.std.specs.Hash as fed;
ghost use Rattle.std.specs.Hash.{items_Alike};

use std::alloc::{AllocError, Global};
use std::hash::{Hash, Hasher};
use std::marker::Model;

/// Values in order, seen as their list.
#[derive(Debug, Drop)]
pub struct KeyList<T> {
    items: Vec<T>,
}

impl<T> Model for KeyList<T> {
    ghost use Rattle.std.specs.Prelude as prelude;

    ghost Value = { prelude.List T };

    ghost view = { λ l. l.items.items };
}

impl<T> KeyList<T> {
    /// The list of a vector's values. It takes no memory.
    pub fn from_vec(items: Vec<T>) -> KeyList<T>
        ensures { result ≡ items.items }
    {
        KeyList { items }
    }

    /// The values as a vector. It takes no memory.
    pub fn into_vec(self) -> Vec<T>
        ensures { result.items ≡ self }
    {
        self.items
    }

    /// The values as a slice.
    pub fn as_slice(&self) -> &[T]
        ensures { result.now ≡ self.now }
    {
        &self.items
    }
}

impl<T: Copy> KeyList<T> {
    /// A copy of the values.
    pub fn from_slice(alloc: Global, values: &[T]) -> Result<KeyList<T>, AllocError>
        ensures { IfOk result (λ list. list ≡ values.now) }
    {
        Ok(KeyList {
            items: Vec::from_slice(alloc, values)?,
        })
    }
}

impl<T: PartialEq> PartialEq for KeyList<T> {
    ghost eq = { pointwise T.eq };

    ghost laws = { lists_per T.laws };

    // A call of its own, so that keys of other kinds are compared in place.
    #[inline(never)]
    fn eq(&self, other: &KeyList<T>) -> bool {
        self.as_slice() == other.as_slice()
    }
}

impl<T: Eq> Eq for KeyList<T> {
    ghost laws = { lists_equiv T.Eq.laws };
}

impl<T: Hash> Hash for KeyList<T> {
    ghost hash_input = { fed.slice T.hash_input };

    ghost respects_eq = { (items_Alike (record { fed = T.respects_eq })).fed };

    fn hash<H: Hasher>(&self, state: &mut H) {
        self.as_slice().hash(state);
    }
}
