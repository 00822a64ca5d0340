ghost use Rattle.std.specs.Prelude.{◌≡◌, ◌==◌, ◌<◌, ◌≤◌, [], length, drop, map, position, slice_get, option_copied, option_map, IfOk, IfSome, OnOk, OnErr};
ghost use Rattle.std.specs.Map.{lookup, remove_entry};
ghost use Rattle.indexmap.specs.IndexMap.{insert_entry, spare};
ghost use Rattle.pair_table.specs.Pairs.{ApartBy, shown_pair};

use crate::few;
use crate::hasher::NearHasher;
use indexmap::IndexMap;
use std::alloc::{AllocError, Global};
use std::hash::{BuildHasherDefault, Hash};
use std::marker::Model;
use std::mem;

/// The most pairs that stand in a list.
const MOST: usize = 8;

/// Where pairs stand: up to eight in a list that is searched from its front, and more in a table.
#[derive(Drop)]
pub(crate) enum Form<K: Eq + Hash, V> {
    Few(Vec<(K, V)>),
    Many(Box<IndexMap<K, V, BuildHasherDefault<NearHasher>>>),
}

/// Pairs of a key and a value in the order in which their keys came. No key is there twice.
#[derive(Drop)]
pub struct PairTable<K: Eq + Hash, V> {
    form: Form<K, V>,
}

impl<K: Eq + Hash, V> Model for PairTable<K, V> {
    ghost use Rattle.std.specs.Prelude as prelude;
    ghost use Rattle.pair_table.specs.Pairs.{pairs_in, ApartBy};

    ghost Value = { prelude.List (K × V) };

    ghost view = { λ t. pairs_in t.form };

    ghost invariant = { λ t. ApartBy K.eq (pairs_in t.form) };
}

/// Puts pairs into an empty table that has room for them.
fn fill<K: Eq + Hash, V>(
    table: &mut IndexMap<K, V, BuildHasherDefault<NearHasher>>,
    pairs: Vec<(K, V)>,
)
where
    K: Drop,
    V: Drop,
    requires apart { ApartBy K.eq pairs.items }
    requires empty { table.old.entries ≡ [] }
    requires room { length pairs.items ≤ spare table.old }
    ensures { table.new.entries ≡ pairs.items }
{
    'pairs: for pair in pairs {
        let (key, value) = pair;
        table.insert(key, value).unwrap();
    }
}

/// A table of the pairs of a list, which it empties, with room for one more. Where memory runs out all is as before.
fn table_of<K: Eq + Hash, V>(
    pairs: &mut Vec<(K, V)>,
) -> Result<Box<IndexMap<K, V, BuildHasherDefault<NearHasher>>>, AllocError>
where
    K: Drop,
    V: Drop,
    requires { ApartBy K.eq pairs.old.items }
    ensures ok { IfOk result (λ table. table.value.entries ≡ pairs.old.items) }
    ensures err { OnErr result (pairs.new.items ≡ pairs.old.items) }
{
    let alloc = *pairs.allocator();
    let room = pairs.len() + 1;
    let table = IndexMap::with_capacity_and_hasher(alloc, room, BuildHasherDefault::new())?;
    let mut table = Box::new(alloc, table)?;
    fill(&mut table, mem::replace(pairs, Vec::new(alloc)));
    Ok(table)
}

impl<K: Eq + Hash, V> PairTable<K, V> {
    /// No pairs. It takes no memory.
    pub fn new(alloc: Global) -> PairTable<K, V>
        ensures { result ≡ [] }
    {
        PairTable {
            form: Form::Few(Vec::new(alloc)),
        }
    }

    /// How many pairs there are.
    pub fn len(&self) -> usize
        ensures { result ≡ length self.now }
    {
        match &self.form {
            Form::Few(pairs) => pairs.len(),
            Form::Many(table) => table.len(),
        }
    }

    /// Whether there are none.
    pub fn is_empty(&self) -> bool
        ensures { result ≡ (length self.now == 0) }
    {
        self.len() == 0
    }

    /// The value of a key.
    pub fn get(&self, key: &K) -> Option<&V>
        ensures { option_copied result ≡ lookup (K.eq key.now) self.now }
    {
        match &self.form {
            Form::Few(pairs) => few::value_in(pairs, key),
            Form::Many(table) => table.get(key),
        }
    }

    /// The place of a key in the order.
    pub fn place_of(&self, key: &K) -> Option<usize>
        ensures place { result ≡ position (K.eq key.now) (map (λ p. p.0) self.now) }
        ensures within { IfSome result (λ place. place < length self.now) }
    {
        match &self.form {
            Form::Few(pairs) => few::place_in(pairs, key),
            Form::Many(table) => table.get_index_of(key),
        }
    }

    /// The pair at a place in the order.
    pub fn pair_at(&self, place: usize) -> Option<(&K, &V)>
        ensures { option_map shown_pair result ≡ slice_get self.now place }
    {
        match &self.form {
            Form::Few(pairs) => {
                let (key, value) = pairs.get(place)?;
                Some((key, value))
            }
            Form::Many(table) => table.get_index(place),
        }
    }

    /// Moves the pairs into a table where they are eight and the key isn't among them. Where memory runs out all is as
    /// before.
    fn make_room(&mut self, key: &K) -> Result<(), AllocError>
    where
        K: Drop,
        V: Drop,
        ensures { self.new ≡ self.old }
    {
        if let Form::Few(pairs) = &mut self.form {
            if pairs.len() == MOST && few::place_in(pairs, key).is_none() {
                self.form = Form::Many(table_of(pairs)?);
            }
        }
        Ok(())
    }

    /// Gives a key a value, and hands back the one that it had. A key that is there keeps its place, and a new one goes
    /// last. Where memory runs out all is as before.
    pub fn insert(&mut self, key: K, value: V) -> Result<Option<V>, AllocError>
    where
        K: Drop,
        V: Drop,
        ensures before { IfOk result (λ before. before ≡ lookup (K.eq key) self.old) }
        ensures ok { OnOk result (self.new ≡ insert_entry K.eq self.old key value) }
        ensures err { OnErr result (self.new ≡ self.old) }
    {
        self.make_room(&key)?;
        match &mut self.form {
            Form::Few(pairs) => few::put(pairs, key, value),
            Form::Many(table) => Ok(table.insert(key, value)?),
        }
    }

    /// Takes the pair of a key out, and hands its value back. The others keep their order.
    pub fn remove(&mut self, key: &K) -> Option<V>
    where
        K: Drop,
        ensures value { result ≡ lookup (K.eq key.now) self.old }
        ensures rest { self.new ≡ remove_entry (K.eq key.now) self.old }
    {
        match &mut self.form {
            Form::Few(pairs) => few::remove_from(pairs, key),
            Form::Many(table) => table.shift_remove(key),
        }
    }

    /// Takes the first pair out. The others keep their order.
    pub fn shift(&mut self) -> Option<(K, V)>
        ensures first { result ≡ slice_get self.old 0 }
        ensures rest { self.new ≡ drop 1 self.old }
    {
        match &mut self.form {
            Form::Few(pairs) => few::shift_from(pairs),
            Form::Many(table) => table.shift_remove_index(0),
        }
    }
}
