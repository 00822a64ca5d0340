//! What Hashes hold.
ghost use Rattle.std.specs.Prelude.{◌≡◌, OnOk, OnErr};
ghost use Rattle.rb_value.specs.Hash as hashes;

use crate::key::Key;
use crate::value::{ObjId, Value};
use pair_table::PairTable;
use std::alloc::AllocError;

/// What stands under a key of a Hash: the value that is shown as the key, and the value.
#[derive(Clone, Copy, Debug, PartialEq, Eq)]
pub struct HashItem {
    pub shown: Value,
    pub value: Value,
}

/// The contents of a Hash: its pairs in the order of insertion, and what an absent key gives.
#[derive(Drop)]
pub struct HashContents {
    pub pairs: PairTable<Key, HashItem>,
    pub default: Value,
    /// A Proc that is called for an absent key.
    pub block: Option<ObjId>,
}

/// What stays shown as the key where a value is put under it.
fn shown_as(pairs: &PairTable<Key, HashItem>, key: &Key, shown: Value) -> Value
    ensures { result ≡ hashes.shown_as (hashes.item_of pairs.now key.now) shown }
{
    match pairs.get(key) {
        Some(item) => item.shown,
        None => shown,
    }
}

/// Gives a key a value. A key that is there keeps its place and what is shown as the key, and a new one goes last. Where
/// memory runs out the pairs are as before.
pub fn put_pair(
    pairs: &mut PairTable<Key, HashItem>,
    key: Key,
    shown: Value,
    value: Value,
) -> Result<(), AllocError>
    ensures ok { OnOk result (pairs.new ≡ hashes.with_pair pairs.old key shown value) }
    ensures err { OnErr result (pairs.new ≡ pairs.old) }
{
    let shown = shown_as(pairs, &key, shown);
    pairs.insert(key, HashItem { shown, value })?;
    Ok(())
}
