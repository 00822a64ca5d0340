//! Pairs in a list, which is searched from its front.
ghost use Rattle.std.specs.Prelude.{◌≡◌, ◌<◌, ◌++◌, ◌∷◌, [], length, drop, map, position, slice_get, Some, option_copied, IfOk, IfSome, OnOk, OnErr};
ghost use Rattle.std.specs.Map.{lookup, remove_entry, values_of};
ghost use Rattle.indexmap.specs.IndexMap.{insert_entry, set_value_at};
ghost use Rattle.pair_table.specs.Pairs.{ApartBy};

use std::alloc::AllocError;
use std::mem;

/// The place of a key.
#[inline]
pub(crate) fn place_in<K: Eq, V>(pairs: &[(K, V)], key: &K) -> Option<usize>
    ensures place { result ≡ position (K.eq key.now) (map (λ p. p.0) pairs.now) }
    ensures within { IfSome result (λ place. place < length pairs.now) }
{
    pairs.iter().position(|pair| *key == pair.0)
}

/// The value of a key.
#[inline]
pub(crate) fn value_in<'a, K: Eq, V>(pairs: &'a [(K, V)], key: &K) -> Option<&'a V>
    ensures { option_copied result ≡ lookup (K.eq key.now) pairs.now }
{
    match place_in(pairs, key) {
        Some(place) => Some(&pairs[place].1),
        None => None,
    }
}

/// Puts a value in the place of another, and hands that back.
fn replace_at<K, V>(pairs: &mut [(K, V)], place: usize, value: V) -> V
    requires { place < length pairs.old }
    ensures before { slice_get (values_of pairs.old) place ≡ Some result }
    ensures pairs { pairs.new ≡ set_value_at pairs.old place value }
{
    mem::replace(&mut pairs[place].1, value)
}

/// Puts a pair last. Memory is taken for one, four or eight. Where it runs out all is as before.
fn push_last<K, V>(pairs: &mut Vec<(K, V)>, key: K, value: V) -> Result<(), AllocError>
where
    K: Drop,
    V: Drop,
    ensures ok { OnOk result (pairs.new.items ≡ pairs.old.items ++ (key, value) ∷ []) }
    ensures err { OnErr result (pairs.new.items ≡ pairs.old.items) }
{
    if pairs.len() == pairs.capacity() {
        let more = match pairs.len() {
            0 => 1,
            1 => 3,
            _ => 4,
        };
        pairs.reserve_exact(more)?;
    }
    pairs.push((key, value))?;
    Ok(())
}

/// Gives a key a value, and hands back the one that it had. A key that is there keeps its place, and a new one goes
/// last. Where memory runs out all is as before.
pub(crate) fn put<K: Eq, V>(
    pairs: &mut Vec<(K, V)>,
    key: K,
    value: V,
) -> Result<Option<V>, AllocError>
where
    K: Drop,
    V: Drop,
    requires { ApartBy K.eq pairs.old.items }
    ensures before { IfOk result (λ before. before ≡ lookup (K.eq key) pairs.old.items) }
    ensures ok { OnOk result (pairs.new.items ≡ insert_entry K.eq pairs.old.items key value) }
    ensures err { OnErr result (pairs.new.items ≡ pairs.old.items) }
    ensures apart { ApartBy K.eq pairs.new.items }
{
    match place_in(pairs, &key) {
        Some(place) => Ok(Some(replace_at(pairs, place, value))),
        None => {
            push_last(pairs, key, value)?;
            Ok(None)
        }
    }
}

/// Takes the pair of a key out, and hands its value back. The others keep their order.
pub(crate) fn remove_from<K: Eq, V>(pairs: &mut Vec<(K, V)>, key: &K) -> Option<V>
where
    K: Drop,
    requires { ApartBy K.eq pairs.old.items }
    ensures value { result ≡ lookup (K.eq key.now) pairs.old.items }
    ensures rest { pairs.new.items ≡ remove_entry (K.eq key.now) pairs.old.items }
    ensures apart { ApartBy K.eq pairs.new.items }
{
    match place_in(pairs, key) {
        Some(place) => Some(pairs.remove(place).1),
        None => None,
    }
}

/// Takes the first pair out. The others keep their order.
#[tactic(auto, using(crate::proofs::Apart::apart_behind))]
pub(crate) fn shift_from<K: Eq, V>(pairs: &mut Vec<(K, V)>) -> Option<(K, V)>
    requires { ApartBy K.eq pairs.old.items }
    ensures first { result ≡ slice_get pairs.old.items 0 }
    ensures rest { pairs.new.items ≡ drop 1 pairs.old.items }
    ensures apart { ApartBy K.eq pairs.new.items }
{
    if pairs.is_empty() {
        return None;
    }
    Some(pairs.remove(0))
}
