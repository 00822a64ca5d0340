//! Changes of a Hash.
ghost use Rattle.std.specs.Prelude.{◌≡◌};
ghost use Rattle.rb_value.specs.declared.kind.Sort.TheVariants as sorts;
ghost use Rattle.def_core.specs.Store.{sort_at};
ghost use Rattle.def_core.specs.Sound.{IsGood};

use crate::sorts::{is_a, is_there};
use Change::{Put, Remove};
use key_list::KeyList;
use pair_table::PairTable;
use rb_store::Store;
use rb_value::Value::{Int, Nil, True};
use rb_value::{
    Boxed, CoreClass, HashContents, HashItem, Key, Kind, KindRef, ObjId, Object, Sort, Value,
};
use std::alloc::{AllocError, Global};

/// What is shown as a key, and its value.
type Pair = (Value, Value);

/// A change of a Hash, by the text of a key.
#[derive(Clone, Copy)]
enum Change {
    Put(&'static [u8], Value, Value),
    Remove(&'static [u8]),
}

/// A change, what stood under the key before, and the pairs afterwards.
type Step = (Change, Option<Pair>, &'static [Pair]);

static STEPS: [Step; 10] = [
    (Remove(b"a"), None, &[]),
    (Put(b"a", Int(10), Int(1)), None, &[(Int(10), Int(1))]),
    (
        Put(b"b", Int(20), Int(2)),
        None,
        &[(Int(10), Int(1)), (Int(20), Int(2))],
    ),
    (
        Put(b"", Nil, True),
        None,
        &[(Int(10), Int(1)), (Int(20), Int(2)), (Nil, True)],
    ),
    (
        Put(b"a", Int(40), Int(4)),
        Some((Int(10), Int(1))),
        &[(Int(10), Int(4)), (Int(20), Int(2)), (Nil, True)],
    ),
    (
        Remove(b"b"),
        Some((Int(20), Int(2))),
        &[(Int(10), Int(4)), (Nil, True)],
    ),
    (Remove(b"b"), None, &[(Int(10), Int(4)), (Nil, True)]),
    (
        Put(b"b", Int(50), Int(5)),
        None,
        &[(Int(10), Int(4)), (Nil, True), (Int(50), Int(5))],
    ),
    (
        Remove(b"a"),
        Some((Int(10), Int(4))),
        &[(Nil, True), (Int(50), Int(5))],
    ),
    (
        Put(b"", Int(1), Nil),
        Some((Nil, True)),
        &[(Nil, Nil), (Int(50), Int(5))],
    ),
];

fn text_key(alloc: Global, text: &[u8]) -> Result<Key, AllocError> {
    Ok(Key::Text(KeyList::from_slice(alloc, text)?))
}

fn pair_of(item: Option<HashItem>) -> Option<Pair> {
    match item {
        Some(item) => Some((item.shown, item.value)),
        None => None,
    }
}

/// Changes a Hash, and gives what stood under the key.
fn changed(st: &mut Store, id: ObjId, change: Change) -> Result<Option<Pair>, AllocError>
    requires there { IsGood st.old.store id }
    requires hash { sort_at st.old.store.objects id ≡ sorts.Hash }
{
    match change {
        Put(text, shown, value) => {
            let key = text_key(st.alloc(), text)?;
            let before = pair_of(st.pair(id, &key));
            st.put_pair(id, key, shown, value)?;
            Ok(before)
        }
        Remove(text) => {
            let key = text_key(st.alloc(), text)?;
            Ok(pair_of(st.remove_pair(id, &key)))
        }
    }
}

/// Whether a Hash has these pairs in their order, and no other.
fn has_pairs(st: &Store, id: ObjId, pairs: &[Pair]) -> bool {
    if !is_there(st, id) {
        return false;
    }
    'pairs: for (place, pair) in pairs.iter().enumerate() {
        if pair_of(st.pair_at(id, place)) != Some(*pair) {
            return false;
        }
    }
    st.pair_count(id) == pairs.len()
}

fn is_right(st: &mut Store, id: ObjId, step: Step) -> Result<bool, AllocError> {
    Ok(is_a(st, id, Sort::Hash) && changed(st, id, step.0)? == step.1 && has_pairs(st, id, step.2))
}

fn new_hash(st: &mut Store) -> Result<ObjId, AllocError> {
    let contents = HashContents {
        pairs: PairTable::new(st.alloc()),
        default: Nil,
        block: None,
    };
    let kind = Kind::Hash(Boxed::new(st.alloc(), contents)?);
    st.add(Object::new(st.class_object(CoreClass::Hash), kind))
}

#[test]
fn pairs_as_in_a_list(rt: HostRuntime) -> Result<(), AllocError> {
    let mut st = Store::new(rt.alloc())?;
    let id = new_hash(&mut st)?;
    let other = new_hash(&mut st)?;
    'steps: for step in &STEPS {
        assert!(rt; is_right(&mut st, id, *step)?);
    }
    assert!(rt; has_pairs(&st, other, &[]));
    Ok(())
}

/// What an absent key of a Hash gives.
fn absent_value(st: &Store, id: ObjId) -> Option<Value> {
    if !is_there(st, id) {
        return None;
    }
    match st.get(id).kind() {
        KindRef::Hash(contents) => Some(contents.get().default),
        _ => None,
    }
}

#[test]
fn a_hash_has_a_value_for_what_is_absent(rt: HostRuntime) -> Result<(), AllocError> {
    let mut st = Store::new(rt.alloc())?;
    let id = new_hash(&mut st)?;
    assert!(rt; is_right(&mut st, id, STEPS[1])?);
    assert!(rt; absent_value(&st, id) == Some(Nil));
    assert!(rt; is_a(&st, id, Sort::Hash));
    st.set_absent(id, True, None);
    assert!(rt; absent_value(&st, id) == Some(True));
    assert!(rt; has_pairs(&st, id, STEPS[1].2));
    Ok(())
}
