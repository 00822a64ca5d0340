//! Changes of classes, Hashes, Procs and fibers, in place.
ghost use Rattle.std.specs.Prelude.{◌≡◌, true, Some, nat_eq, OnOk, OnErr};
ghost use Rattle.indexmap.specs.IndexMap.{insert_entry};
ghost use Rattle.rb_value.specs.Contents.{contents_of, hash_in, sent, ended};
ghost use Rattle.rb_value.specs.Hash as hashes;
ghost use Rattle.rb_value.specs.MethodTable.{with_entry, without_entry};
ghost use Rattle.rb_value.specs.Sending.{sent_to};
ghost use Rattle.rb_value.specs.Object.{with_class, with_hash, with_kind};
ghost use Rattle.rb_value.specs.Sort.{sort_of, is_class};
ghost use Rattle.rb_value.specs.declared.kind.Sort.TheVariants as sorts;

use crate::hash::{HashContents, HashItem, put_pair};
use crate::held::Held;
use crate::key::Key;
use crate::kind::Kind;
use crate::method::{MethodEntry, Visibility};
use crate::object::Object;
use crate::procs::ProcContents;
use crate::value::{ObjId, SymId, Value};
use pair_table::PairTable;
use rb_base::List;
use std::alloc::AllocError;

/// Puts a constant in the place of what the name had, or at the end. Where memory runs out all is as before.
fn constant_put(
    constants: &mut PairTable<u64, Value>,
    name: SymId,
    value: Value,
) -> Result<(), AllocError>
    ensures ok { OnOk result (constants.new ≡ insert_entry nat_eq constants.old name.0 value) }
    ensures err { OnErr result (constants.new ≡ constants.old) }
{
    constants.insert(name.0, value)?;
    Ok(())
}

/// Sets what an absent key gives.
fn set_absent(contents: &mut HashContents, default: Value, block: Option<ObjId>)
    ensures { contents.new ≡ record contents.old { default = default; block = block } }
{
    contents.default = default;
    contents.block = block;
}

/// Notes that a Proc was the block of a call.
fn send(contents: &mut ProcContents, activation: Option<u64>)
    ensures { contents.new ≡ record contents.old { sending = sent_to contents.old.sending activation } }
{
    contents.sending = contents.sending.sent_to(activation);
}

impl Object {
    /// Puts a method into the list of a class or module. Where memory runs out all is as before.
    pub fn put_method(&mut self, name: SymId, entry: MethodEntry) -> Result<(), AllocError>
        requires { is_class (sort_of self.old.kind) ≡ true }
        ensures ok { OnOk result (self.new ≡ with_class self.old
            (record (contents_of self.old.kind)
            { methods = with_entry (contents_of self.old.kind).methods name entry })) }
        ensures err { OnErr result (self.new ≡ self.old) }
    {
        match &mut self.held {
            Held::Class(contents) => contents.get_mut().methods.set(name, entry),
            Held::Rich(rich) => match &mut rich.get_mut().kind {
                Kind::Class(contents) => contents.get_mut().methods.set(name, entry),
                _ => unreachable!(),
            },
            _ => unreachable!(),
        }
    }

    /// Takes a method out of the list of a class or module.
    pub fn remove_method(&mut self, name: SymId)
        requires { is_class (sort_of self.old.kind) ≡ true }
        ensures { self.new ≡ with_class self.old
            (record (contents_of self.old.kind) { methods = without_entry (contents_of self.old.kind).methods name }) }
    {
        match &mut self.held {
            Held::Class(contents) => {
                let _entry = contents.get_mut().methods.remove(name);
            },
            Held::Rich(rich) => match &mut rich.get_mut().kind {
                Kind::Class(contents) => {
                    let _entry = contents.get_mut().methods.remove(name);
                },
                _ => unreachable!(),
            },
            _ => unreachable!(),
        }
    }

    /// Sets the visibility of the next methods of a class or module.
    pub fn set_visibility(&mut self, visibility: Visibility)
        requires { is_class (sort_of self.old.kind) ≡ true }
        ensures { self.new ≡ with_class self.old (record (contents_of self.old.kind) { visibility = visibility }) }
    {
        match &mut self.held {
            Held::Class(contents) => contents.get_mut().visibility = visibility,
            Held::Rich(rich) => match &mut rich.get_mut().kind {
                Kind::Class(contents) => contents.get_mut().visibility = visibility,
                _ => unreachable!(),
            },
            _ => unreachable!(),
        }
    }

    /// Puts a constant into a class or module: one that is there keeps its place, and a new one goes last. Where memory
    /// runs out all is as before.
    pub fn put_constant(&mut self, name: SymId, value: Value) -> Result<(), AllocError>
        requires { is_class (sort_of self.old.kind) ≡ true }
        ensures ok { OnOk result (self.new ≡ with_class self.old
            (record (contents_of self.old.kind)
            { constants = insert_entry nat_eq (contents_of self.old.kind).constants name.0 value })) }
        ensures err { OnErr result (self.new ≡ self.old) }
    {
        match &mut self.held {
            Held::Class(contents) => constant_put(&mut contents.get_mut().constants, name, value),
            Held::Rich(rich) => match &mut rich.get_mut().kind {
                Kind::Class(contents) => constant_put(
                    &mut contents.get_mut().constants,
                    name,
                    value,
                ),
                _ => unreachable!(),
            },
            _ => unreachable!(),
        }
    }

    /// Sets the included modules of a class or module.
    pub fn set_included(&mut self, included: List<ObjId>)
        requires { is_class (sort_of self.old.kind) ≡ true }
        ensures { self.new ≡ with_class self.old (record (contents_of self.old.kind) { included = included }) }
    {
        match &mut self.held {
            Held::Class(contents) => contents.get_mut().included = included,
            Held::Rich(rich) => match &mut rich.get_mut().kind {
                Kind::Class(contents) => contents.get_mut().included = included,
                _ => unreachable!(),
            },
            _ => unreachable!(),
        }
    }

    /// Gives a class or module a name.
    pub fn set_name(&mut self, name: SymId)
        requires { is_class (sort_of self.old.kind) ≡ true }
        ensures { self.new ≡ with_class self.old (record (contents_of self.old.kind) { name = Some name }) }
    {
        match &mut self.held {
            Held::Class(contents) => contents.get_mut().name = Some(name),
            Held::Rich(rich) => match &mut rich.get_mut().kind {
                Kind::Class(contents) => contents.get_mut().name = Some(name),
                _ => unreachable!(),
            },
            _ => unreachable!(),
        }
    }

    /// Gives a key of a Hash a value. A key that is there keeps its place and what is shown as the key, and a new one goes
    /// last. Where memory runs out all is as before.
    pub fn put_pair(&mut self, key: Key, shown: Value, value: Value) -> Result<(), AllocError>
        requires { sort_of self.old.kind ≡ sorts.Hash }
        ensures ok { OnOk result (self.new ≡ with_hash self.old
            (record (hash_in self.old.kind)
            { pairs = hashes.with_pair (hash_in self.old.kind).pairs key shown value })) }
        ensures err { OnErr result (self.new ≡ self.old) }
    {
        match &mut self.held {
            Held::Hash(contents) => put_pair(&mut contents.get_mut().pairs, key, shown, value),
            Held::Rich(rich) => match &mut rich.get_mut().kind {
                Kind::Hash(contents) => put_pair(&mut contents.get_mut().pairs, key, shown, value),
                _ => unreachable!(),
            },
            _ => unreachable!(),
        }
    }

    /// Takes the pair of a key out of a Hash, and hands it back. The others keep their order.
    pub fn remove_pair(&mut self, key: &Key) -> Option<HashItem>
        requires { sort_of self.old.kind ≡ sorts.Hash }
        ensures item { result ≡ hashes.item_of (hash_in self.old.kind).pairs key.now }
        ensures rest { self.new ≡ with_hash self.old
            (record (hash_in self.old.kind) { pairs = hashes.without_key (hash_in self.old.kind).pairs key.now }) }
    {
        match &mut self.held {
            Held::Hash(contents) => contents.get_mut().pairs.remove(key),
            Held::Rich(rich) => match &mut rich.get_mut().kind {
                Kind::Hash(contents) => contents.get_mut().pairs.remove(key),
                _ => unreachable!(),
            },
            _ => unreachable!(),
        }
    }

    /// Sets what an absent key of a Hash gives.
    pub fn set_absent(&mut self, default: Value, block: Option<ObjId>)
        requires { sort_of self.old.kind ≡ sorts.Hash }
        ensures { self.new ≡ with_hash self.old (record (hash_in self.old.kind) { default = default; block = block }) }
    {
        match &mut self.held {
            Held::Hash(contents) => set_absent(contents.get_mut(), default, block),
            Held::Rich(rich) => match &mut rich.get_mut().kind {
                Kind::Hash(contents) => set_absent(contents.get_mut(), default, block),
                _ => unreachable!(),
            },
            _ => unreachable!(),
        }
    }

    /// Notes that a Proc was the block of a call that opened that activation, or none; another object stays as it is.
    pub fn send(&mut self, activation: Option<u64>)
        ensures { self.new ≡ with_kind self.old (sent self.old.kind activation) }
    {
        match &mut self.held {
            Held::Proc(contents) => send(contents.get_mut(), activation),
            Held::Rich(rich) => match &mut rich.get_mut().kind {
                Kind::Proc(contents) => send(contents.get_mut(), activation),
                _ => {}
            },
            _ => {}
        }
    }

    /// Notes that a fiber has ended.
    pub fn end(&mut self)
        requires { sort_of self.old.kind ≡ sorts.Fiber }
        ensures { self.new ≡ with_kind self.old (ended self.old.kind) }
    {
        match &mut self.held {
            Held::Fiber { block: _, ended } => *ended = true,
            Held::Rich(rich) => match &mut rich.get_mut().kind {
                Kind::Fiber { block: _, ended } => *ended = true,
                _ => unreachable!(),
            },
            _ => unreachable!(),
        }
    }
}
