//! Parts of what objects hold, to be read.
ghost use Rattle.std.specs.Prelude.{◌≡◌, length, slice_get, option_map};
ghost use Rattle.rb_value.specs.Contents.{contents_of, hash_in, proc_in};
ghost use Rattle.rb_value.specs.Hash as hashes;

use crate::hash::{HashContents, HashItem};
use crate::held::Held;
use crate::key::Key;
use crate::kind::Kind;
use crate::object::Object;
use crate::procs::ProcContents;
use crate::value::ObjId;

/// What stands under a key.
fn item_of(contents: &HashContents, key: &Key) -> Option<HashItem>
    ensures { result ≡ hashes.item_of contents.now.pairs key.now }
{
    contents.pairs.get(key).copied()
}

/// What stands at a place among the pairs.
fn item_at(contents: &HashContents, place: usize) -> Option<HashItem>
    ensures { result ≡ option_map (λ p. p.1) (slice_get contents.now.pairs place) }
{
    match contents.pairs.pair_at(place) {
        Some((_, item)) => Some(*item),
        None => None,
    }
}

impl Object {
    /// What stands under a key of a Hash; nothing in any other object.
    pub fn pair(&self, key: &Key) -> Option<HashItem>
        ensures { result ≡ hashes.item_of (hash_in self.now.kind).pairs key.now }
    {
        match &self.held {
            Held::Hash(contents) => item_of(contents.get(), key),
            Held::Rich(rich) => match &rich.get().kind {
                Kind::Hash(contents) => item_of(contents.get(), key),
                _ => None,
            },
            _ => None,
        }
    }

    /// What stands at a place among the pairs of a Hash.
    pub fn pair_at(&self, place: usize) -> Option<HashItem>
        ensures { result ≡ option_map (λ p. p.1) (slice_get (hash_in self.now.kind).pairs place) }
    {
        match &self.held {
            Held::Hash(contents) => item_at(contents.get(), place),
            Held::Rich(rich) => match &rich.get().kind {
                Kind::Hash(contents) => item_at(contents.get(), place),
                _ => None,
            },
            _ => None,
        }
    }

    /// How many pairs a Hash has; none has any other object.
    pub fn pair_count(&self) -> usize
        ensures { result ≡ length (hash_in self.now.kind).pairs }
    {
        match &self.held {
            Held::Hash(contents) => contents.get().pairs.len(),
            Held::Rich(rich) => match &rich.get().kind {
                Kind::Hash(contents) => contents.get().pairs.len(),
                _ => 0,
            },
            _ => 0,
        }
    }

    /// The superclass of a class; none of any other object.
    pub fn superclass(&self) -> Option<ObjId>
        ensures { result ≡ (contents_of self.now.kind).superclass }
    {
        match &self.held {
            Held::Class(contents) => contents.get().superclass,
            Held::Rich(rich) => match &rich.get().kind {
                Kind::Class(contents) => contents.get().superclass,
                _ => None,
            },
            _ => None,
        }
    }

    /// What a Proc with a body holds.
    pub fn proc(&self) -> Option<&ProcContents>
        ensures { option_map (λ p. p.now) result ≡ proc_in self.now.kind }
    {
        match &self.held {
            Held::Proc(contents) => Some(contents.get()),
            Held::Rich(rich) => match &rich.get().kind {
                Kind::Proc(contents) => Some(contents.get()),
                _ => None,
            },
            _ => None,
        }
    }
}
