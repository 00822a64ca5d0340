//! The local names of a form, each with its register.
ghost use Rattle.std.specs.Prelude.{◌≡◌, ◌≤◌, length, OnOk, map};
ghost use Rattle.text_set.specs.Sets.{is_among, with_text};
ghost use Rattle.path_core.specs.Form.{place_of};
ghost use Rattle.code_generator.specs.Names.{add_names, add_all};
ghost use Rattle.code_generator.specs.Emission.{form, all_forms};

use crate::tree::Tree;
use rb_base::Bytes;
use std::alloc::{AllocError, Global};

/// The place of a name in a list, or the length of the list where it isn't there.
pub fn place(name: &[u8], names: &[Bytes]) -> usize
    ensures value { result ≡ place_of name.now names.now }
    ensures within { result ≤ length names.now }
{
    for (i, known) in names.iter().enumerate() {
        if name == known.as_slice() {
            return i;
        }
    }
    names.len()
}

fn is_known(name: &[u8], names: &[Bytes]) -> bool
    ensures { result ≡ is_among name.now names.now }
{
    for known in names {
        if name == known.as_slice() {
            return true;
        }
    }
    false
}

fn add_name(alloc: Global, names: &mut Vec<Bytes>, name: &Bytes) -> Result<(), AllocError>
    ensures { OnOk result (names.new.items ≡ with_text names.old.items name.now) }
{
    if !is_known(name.as_slice(), names) {
        let name = Bytes::from_slice(alloc, name.as_slice())?;
        names.push(name)?;
    }
    Ok(())
}

/// Adds the names that a form assigns and that aren't there yet, in the order of the text.
#[cycle(collection)]
pub fn collect(alloc: Global, names: &mut Vec<Bytes>, tree: &Tree) -> Result<(), AllocError>
    ensures { OnOk result (names.new.items ≡ add_names names.old.items (form tree.now)) }
{
    match tree {
        Tree::Nil | Tree::True | Tree::Int(_) | Tree::Local(_) => Ok(()),
        Tree::Puts(e) => collect(alloc, names, e),
        Tree::SetLocal(name, e) => {
            add_name(alloc, names, name)?;
            collect(alloc, names, e)
        }
        Tree::Seq(list) => collect_all(alloc, names, list),
        Tree::Operate(_, a, b) | Tree::While(a, b) => {
            collect(alloc, names, a)?;
            collect(alloc, names, b)
        }
        Tree::Cond(t, a, b) => {
            collect(alloc, names, t)?;
            collect(alloc, names, a)?;
            collect(alloc, names, b)
        }
    }
}

#[cycle(collection)]
fn collect_all(alloc: Global, names: &mut Vec<Bytes>, list: &[Tree]) -> Result<(), AllocError>
    ensures { OnOk result (names.new.items ≡ add_all names.old.items (all_forms list.now)) }
{
    for tree in list {
        collect(alloc, names, tree)?;
    }
    Ok(())
}
