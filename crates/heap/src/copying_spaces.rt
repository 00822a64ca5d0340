//! Copies of classes, modules and Procs.
ghost use Rattle.std.specs.Prelude.{◌≡◌, length, IfOk, OnOk, OnErr};
ghost use Rattle.def_core.specs.Store.{next_number};
ghost use Rattle.def_core.specs.Classes.{class_at};
ghost use Rattle.def_core.specs.Find.{entry_of};
ghost use Rattle.heap.specs.Copies as copies;
ghost use Rattle.heap.specs.Made as made;

use crate::heap::Heap;
use crate::testing::space;
use rb_base::List;
use rb_value::{KindRef, ObjId, ProcContents, SymId, Value};
use std::alloc::{AllocError, Global};

/// The same contents, as those of a lambda or not.
fn copy_body(
    alloc: Global,
    contents: &ProcContents,
    lambda: bool,
) -> Result<ProcContents, AllocError>
    ensures { IfOk result (λ copy. copy ≡ record contents.now { lambda = lambda }) }
{
    let scopes = Vec::from_slice(alloc, contents.scopes.as_slice())?;
    Ok(ProcContents {
        code: contents.code,
        shape: contents.shape,
        scopes: List::from_vec(scopes),
        receiver: contents.receiver,
        owner: contents.owner,
        name: contents.name,
        classes: contents.classes,
        home: contents.home,
        sending: contents.sending,
        block: contents.block,
        lambda,
    })
}

impl Heap {
    /// A new Proc with the body of another, as a lambda or not; none where that has no body.
    pub fn copy_proc(&mut self, id: ObjId, lambda: bool) -> Result<Option<ObjId>, AllocError>
        ensures number { IfOk result (λ found. found ≡ made.copy_number self.old.store id) }
        ensures made { OnOk result (self.new ≡ made.with_proc_copy self.old id lambda) }
        ensures err { OnErr result (self.new ≡ self.old) }
    {
        let contents = match self.proc_of(id) {
            Some(contents) => copy_body(self.alloc(), contents, lambda)?,
            None => return Ok(None),
        };
        Ok(Some(self.make_proc(contents)?))
    }

    /// A class without a name, under the same superclass, that has what another has.
    pub(crate) fn copy_class(&mut self, id: ObjId) -> Result<ObjId, AllocError>
        ensures number { IfOk result (λ own. own ≡ next_number self.old.store) }
        ensures made { OnOk result (self.new.store ≡ copies.class_copied self.old.store id) }
    {
        let made = self.make_class_like(id)?;
        self.fill_space(made, id)?;
        Ok(made)
    }

    /// A class without anything, under the superclass of another.
    fn make_class_like(&mut self, id: ObjId) -> Result<ObjId, AllocError>
        ensures number { IfOk result (λ own. own ≡ next_number self.old.store) }
        ensures made { OnOk result (self.new.store
            ≡ copies.class_made self.old.store (class_at self.old.store.objects id).superclass) }
    {
        match self.superclass_of(id) {
            Some(superclass) => self.make_class(superclass),
            None => self.make_root(),
        }
    }

    /// A module without a name that has what another has.
    pub(crate) fn copy_module(&mut self, id: ObjId) -> Result<ObjId, AllocError>
        ensures number { IfOk result (λ own. own ≡ next_number self.old.store) }
        ensures made { OnOk result (self.new.store ≡ copies.module_copied self.old.store id) }
    {
        let made = self.make_module()?;
        self.fill_space(made, id)?;
        Ok(made)
    }

    /// Gives a class or module the methods, constants, modules and default visibility of another.
    fn fill_space(&mut self, made: ObjId, id: ObjId) -> Result<(), AllocError>
        ensures { OnOk result (self.new.store ≡ copies.filled self.old.store made id) }
    {
        self.copy_methods(made, id)?;
        self.copy_constants(made, id)?;
        self.copy_included(made, id)?;
        let visibility = self.default_visibility(id);
        self.set_default(made, visibility);
        Ok(())
    }

    /// Gives a class or module the method that another has itself under a name, if there is one.
    fn copy_method(&mut self, made: ObjId, id: ObjId, name: SymId) -> Result<(), AllocError>
        ensures { OnOk result (self.new.store
            ≡ copies.with_entry self.old.store made name (entry_of self.old.store.objects id name)) }
    {
        match self.own_entry(id, name) {
            Some(entry) => self.set_method(made, name, entry.method, entry.visibility),
            None => Ok(()),
        }
    }

    /// Gives a class or module the methods that another has itself.
    #[tactic(auto, using(crate::proofs::Copied::steps_more, crate::proofs::Copied::steps_end))]
    fn copy_methods(&mut self, made: ObjId, id: ObjId) -> Result<(), AllocError>
        ensures { OnOk result (self.new.store ≡ copies.with_methods self.old.store made id) }
    {
        let count = self.symbol_count();
        'names: for number in 0..count {
            self.copy_method(made, id, SymId(number))?;
        }
        Ok(())
    }

    /// How many constants a class or module has itself.
    fn constant_count(&self, id: ObjId) -> usize
        ensures { result ≡ length (class_at self.now.store.objects id).constants }
    {
        match self.kind(id) {
            Some(KindRef::Class(contents)) => contents.get().constants.len(),
            _ => 0,
        }
    }

    /// The constant at a place of those that a class or module has itself.
    fn constant_at(&self, id: ObjId, place: usize) -> Option<(SymId, Value)>
        ensures { result ≡ copies.constant_at self.now.store id place }
    {
        match self.kind(id)? {
            KindRef::Class(contents) => {
                let (name, value) = contents.get().constants.pair_at(place)?;
                Some((SymId(*name), *value))
            }
            _ => None,
        }
    }

    /// Gives a class or module the constant at a place of those that another has itself, if there is one.
    #[tactic(auto, using(crate::proofs::Copied::store_left))]
    fn copy_constant(&mut self, made: ObjId, id: ObjId, place: usize) -> Result<(), AllocError>
        ensures { OnOk result (self.new.store ≡ copies.with_constant_at made id place self.old.store) }
    {
        let Some((name, value)) = self.constant_at(id, place) else {
            return Ok(());
        };
        self.set_constant_in(made, name, value)?;
        Ok(())
    }

    /// Gives a class or module the constants that another has itself.
    #[tactic(auto, using(crate::proofs::Copied::steps_more, crate::proofs::Copied::steps_end))]
    fn copy_constants(&mut self, made: ObjId, id: ObjId) -> Result<(), AllocError>
        ensures { OnOk result (self.new.store ≡ copies.with_constants self.old.store made id) }
    {
        let count = self.constant_count(id);
        'constants: for place in 0..count {
            self.copy_constant(made, id, place)?;
        }
        Ok(())
    }

    /// The modules that a class or module includes, in the order of look-up.
    #[tactic(auto, using(crate::proofs::Spaces::no_space))]
    fn included(&self, id: ObjId) -> &[ObjId]
        ensures { result.now ≡ (class_at self.now.store.objects id).included }
    {
        match space(&self.st, id) {
            Some(class) => class_model::included_in(&self.st, class),
            None => &[],
        }
    }

    /// Includes the modules of a class or module in another, those first that are found last.
    fn copy_included(&mut self, made: ObjId, id: ObjId) -> Result<(), AllocError>
        ensures { OnOk result (self.new.store ≡ copies.with_included self.old.store made id) }
    {
        let included = Vec::from_slice(self.alloc(), self.included(id))?;
        self.include_all(made, &included)
    }

    /// Includes modules in a class or module, the last of them first.
    #[tactic(auto, using(crate::proofs::Copied::mixin_before, crate::proofs::Copied::all_mixins, crate::proofs::Copied::no_mixin))]
    fn include_all(&mut self, made: ObjId, modules: &[ObjId]) -> Result<(), AllocError>
        ensures { OnOk result (self.new.store ≡ copies.with_mixins self.old.store made modules.now) }
    {
        let mut at = modules.len();
        'modules: while at > 0 {
            at -= 1;
            self.include_one(made, modules[at])?;
        }
        Ok(())
    }

    /// Includes a module in a class or module.
    #[tactic(auto, using(crate::proofs::Copied::store_left))]
    fn include_one(&mut self, made: ObjId, mixin: ObjId) -> Result<(), AllocError>
        ensures { OnOk result (self.new.store ≡ copies.with_mixin self.old.store made mixin) }
    {
        self.include(made, Value::Obj(mixin))?;
        Ok(())
    }
}
