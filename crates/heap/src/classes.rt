//! Classes of values, and what is above them.

ghost use Rattle.std.specs.Prelude.{◌≡◌, [], IfOk, OnOk, OnErr, if◌then◌else◌};
ghost use Rattle.class_model.specs.AncestorsLeft.{ancestors_left, IsAncestry};
ghost use Rattle.def_core.specs.Classes.{empty_class};
ghost use Rattle.def_core.specs.Sound.{Sound, census, Is, ClassOrModule};
ghost use Rattle.def_core.specs.Store as store;
ghost use Rattle.def_core.specs.Store.{next_number};
ghost use Rattle.def_core.specs.Texts as texts;
ghost use Rattle.def_core.specs.Classes as classes;
ghost use Rattle.def_calls.specs.Definitions as definitions;
ghost use Rattle.rb_store.specs.Keeps.{Keeps};
ghost use Rattle.heap.specs.Made as made;
ghost use Rattle.heap.specs.Operands as operands;

use crate::heap::Heap;
use crate::making::add;
use crate::testing::{class_or_object, own, space};
use class_model::ancestry::Ancestors;
use class_model::{ancestors, superclass_of};
use pair_table::PairTable;
use rb_base::List;
use rb_store::Store;
use rb_value::{
    Boxed, ClassContents, ClassForm, CoreClass, Kind, MethodTable, ObjId, Value, Visibility,
};
use std::alloc::{AllocError, Global};

/// A class or module without a name, modules, constants and methods. It takes no memory.
fn empty(alloc: Global, form: ClassForm, superclass: Option<ObjId>) -> ClassContents
    ensures { result ≡ empty_class form superclass }
{
    ClassContents {
        form,
        name: None,
        superclass,
        included: List::new(alloc),
        constants: PairTable::new(alloc),
        visibility: Visibility::Public,
        methods: MethodTable::new(alloc),
    }
}

/// The rest of the ancestors of a class.
fn ancestors_of(walk: &mut Ancestors, alloc: Global) -> Result<Vec<ObjId>, AllocError>
    requires { IsAncestry walk.old }
    ensures { IfOk result (λ list. list.items ≡ ancestors_left walk.old) }
{
    let mut all = Vec::new(alloc);
    'ancestors: while let Some(id) = walk.next() {
        all.push(id)?;
    }
    Ok(all)
}

/// Makes a class without a name under a superclass, and Object where that is no class.
#[tactic(auto, using(rb_store::proofs::Keeping::keeps_itself, crate::proofs::Fresh::class_under, def_core::proofs::Roles::class_is_superclass, def_core::proofs::Good::before_next, crate::proofs::Fresh::class_class))]
pub(crate) fn make_class(st: &mut Store, superclass: ObjId) -> Result<ObjId, AllocError>
    requires sound { Sound st.old.store }
    ensures number { IfOk result (λ id. id ≡ next_number st.old.store) }
    ensures made { OnOk result (st.new ≡ made.with_class_under st.old superclass) }
    ensures err { OnErr result (st.new ≡ st.old) }
    ensures keeps { Keeps st.old st.new }
{
    let superclass = class_or_object(st, superclass);
    let of = st.class_object(CoreClass::Class);
    let contents = empty(st.alloc(), ClassForm::Class, Some(superclass));
    let kind = Kind::Class(Boxed::new(st.alloc(), contents)?);
    add(st, of, kind)
}

/// Makes a class without a name and without a superclass.
#[tactic(auto, using(rb_store::proofs::Keeping::keeps_itself, crate::proofs::Fresh::rootless_is, crate::proofs::Fresh::class_class))]
pub(crate) fn make_root(st: &mut Store) -> Result<ObjId, AllocError>
    requires sound { Sound st.old.store }
    ensures number { IfOk result (λ id. id ≡ next_number st.old.store) }
    ensures made { OnOk result (st.new ≡ made.with_root st.old) }
    ensures err { OnErr result (st.new ≡ st.old) }
    ensures keeps { Keeps st.old st.new }
{
    let of = st.class_object(CoreClass::Class);
    let contents = empty(st.alloc(), ClassForm::Class, None);
    let kind = Kind::Class(Boxed::new(st.alloc(), contents)?);
    add(st, of, kind)
}

/// Makes a module without a name.
#[tactic(auto, using(rb_store::proofs::Keeping::keeps_itself, crate::proofs::Fresh::module_is, crate::proofs::Fresh::module_class))]
pub(crate) fn make_module(st: &mut Store) -> Result<ObjId, AllocError>
    requires sound { Sound st.old.store }
    ensures number { IfOk result (λ id. id ≡ next_number st.old.store) }
    ensures made { OnOk result (st.new ≡ made.with_module st.old) }
    ensures err { OnErr result (st.new ≡ st.old) }
    ensures keeps { Keeps st.old st.new }
{
    let of = st.class_object(CoreClass::Module);
    let contents = empty(st.alloc(), ClassForm::Module, None);
    let kind = Kind::Class(Boxed::new(st.alloc(), contents)?);
    add(st, of, kind)
}

impl Heap {
    /// The class of a value, by which its methods are found: its singleton class, where it has one.
    #[inline(always)]
    pub fn class_of(&self, value: Value) -> ObjId
        ensures class { result ≡ classes.class_of self.now.store.objects (operands.own self.now.store value) }
        ensures there { Is (census self.now.store) ClassOrModule result }
    {
        class_model::class_of(&self.st, own(&self.st, value))
    }

    /// The class of a value, and no singleton class.
    pub fn plain_class_of(&self, value: Value) -> ObjId
        ensures class { result ≡ classes.plain_class_of self.now.store.objects (operands.own self.now.store value) }
        ensures there { Is (census self.now.store) ClassOrModule result }
    {
        class_model::plain_class_of(&self.st, own(&self.st, value))
    }

    /// The name of a class or module as texts show it.
    pub fn class_name(&self, class: ObjId) -> &[u8]
        ensures { result.now ≡ (if operands.has_space self.now.store class then texts.class_name self.now.store class else []) }
    {
        match space(&self.st, class) {
            Some(class) => rb_raise::class_name(&self.st, class),
            None => b"",
        }
    }

    /// The class or module that a value is.
    pub fn space_in(&self, value: Value) -> Option<ObjId>
        ensures { result ≡ definitions.space_in self.now.store.objects (operands.own self.now.store value) }
    {
        run_definitions::space_in(&self.st, own(&self.st, value))
    }

    /// Whether a class or module is among the ancestors of a class.
    pub fn is_in_chain(&self, class: ObjId, other: ObjId) -> bool
        ensures { result ≡ operands.is_in_chain self.now.store class other }
    {
        match space(&self.st, class) {
            Some(class) => class_model::is_in_chain(&self.st, class, other),
            None => false,
        }
    }

    /// Whether a value is of a class or module: that is among the ancestors of its class.
    #[tactic(auto, using(def_core::proofs::Roles::is_plays))]
    pub fn is_a(&self, value: Value, other: ObjId) -> bool
        ensures { result ≡ classes.is_member (classes.chain self.now.store.objects
            (classes.class_of self.now.store.objects (operands.own self.now.store value))) other }
    {
        self.is_in_chain(self.class_of(value), other)
    }

    /// The superclass of a class.
    #[tactic(auto, using(crate::proofs::Spaces::no_space))]
    pub fn superclass_of(&self, class: ObjId) -> Option<ObjId>
        ensures { result ≡ (classes.class_at self.now.store.objects class).superclass }
    {
        superclass_of(&self.st, space(&self.st, class)?)
    }

    /// Whether a class is a core class or below it.
    pub fn is_below(&self, class: ObjId, core: CoreClass) -> bool
        ensures { result ≡ operands.is_in_chain self.now.store class (store.core core) }
    {
        self.is_in_chain(class, self.class_object(core))
    }

    /// The ancestors of a class or module, the nearest first.
    pub fn ancestors(&self, class: ObjId) -> Result<Vec<ObjId>, AllocError>
        ensures { IfOk result (λ list. list.items ≡ operands.ancestors self.now.store class) }
    {
        match space(&self.st, class) {
            Some(class) => ancestors_of(&mut ancestors(&self.st, class), self.alloc()),
            None => Ok(Vec::new(self.alloc())),
        }
    }

    /// Makes a class without a name under a superclass, and Object where that is no class.
    pub fn make_class(&mut self, superclass: ObjId) -> Result<ObjId, AllocError>
        ensures number { IfOk result (λ id. id ≡ next_number self.old.store) }
        ensures made { OnOk result (self.new ≡ made.with_class_under self.old superclass) }
        ensures err { OnErr result (self.new ≡ self.old) }
    {
        make_class(&mut self.st, superclass)
    }

    /// Makes a class without a name and without a superclass, as Object is one.
    pub fn make_root(&mut self) -> Result<ObjId, AllocError>
        ensures number { IfOk result (λ id. id ≡ next_number self.old.store) }
        ensures made { OnOk result (self.new ≡ made.with_root self.old) }
        ensures err { OnErr result (self.new ≡ self.old) }
    {
        make_root(&mut self.st)
    }

    /// Makes a module without a name.
    pub fn make_module(&mut self) -> Result<ObjId, AllocError>
        ensures number { IfOk result (λ id. id ≡ next_number self.old.store) }
        ensures made { OnOk result (self.new ≡ made.with_module self.old) }
        ensures err { OnErr result (self.new ≡ self.old) }
    {
        make_module(&mut self.st)
    }
}
