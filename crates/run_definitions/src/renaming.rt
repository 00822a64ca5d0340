//! Names of classes and modules that have none.
ghost use Rattle.std.specs.Prelude.{◌≡◌, ◌++◌, codes, true, not, is_some, None, Some, IfOk, IfSome, OnOk};
ghost use Rattle.rb_value.specs.Sort.{sort_of};
ghost use Rattle.rb_value.specs.declared.kind.Kind.TheVariants as kinds;
ghost use Rattle.def_core.specs.Store.{name_at, fresh};
ghost use Rattle.def_core.specs.Classes as classes;
ghost use Rattle.def_core.specs.Changes as defined;
ghost use Rattle.def_core.specs.Texts as texts;
ghost use Rattle.def_core.specs.Sound.{Sound, census, plays, Is, ClassOrModule, IsSymbol};
ghost use Rattle.rb_store.specs.Keeps.{Keeps};
ghost use Rattle.def_calls.specs.Constants as constants;

use pair_table::PairTable;
use rb_base::List;
use rb_raise::class_name;
use rb_store::Store;
use rb_value::{
    Boxed, ClassContents, ClassForm, CoreClass, Kind, KindRef, MethodTable, ObjId, Object, SymId,
    Visibility,
};
use std::alloc::{AllocError, Global};

/// The form of a class or module that has no name.
#[tactic(auto, using(def_core::proofs::Good::is_good))]
fn nameless_form(st: &Store, class: ObjId) -> Option<ClassForm>
    requires { Is (census st.now.store) ClassOrModule class }
    ensures form { IfSome result (λ f. f ≡ (classes.class_at st.now.store.objects class).form) }
    ensures name { is_some result ≡ not (is_some (classes.class_at st.now.store.objects class).name) }
{
    match st.get(class).kind() {
        KindRef::Class(contents) => match contents.get().name {
            Some(_) => None,
            None => Some(contents.get().form),
        },
        _ => Some(ClassForm::Module),
    }
}

/// An object of a form of classes that stands in for another while that one is out of the store.
pub(crate) fn stand_in(alloc: Global, class: ObjId, form: ClassForm) -> Result<Object, AllocError>
    ensures { IfOk result (λ o. o ≡ fresh class (kinds.Class (classes.empty_class form None))) }
{
    let contents = ClassContents {
        form,
        name: None,
        superclass: None,
        included: List::new(alloc),
        constants: PairTable::new(alloc),
        visibility: Visibility::Public,
        methods: MethodTable::new(alloc),
    };
    Ok(Object::new(class, Kind::Class(Boxed::new(alloc, contents)?)))
}

/// Gives a class or module that is out of the store a name. It takes no memory.
#[tactic(auto, using(def_core::proofs::Roles::plays_class))]
fn rename(object: &mut Object, name: SymId)
    requires { plays ClassOrModule (sort_of object.old.kind) ≡ true }
    ensures { object.new ≡ record object.old
        { kind = kinds.Class (record (classes.contents_of object.old.kind) { name = Some name }) } }
{
    object.set_name(name);
}

/// Gives a class or module of that form a name. Where memory runs out all is as before.
#[tactic(auto, using(def_core::proofs::Good::is_good, def_core::proofs::Good::good_replaced, def_core::proofs::Roles::is_plays, crate::proofs::Renamed::stands_in, rb_store::proofs::Keeping::keeps_itself))]
fn put_name(st: &mut Store, class: ObjId, form: ClassForm, name: SymId) -> Result<(), AllocError>
    requires sound { Sound st.old.store }
    requires class { Is (census st.old.store) ClassOrModule class }
    requires form { form ≡ (classes.class_at st.old.store.objects class).form }
    requires name { IsSymbol (census st.old.store) name }
    ensures ok { OnOk result (st.new.store ≡ record st.old.store {
      objects = classes.with_class st.old.store.objects class
          (record (classes.class_at st.old.store.objects class) { name = Some name });
    }) }
    ensures keeps { Keeps st.old st.new }
{
    let other = stand_in(st.alloc(), st.get(class).class(), form)?;
    let mut object = st.set(class, other);
    rename(&mut object, name);
    st.set(class, object);
    Ok(())
}

/// The name of a constant with the name of its scope before it.
fn qualified_name(st: &Store, scope: ObjId, name: SymId) -> Result<Vec<u8>, AllocError>
    requires sound { Sound st.now.store }
    requires scope { Is (census st.now.store) ClassOrModule scope }
    requires name { IsSymbol (census st.now.store) name }
    ensures { IfOk result (λ text.
        text.items ≡ texts.class_name st.now.store scope ++ codes "::" ++ name_at st.now.store name) }
{
    let mut text = Vec::from_slice(st.alloc(), class_name(st, scope))?;
    text.extend_from_slice(b"::")?;
    text.extend_from_slice(st.symbol_name(name))?;
    Ok(text)
}

/// The name of a class or module that is a constant of the scope: that of the constant, with the name of the scope
/// before it where the scope isn't Object. Where memory runs out all is as before.
#[tactic(auto, using(rb_store::proofs::Keeping::keeps_itself))]
fn full_name(st: &mut Store, scope: ObjId, name: SymId) -> Result<SymId, AllocError>
    requires sound { Sound st.old.store }
    requires scope { Is (census st.old.store) ClassOrModule scope }
    requires name { IsSymbol (census st.old.store) name }
    ensures symbol { IfOk result (λ s. s ≡ (defined.full_name st.old.store scope name).symbol) }
    ensures ok { OnOk result (st.new.store ≡ (defined.full_name st.old.store scope name).store) }
    ensures objects { OnOk result (st.new.store.objects ≡ st.old.store.objects) }
    ensures there { IfOk result (IsSymbol (census st.new.store)) }
    ensures keeps { Keeps st.old st.new }
{
    if scope.0 == st.class_object(CoreClass::Object).0 {
        return Ok(name);
    }
    let text = qualified_name(st, scope, name)?;
    let symbol = st.intern(&text)?;
    Ok(symbol)
}

/// Gives a class or module without a name that of a constant of the scope.
#[tactic(auto, using(rb_store::proofs::Keeping::keeps_itself, rb_store::proofs::Keeping::keeps_then))]
pub(crate) fn name_class(
    st: &mut Store,
    scope: ObjId,
    name: SymId,
    class: ObjId,
) -> Result<(), AllocError>
    requires sound { Sound st.old.store }
    requires scope { Is (census st.old.store) ClassOrModule scope }
    requires name { IsSymbol (census st.old.store) name }
    requires class { Is (census st.old.store) ClassOrModule class }
    ensures ok { OnOk result (st.new.store ≡ constants.with_name_of st.old.store scope name (Some class)) }
    ensures keeps { Keeps st.old st.new }
{
    match nameless_form(st, class) {
        Some(form) => {
            let full = full_name(st, scope, name)?;
            put_name(st, class, form, full)?;
            Ok(())
        }
        None => Ok(()),
    }
}
