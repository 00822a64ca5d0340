//! Methods that a class or module loses.
ghost use Rattle.std.specs.Prelude.{◌≡◌, true, OnOk};
ghost use Rattle.rb_value.specs.MethodTable.{without_entry};
ghost use Rattle.rb_value.specs.Sort.{sort_of};
ghost use Rattle.rb_value.specs.declared.kind.Kind.TheVariants as kinds;
ghost use Rattle.def_core.specs.Classes as classes;
ghost use Rattle.def_core.specs.Sound.{Sound, census, plays, Is, ClassOrModule};
ghost use Rattle.rb_store.specs.Keeps.{Keeps};

use crate::renaming::stand_in;
use rb_store::Store;
use rb_value::{ClassForm, KindRef, ObjId, Object, SymId};
use std::alloc::AllocError;

/// The form of a class or module.
#[tactic(auto, using(def_core::proofs::Good::is_good))]
fn form_of(st: &Store, class: ObjId) -> ClassForm
    requires { Is (census st.now.store) ClassOrModule class }
    ensures { result ≡ (classes.class_at st.now.store.objects class).form }
{
    match st.get(class).kind() {
        KindRef::Class(contents) => contents.get().form,
        _ => ClassForm::Module,
    }
}

/// Takes a method out of the own list of a class or module that is out of the store. It takes no memory.
#[tactic(auto, using(def_core::proofs::Roles::plays_class))]
fn lose(object: &mut Object, name: SymId)
    requires { plays ClassOrModule (sort_of object.old.kind) ≡ true }
    ensures { object.new ≡ record object.old {
      kind = kinds.Class (record (classes.contents_of object.old.kind)
          { methods = without_entry (classes.contents_of object.old.kind).methods name });
    } }
{
    object.remove_method(name);
}

/// Takes a method out of the own list of a class or module, so that what stands above is found. Where memory runs out
/// all is as before.
#[tactic(auto, using(def_core::proofs::Good::is_good, def_core::proofs::Good::good_replaced, def_core::proofs::Roles::is_plays, crate::proofs::Renamed::stands_in, rb_store::proofs::Keeping::keeps_itself))]
pub fn remove_method(st: &mut Store, class: ObjId, name: SymId) -> Result<(), AllocError>
    requires sound { Sound st.old.store }
    requires class { Is (census st.old.store) ClassOrModule class }
    ensures ok { OnOk result (st.new.store ≡ record st.old.store {
      objects = classes.with_class st.old.store.objects class
          (record (classes.class_at st.old.store.objects class)
          { methods = without_entry (classes.class_at st.old.store.objects class).methods name });
    }) }
    ensures keeps { Keeps st.old st.new }
{
    let form = form_of(st, class);
    let other = stand_in(st.alloc(), st.get(class).class(), form)?;
    let mut object = st.set(class, other);
    lose(&mut object, name);
    st.set(class, object);
    Ok(())
}
