//! What the objects of a store are.
ghost use Rattle.std.specs.Prelude.{◌≡◌, true};
ghost use Rattle.def_core.specs.Store.{sort_at};
ghost use Rattle.def_core.specs.Sound.{IsGood};

use rb_store::Store;
use rb_value::{ObjId, Sort};

/// Whether the number is that of an object.
pub(crate) fn is_there(st: &Store, id: ObjId) -> bool
    ensures { result ≡ true → IsGood st.now.store id }
{
    st.has(id)
}

/// Whether the number is that of an object of the sort.
pub(crate) fn is_a(st: &Store, id: ObjId, sort: Sort) -> bool
    ensures good { result ≡ true → IsGood st.now.store id }
    ensures sort { result ≡ true → sort_at st.now.store.objects id ≡ sort }
{
    is_there(st, id) && st.get(id).sort() == sort
}
