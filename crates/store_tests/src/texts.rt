//! Changes of a String.
ghost use Rattle.std.specs.Prelude.{◌≡◌};
ghost use Rattle.rb_value.specs.declared.kind.Sort.TheVariants as sorts;
ghost use Rattle.def_core.specs.Store.{sort_at};
ghost use Rattle.def_core.specs.Sound.{IsGood};

use crate::sorts::{is_a, is_there};
use Change::{Append, PutKind, Replace};
use rb_store::Store;
use rb_value::{CoreClass, Kind, ObjId, Object, SmallBytes, Sort};
use std::alloc::AllocError;

/// A change of a String.
#[derive(Clone, Copy)]
enum Change {
    Append(&'static [u8]),
    Replace(&'static [u8]),
    PutKind(&'static [u8]),
}

/// A change, the bytes that it hands back, and the bytes of the String afterwards.
type Step = (Change, &'static [u8], &'static [u8]);

static STEPS: [Step; 13] = [
    (Append(b""), b"", b""),
    (Append(b"ab"), b"", b"ab"),
    (Append(b"\x00c"), b"", b"ab\x00c"),
    (Replace(b"x"), b"ab\x00c", b"x"),
    (Append(b"yz"), b"", b"xyz"),
    (Replace(b""), b"xyz", b""),
    (Append(b"end"), b"", b"end"),
    (PutKind(b"kind"), b"", b"kind"),
    (Append(b"s"), b"", b"kinds"),
    (
        Append(b" of thirty bytes and no more"),
        b"",
        b"kinds of thirty bytes and no more",
    ),
    (
        Replace(b"thirty bytes stand within, not"),
        b"kinds of thirty bytes and no more",
        b"thirty bytes stand within, not",
    ),
    (Append(b""), b"", b"thirty bytes stand within, not"),
    (Append(b"!"), b"", b"thirty bytes stand within, not!"),
];

/// Changes a String, and tells whether the call hands these bytes back.
fn hands_back(st: &mut Store, id: ObjId, change: Change, wanted: &[u8]) -> Result<bool, AllocError>
    requires there { IsGood st.old.store id }
    requires string { sort_at st.old.store.objects id ≡ sorts.String }
{
    match change {
        Append(more) => {
            st.append_bytes(id, more)?;
            Ok(wanted.is_empty())
        }
        Replace(bytes) => {
            let bytes = SmallBytes::from_slice(st.alloc(), bytes)?;
            Ok(st.replace_text(id, bytes).as_slice() == wanted)
        }
        PutKind(bytes) => {
            let bytes = SmallBytes::from_slice(st.alloc(), bytes)?;
            st.put_kind(id, Kind::String(bytes));
            Ok(wanted.is_empty())
        }
    }
}

fn has_text(st: &Store, id: ObjId, bytes: &[u8]) -> bool {
    is_there(st, id) && st.text(id) == bytes
}

fn is_right(st: &mut Store, id: ObjId, step: Step) -> Result<bool, AllocError> {
    Ok(
        is_a(st, id, Sort::String)
            && hands_back(st, id, step.0, step.1)?
            && has_text(st, id, step.2),
    )
}

#[test]
fn bytes_as_in_a_list(rt: HostRuntime) -> Result<(), AllocError> {
    let mut st = Store::new(rt.alloc())?;
    let class = st.class_object(CoreClass::String);
    let other = st.add(Object::new(class, Kind::String(SmallBytes::new())))?;
    let id = st.add(Object::new(class, Kind::String(SmallBytes::new())))?;
    'steps: for step in &STEPS {
        assert!(rt; is_right(&mut st, id, *step)?);
    }
    assert!(rt; has_text(&st, other, b""));
    Ok(())
}
