//! `String.new`.
ghost use Rattle.std.specs.Prelude.{◌≡◌, IfOk};
ghost use Rattle.def_rows.specs.StringRows as rows;

use core_rows::checking::plain_class;
use core_rows::operands::{argument, place_of, text};
use def_core::Cause;
use def_rows::Answer;
use rb_base::Bytes;
use rb_store::Store;
use rb_value::{CoreClass, Sort, Value};
use std::alloc::AllocError;

/// `class.new` and `class.new(text)`, where the call isn't refused.
pub fn new_string(st: &Store, recv: Value, args: &[Value]) -> Result<Answer, AllocError>
    ensures { IfOk result (λ a. a ≡ rows.new_string st.now.store.objects recv args.now) }
{
    match place_of(st, Sort::Class, recv) {
        Some(class) => {
            let bytes = Bytes::from_slice(st.alloc(), text(st, argument(args, 0)))?;
            Ok(Answer::String { class, bytes })
        }
        None => Ok(Answer::Fail(Cause::Expected {
            class: st.class_object(CoreClass::Class),
            got: plain_class(st, recv),
        })),
    }
}
