//! What a core method checks before it does anything: the number of arguments, then the block, then the classes of
//! values, left to right.
ghost use Rattle.std.specs.Prelude.{◌≡◌, get_or, IfOk, OnOk, OnErr};
ghost use Rattle.rb_value.specs.declared.value.Value.TheVariants.{Nil, Int};
ghost use Rattle.core_calls.specs.Checks as checks;

use def_core::Cause;
use heap::Heap;
use rb_value::{CoreClass, SymId, Value};
use std::alloc::AllocError;

/// Why a method can't take so many arguments, where it takes at least and at most so many; `None` stands for no bound.
pub fn miscounted(given: usize, least: u64, most: Option<u64>) -> Option<Cause>
    ensures { result ≡ checks.miscounted given least most }
{
    let given = given as u64;
    let within = match most {
        Some(most) => given <= most,
        None => true,
    };
    if given >= least && within {
        None
    } else {
        Some(Cause::WrongCount { given, least, most })
    }
}

/// The argument at a place; nil where there are fewer.
pub fn argument(args: &[Value], place: usize) -> Value
    ensures { result ≡ get_or args.now place Nil }
{
    args.get(place).copied().unwrap_or(Value::Nil)
}

/// The number that a value is, or why it is none.
pub fn integer(heap: &Heap, value: Value) -> Result<i64, Cause>
    ensures number { IfOk result (λ number. value ≡ Int number) }
    ensures whole { result ≡ checks.integer heap.now.store value }
{
    match value {
        Value::Int(number) => Ok(number),
        other => Err(heap.refusal(CoreClass::Integer, other)),
    }
}

/// The name that a Symbol or a String is, or why a value is none.
pub fn name_in(heap: &mut Heap, value: Value) -> Result<Result<SymId, Cause>, AllocError>
    ensures name { IfOk result (λ name. name ≡ (checks.name_in heap.old.store value).name) }
    ensures store { OnOk result (heap.new.store ≡ (checks.name_in heap.old.store value).store) }
    ensures err { OnErr result (heap.new.store ≡ heap.old.store) }
{
    match value {
        Value::Sym(name) => Ok(Ok(name)),
        other => match heap.text_of(other) {
            Some(text) => {
                let text = Vec::from_slice(heap.alloc(), text)?;
                Ok(Ok(heap.intern(&text)?))
            }
            None => Ok(Err(heap.refusal(CoreClass::Symbol, other))),
        },
    }
}
