//! Values as plain operands. A value that isn't of the kind reads as 0, or as empty.
ghost use Rattle.std.specs.Prelude.{◌≡◌, IfSome};
ghost use Rattle.rb_value.specs.declared.kind.Sort.TheVariants as sorts;
ghost use Rattle.def_core.specs.Store.{sort_at};
ghost use Rattle.def_core.specs.Sound.{census, IsGood, IsValue};
ghost use Rattle.def_rows.specs.Operands as operands;
ghost use Rattle.def_rows.specs.SymbolRows as symbols;

use rb_store::Store;
use rb_value::{ObjId, Sort, Value};

/// The argument at that place, or nil.
pub fn argument(args: &[Value], place: usize) -> Value
    ensures { result ≡ operands.argument args.now place }
{
    args.get(place).copied().unwrap_or(Value::Nil)
}

/// The number of an Integer.
pub fn integer(value: Value) -> i64
    ensures { result ≡ operands.integer value }
{
    match value {
        Value::Int(number) => number,
        _ => 0,
    }
}

/// The number of a value that is an object of the sort.
#[tactic(auto, using(def_core::proofs::Good::good_has))]
pub fn place_of(st: &Store, sort: Sort, value: Value) -> Option<ObjId>
    ensures place { result ≡ operands.place_of st.now.store.objects sort value }
    ensures there { IfSome result (IsGood st.now.store) }
    ensures sort { IfSome result (λ id. sort_at st.now.store.objects id ≡ sort) }
{
    let Value::Obj(id) = value else {
        return None;
    };
    if st.has(id) && st.get(id).sort() == sort {
        Some(id)
    } else {
        None
    }
}

/// The bytes of a String.
pub fn text(st: &Store, value: Value) -> &[u8]
    ensures { result.now ≡ operands.text st.now.store.objects value }
{
    match place_of(st, Sort::String, value) {
        Some(id) => st.text(id),
        None => &[],
    }
}

/// Whether a value is a String.
pub fn is_text(st: &Store, value: Value) -> bool
    ensures { result ≡ operands.is_text st.now.store.objects value }
{
    place_of(st, Sort::String, value).is_some()
}

/// The bytes of the argument at that place, or others where there is none.
pub fn text_or<'a>(st: &'a Store, args: &[Value], place: usize, otherwise: &'a [u8]) -> &'a [u8]
    ensures { result.now ≡ operands.text_or st.now.store.objects args.now place otherwise.now }
{
    if place < args.len() {
        text(st, args[place])
    } else {
        otherwise
    }
}

/// The name of a Symbol.
pub fn name(st: &Store, value: Value) -> &[u8]
    requires { IsValue (census st.now.store) value }
    ensures { result.now ≡ symbols.name st.now.store value }
{
    match value {
        Value::Sym(symbol) => st.symbol_name(symbol),
        _ => &[],
    }
}

/// The elements of an Array.
pub fn items(st: &Store, value: Value) -> &[Value]
    ensures { result.now ≡ operands.items st.now.store.objects value }
{
    match place_of(st, Sort::Array, value) {
        Some(id) => st.elements(id),
        None => &[],
    }
}
