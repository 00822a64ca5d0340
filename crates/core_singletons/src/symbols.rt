//! What each row of Symbol gives.
ghost use Rattle.std.specs.Prelude.{◌≡◌, ◌∷◌, IfOk};
ghost use Rattle.def_core.specs.Sound.{census, IsValue, AllAre};
ghost use Rattle.def_rows.specs.SymbolRows as rows;

use core_rows::operands::{argument, name};
use core_string::answers::made;
use rb_base::Bytes;
use rb_store::Store;
use rb_string::{comparison, symbols};
use rb_value::Value;
use row_answer::Plain;
use row_table::SymbolMethod;
use std::alloc::AllocError;

/// The order between a name and that of a value.
fn order(st: &Store, text: &[u8], other: Value) -> Plain
    requires { IsValue (census st.now.store) other }
    ensures { result ≡ rows.order st.now.store text.now other }
{
    match other {
        Value::Sym(_) => Plain::Int(comparison::order(text, name(st, other))),
        _ => Plain::Nil,
    }
}

/// What a method gives, where its call isn't refused.
pub fn give(
    st: &Store,
    method: SymbolMethod,
    recv: Value,
    args: &[Value],
) -> Result<Plain, AllocError>
    requires { AllAre (IsValue (census st.now.store)) (recv ∷ args.now) }
    ensures { IfOk result (λ a. a ≡ rows.gives method st.now.store recv args.now) }
{
    let text = name(st, recv);
    Ok(match method {
        SymbolMethod::ToText => Plain::Text(Bytes::from_slice(st.alloc(), text)?),
        SymbolMethod::ToSymbol => Plain::Receiver,
        SymbolMethod::Inspect => made(symbols::inspected(st.alloc(), text)?),
        SymbolMethod::Length | SymbolMethod::Size => Plain::Int(text.len() as i64),
        SymbolMethod::Order => order(st, text, argument(args, 0)),
    })
}
