//! What each row of nil, true and false gives.
ghost use Rattle.std.specs.Prelude.{◌≡◌, IfOk};
ghost use Rattle.row_answer.specs.declared.answer.Plain.TheVariants as plain;
ghost use Rattle.def_rows.specs.TruthRows as rows;

use core_rows::operands::argument;
use rb_base::{Bytes, List};
use rb_value::Value;
use row_answer::Plain;
use row_table::{NilMethod, TruthMethod};
use std::alloc::{AllocError, Global};

/// A new String.
fn text(alloc: Global, bytes: &[u8]) -> Result<Plain, AllocError>
    ensures { IfOk result (λ a. a ≡ plain.Text bytes.now) }
{
    Ok(Plain::Text(Bytes::from_slice(alloc, bytes)?))
}

/// What a method of nil gives, where its call isn't refused.
pub fn nil_gives(alloc: Global, method: NilMethod, args: &[Value]) -> Result<Plain, AllocError>
    ensures { IfOk result (λ a. a ≡ rows.nil_gives method args.now) }
{
    match method {
        NilMethod::ToText => text(alloc, b""),
        NilMethod::Inspect => text(alloc, b"nil"),
        NilMethod::And => Ok(Plain::Truth(false)),
        NilMethod::Or | NilMethod::Xor => Ok(Plain::Truth(argument(args, 0).is_true())),
        NilMethod::ToArray => Ok(Plain::Numbers(List::new(alloc))),
        NilMethod::ToInteger => Ok(Plain::Int(0)),
    }
}

/// What a method of true gives, where its call isn't refused.
pub fn true_gives(alloc: Global, method: TruthMethod, args: &[Value]) -> Result<Plain, AllocError>
    ensures { IfOk result (λ a. a ≡ rows.true_gives method args.now) }
{
    match method {
        TruthMethod::ToText | TruthMethod::Inspect => text(alloc, b"true"),
        TruthMethod::And => Ok(Plain::Truth(argument(args, 0).is_true())),
        TruthMethod::Or => Ok(Plain::Truth(true)),
        TruthMethod::Xor => Ok(Plain::Truth(!argument(args, 0).is_true())),
    }
}

/// What a method of false gives, where its call isn't refused.
pub fn false_gives(alloc: Global, method: TruthMethod, args: &[Value]) -> Result<Plain, AllocError>
    ensures { IfOk result (λ a. a ≡ rows.false_gives method args.now) }
{
    match method {
        TruthMethod::ToText | TruthMethod::Inspect => text(alloc, b"false"),
        TruthMethod::And => Ok(Plain::Truth(false)),
        TruthMethod::Or | TruthMethod::Xor => Ok(Plain::Truth(argument(args, 0).is_true())),
    }
}
