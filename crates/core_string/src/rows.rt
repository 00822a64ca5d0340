//! What each row of String gives.
ghost use Rattle.std.specs.Prelude.{◌≡◌, IfOk};
ghost use Rattle.def_rows.specs.StringRows as rows;

use crate::answers::{changed, first_byte, length_of, made, numbers, plain, text as new_text};
use crate::elements::{element, set_element};
use crate::others::{
    append, begins_with, closes_with, concat, equals, index, last_index, order, to_integer,
};
use crate::parts::{characters, lines, split};
use core_rows::operands::{argument, integer, text, text_or};
use def_rows::Answer;
use rb_base::Bytes;
use rb_store::Store;
use rb_string::{
    comparison, editing, inspection, letters, numeral, padding, searching, stripping, substitution,
};
use rb_value::Value;
use row_answer::Plain;
use row_table::StringMethod;
use std::alloc::AllocError;

/// What a method gives, where its call isn't refused.
#[tactic(auto, unfolding(def_rows::specs::StringRows::gives))]
pub fn give(
    st: &Store,
    method: StringMethod,
    recv: Value,
    args: &[Value],
) -> Result<Answer, AllocError>
    ensures { IfOk result (λ a. a ≡ rows.gives method st.now.store.objects recv args.now) }
{
    let alloc = st.alloc();
    let bytes = text(st, recv);
    let first = argument(args, 0);
    let other = text(st, first);
    let number = integer(first);
    let second = argument(args, 1);
    let pad = text_or(st, args, 1, b" ");
    match method {
        StringMethod::Element => element(st, bytes, args),
        StringMethod::SetElement => set_element(st, bytes, args),
        StringMethod::Plus => plain(made(editing::concatenated(alloc, bytes, other)?)),
        StringMethod::Times => plain(made(editing::repeated(alloc, bytes, number)?)),
        StringMethod::Equal => plain(Plain::Truth(equals(st, bytes, first))),
        StringMethod::Order => plain(order(st, bytes, first)),
        StringMethod::Less => plain(Plain::Truth(comparison::order(bytes, other) < 0)),
        StringMethod::AtMost => plain(Plain::Truth(comparison::order(bytes, other) <= 0)),
        StringMethod::Greater => plain(Plain::Truth(0 < comparison::order(bytes, other))),
        StringMethod::AtLeast => plain(Plain::Truth(0 <= comparison::order(bytes, other))),
        StringMethod::Length | StringMethod::Size | StringMethod::ByteSize => plain(length_of(
            bytes,
        )),
        StringMethod::Bytes => plain(numbers(alloc, bytes)?),
        StringMethod::Characters => plain(characters(alloc, bytes)?),
        StringMethod::Lines => plain(lines(alloc, bytes)?),
        StringMethod::Upcase => plain(Plain::Text(letters::upcased(alloc, bytes)?)),
        StringMethod::Downcase => plain(Plain::Text(letters::downcased(alloc, bytes)?)),
        StringMethod::Capitalize => plain(Plain::Text(letters::capitalized(alloc, bytes)?)),
        StringMethod::Swapcase => plain(Plain::Text(letters::swapped(alloc, bytes)?)),
        StringMethod::Reverse => plain(Plain::Text(letters::reversed(alloc, bytes)?)),
        StringMethod::Strip => plain(new_text(alloc, stripping::stripped(bytes))?),
        StringMethod::LeftStrip => plain(new_text(alloc, stripping::left_stripped(bytes))?),
        StringMethod::RightStrip => plain(new_text(alloc, stripping::right_stripped(bytes))?),
        StringMethod::Chomp => plain(new_text(alloc, stripping::chomped(bytes))?),
        StringMethod::Chop => plain(new_text(alloc, stripping::chopped(bytes))?),
        StringMethod::Append => plain(append(st, bytes, first)?),
        StringMethod::Concat => plain(concat(st, bytes, args)?),
        StringMethod::Replace => plain(Plain::Replace(Bytes::from_slice(alloc, other)?)),
        StringMethod::Insert => plain(changed(editing::inserted(
            alloc,
            bytes,
            number,
            text(st, second),
        )?)),
        StringMethod::Includes => plain(Plain::Truth(searching::includes(bytes, other))),
        StringMethod::StartsWith => plain(Plain::Truth(begins_with(st, bytes, args))),
        StringMethod::EndsWith => plain(Plain::Truth(closes_with(st, bytes, args))),
        StringMethod::Index => plain(index(bytes, other, integer(second))),
        StringMethod::LastIndex => plain(last_index(bytes, other)),
        StringMethod::Substitute => plain(made(substitution::substituted(
            alloc,
            bytes,
            other,
            text(st, second),
        )?)),
        StringMethod::SubstituteAll => plain(made(substitution::substituted_everywhere(
            alloc,
            bytes,
            other,
            text(st, second),
        )?)),
        StringMethod::Split => plain(split(st, bytes, args)?),
        StringMethod::Center => plain(made(padding::centered(alloc, bytes, number, pad)?)),
        StringMethod::LeftJustify => plain(made(padding::left_justified(
            alloc, bytes, number, pad,
        )?)),
        StringMethod::RightJustify => plain(made(padding::right_justified(
            alloc, bytes, number, pad,
        )?)),
        StringMethod::ToInteger => plain(to_integer(bytes, args)),
        StringMethod::ToText => plain(Plain::Receiver),
        StringMethod::ToSymbol | StringMethod::Intern => {
            plain(Plain::Symbol(Bytes::from_slice(alloc, bytes)?))
        }
        StringMethod::IsEmpty => plain(Plain::Truth(bytes.is_empty())),
        StringMethod::Ordinal => plain(first_byte(numeral::ordinal(bytes))),
        StringMethod::Inspect => plain(made(inspection::inspected(alloc, bytes)?)),
    }
}
