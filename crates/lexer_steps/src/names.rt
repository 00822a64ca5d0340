//! Names: identifiers, constants, keywords, labels, variables and symbols.
ghost use Rattle.std.specs.Prelude.{◌≡◌, ◌≤◌, ◌<◌, ◌+◌, true, length, drop, IfOk, IfErr, IsTrue};
ghost use Rattle.lexer_steps.specs.LexError.{Gives, IsWithin};
ghost use Rattle.lexer_steps.specs.State.{state_of};
ghost use Rattle.lexer_steps.specs.Names as names;

use crate::error::LexError;
use crate::scan::{byte_at, def_end, digit_end, mark_end, name_end, symbol_end, wide_end};
use crate::state::Lexer;
use crate::trivia::begins_line;
use lexer_tables::bytes::{
    is_capital, is_digit, is_name_byte, is_name_start, is_punctuation, is_wide,
};
use lexer_tables::{Context, keyword_of, operator_name};
use rb_base::Bytes;
use rb_syntax::{Outside, TokenKind};
use std::alloc::Global;

/// Whether a line ends at a place.
fn is_line_end(text: &[u8], at: usize) -> bool
    ensures { result ≡ names.is_line_end text.now at }
{
    at >= text.len() || byte_at(text, at) == b'\n'
}

/// Whether the line that ends the text stands at a place.
pub fn is_end_marker(text: &[u8], at: usize) -> bool
    requires { at ≤ length text.now }
    ensures { result ≡ names.is_end_marker text.now at }
{
    begins_line(text, at)
        && text[at..].starts_with(b"__END__")
        && (is_line_end(text, at + 7)
            || byte_at(text, at + 7) == b'\r' && is_line_end(text, at + 8))
}

/// A name that is no keyword.
#[tactic(auto, unfolding(crate::specs::Names::name_of))]
fn push_name(
    alloc: Global,
    lexer: &mut Lexer,
    text: &[u8],
    at: usize,
    end: usize,
    is_method: bool,
) -> Result<usize, LexError>
    requires forward { at < end }
    requires within { end ≤ length text.now }
    requires small { length text.now < 4294967296 }
    ensures place { IfOk result (λ e. e ≡ end) }
    ensures value { Gives (λ e. (state_of lexer.new, e)) result
        (names.name_of text.now at end is_method (state_of lexer.old)) }
    ensures fault { IfErr result (λ e. IsWithin (length text.now) e) }
{
    let name = Bytes::from_slice(alloc, &text[at..end])?;
    let context = lexer.context;
    if is_method {
        lexer.push(at, TokenKind::MethodName(name), context.after_name())?;
    } else if is_capital(text[at]) {
        lexer.push(at, TokenKind::Constant(name), context.after_constant())?;
    } else {
        lexer.push(at, TokenKind::Identifier(name), context.after_name())?;
    }
    Ok(end)
}

/// A name where keywords are names; it ends at `marked` with its mark.
#[tactic(auto, unfolding(crate::specs::Names::wanted_name))]
fn push_wanted(
    alloc: Global,
    lexer: &mut Lexer,
    text: &[u8],
    at: usize,
    end: usize,
    marked: usize,
) -> Result<usize, LexError>
    requires forward { at < end }
    requires order { end ≤ marked }
    requires within { marked ≤ length text.now }
    requires small { length text.now < 4294967296 }
    ensures place { IfOk result (λ e. (at < e) × (e ≤ length text.now)) }
    ensures value { Gives (λ e. (state_of lexer.new, e)) result
        (names.wanted_name text.now at end marked (state_of lexer.old)) }
    ensures fault { IfErr result (λ e. IsWithin (length text.now) e) }
{
    let last = if lexer.context.is_def() {
        def_end(text, marked)
    } else {
        marked
    };
    let is_method = last != end || keyword_of(&text[at..last]).is_some();
    push_name(alloc, lexer, text, at, last, is_method)
}

/// A name with a byte past ASCII.
pub fn push_wide(lexer: &mut Lexer, text: &[u8], at: usize, from: usize) -> Result<usize, LexError>
    requires forward { at ≤ from }
    requires within { from < length text.now }
    requires small { length text.now < 4294967296 }
    ensures place { IfOk result (λ e. (at < e) × (e ≤ length text.now)) }
    ensures value { Gives (λ e. (state_of lexer.new, e)) result
        (names.wide_name text.now at from (state_of lexer.old)) }
    ensures fault { IfErr result (λ e. IsWithin (length text.now) e) }
{
    let end = wide_end(text, from + 1);
    let context = lexer.context.after_name();
    lexer.push(at, TokenKind::Outside(Outside::NonAsciiName), context)?;
    Ok(end)
}

/// A label; its name ends at `end`.
fn push_label(
    alloc: Global,
    lexer: &mut Lexer,
    text: &[u8],
    at: usize,
    end: usize,
) -> Result<usize, LexError>
    requires forward { at < end }
    requires within { end < length text.now }
    requires small { length text.now < 4294967296 }
    ensures place { IfOk result (λ e. (at < e) × (e ≤ length text.now)) }
    ensures value { Gives (λ e. (state_of lexer.new, e)) result (names.label text.now at end (state_of lexer.old)) }
    ensures fault { IfErr result (λ e. IsWithin (length text.now) e) }
{
    let name = Bytes::from_slice(alloc, &text[at..end])?;
    lexer.push(at, TokenKind::Label(name), Context::Start)?;
    Ok(end + 1)
}

/// Whether a colon stands at a place and no other after it.
pub fn is_colon(text: &[u8], at: usize) -> bool
    ensures value { result ≡ names.is_colon text.now at }
{
    byte_at(text, at) == b':' && byte_at(text, at + 1) != b':'
}

/// A name, keyword, constant or label.
#[tactic(auto, unfolding(crate::specs::Names::word_step))]
pub fn word_step(
    alloc: Global,
    lexer: &mut Lexer,
    text: &[u8],
    at: usize,
) -> Result<usize, LexError>
    requires place { at < length text.now }
    requires small { length text.now < 4294967296 }
    ensures within { IfOk result (λ e. (at < e) × (e ≤ length text.now)) }
    ensures value { Gives (λ e. (state_of lexer.new, e)) result (names.word_step text.now at (state_of lexer.old)) }
    ensures fault { IfErr result (λ e. IsWithin (length text.now) e) }
{
    let end = name_end(text, at + 1);
    if is_wide(byte_at(text, end)) {
        return push_wide(lexer, text, at, end);
    }
    let marked = mark_end(text, end);
    if is_colon(text, marked) {
        return push_label(alloc, lexer, text, at, marked);
    }
    if lexer.context.wants_name() {
        return push_wanted(alloc, lexer, text, at, end, marked);
    }
    match keyword_of(&text[at..marked]) {
        Some(keyword) => {
            lexer.push_keyword(at, keyword)?;
            Ok(marked)
        }
        None => push_name(alloc, lexer, text, at, marked, marked != end),
    }
}

/// `@name` or `$name`.
#[tactic(auto, unfolding(crate::specs::Names::variable_of))]
fn push_variable(
    alloc: Global,
    lexer: &mut Lexer,
    text: &[u8],
    at: usize,
) -> Result<usize, LexError>
    requires place { at + 1 < length text.now }
    requires small { length text.now < 4294967296 }
    ensures within { IfOk result (λ e. (at < e) × (e ≤ length text.now)) }
    ensures value { Gives (λ e. (state_of lexer.new, e)) result (names.variable_of text.now at (state_of lexer.old)) }
    ensures fault { IfErr result (λ e. IsWithin (length text.now) e) }
{
    let end = name_end(text, at + 2);
    let name = Bytes::from_slice(alloc, &text[at..end])?;
    let kind = if text[at] == b'@' {
        TokenKind::InstanceVariable(name)
    } else {
        TokenKind::GlobalVariable(name)
    };
    lexer.push(at, kind, Context::Operand)?;
    Ok(end)
}

/// `@@name`.
#[tactic(auto, unfolding(crate::specs::Names::class_variable))]
fn class_variable(lexer: &mut Lexer, text: &[u8], at: usize) -> Result<usize, LexError>
    requires place { at < length text.now }
    requires small { length text.now < 4294967296 }
    ensures within { IfOk result (λ e. (at < e) × (e ≤ length text.now)) }
    ensures value { Gives (λ e. (state_of lexer.new, e)) result
        (names.class_variable text.now at (state_of lexer.old)) }
    ensures fault { IfErr result (λ e. IsWithin (length text.now) e) }
{
    if byte_at(text, at + 1) != b'@' || !is_name_start(byte_at(text, at + 2)) {
        return Err(LexError::Syntax { at: at as u32 });
    }
    let end = name_end(text, at + 3);
    lexer.push(
        at,
        TokenKind::Outside(Outside::ClassVariable),
        Context::Operand,
    )?;
    Ok(end)
}

/// `$` and digits or one punctuation mark.
#[tactic(auto, unfolding(crate::specs::Names::special_global))]
fn special_global(lexer: &mut Lexer, text: &[u8], at: usize) -> Result<usize, LexError>
    requires place { at < length text.now }
    requires small { length text.now < 4294967296 }
    ensures within { IfOk result (λ e. (at < e) × (e ≤ length text.now)) }
    ensures value { Gives (λ e. (state_of lexer.new, e)) result
        (names.special_global text.now at (state_of lexer.old)) }
    ensures fault { IfErr result (λ e. IsWithin (length text.now) e) }
{
    let next = byte_at(text, at + 1);
    let end = if is_digit(next) {
        digit_end(text, at + 2)
    } else if is_punctuation(next) {
        at + 2
    } else {
        return Err(LexError::Syntax { at: at as u32 });
    };
    lexer.push(
        at,
        TokenKind::Outside(Outside::SpecialGlobal),
        Context::Operand,
    )?;
    Ok(end)
}

/// Whether a mark of ASCII names a special global variable after a `$`.
fn names_global(byte: u8) -> bool
    ensures { result ≡ names.names_global byte }
{
    matches!(
        byte,
        b'~' | b'*'
            | b'$'
            | b'?'
            | b'!'
            | b'@'
            | b'/'
            | b'\\'
            | b';'
            | b','
            | b'.'
            | b'='
            | b':'
            | b'<'
            | b'>'
            | b'"'
            | b'&'
            | b'`'
            | b'\''
            | b'+'
    )
}

/// Whether the `$` at a place, in a literal, begins a special global variable: before digits, before a mark that names
/// one, and before `-` and what a name goes on with.
#[tactic(auto, unfolding(crate::specs::Names::begins_special))]
fn begins_special(text: &[u8], at: usize) -> bool
    requires { at < length text.now }
    ensures { result ≡ names.begins_special text.now at }
{
    let next = byte_at(text, at + 1);
    is_digit(next) || names_global(next) || next == b'-' && is_name_byte(byte_at(text, at + 2))
}

/// Whether a variable stands at a place of a literal, whatever its kind; after a `#` it is put in.
#[tactic(auto, unfolding(crate::specs::Names::begins_variable))]
pub fn begins_variable(text: &[u8], at: usize) -> bool
    requires { at ≤ length text.now }
    ensures value { result ≡ names.begins_variable text.now at }
    ensures within { IsTrue result → at < length text.now }
{
    let next = byte_at(text, at + 1);
    match byte_at(text, at) {
        b'@' => is_name_start(next) || next == b'@' && is_name_start(byte_at(text, at + 2)),
        b'$' => is_name_start(next) || begins_special(text, at),
        _ => false,
    }
}

/// What begins with `@` or `$`.
#[tactic(auto, unfolding(crate::specs::Names::variable_step))]
pub fn variable_step(
    alloc: Global,
    lexer: &mut Lexer,
    text: &[u8],
    at: usize,
) -> Result<usize, LexError>
    requires place { at < length text.now }
    requires small { length text.now < 4294967296 }
    ensures within { IfOk result (λ e. (at < e) × (e ≤ length text.now)) }
    ensures value { Gives (λ e. (state_of lexer.new, e)) result (names.variable_step text.now at (state_of lexer.old)) }
    ensures fault { IfErr result (λ e. IsWithin (length text.now) e) }
{
    if is_name_start(byte_at(text, at + 1)) {
        push_variable(alloc, lexer, text, at)
    } else if text[at] == b'@' {
        class_variable(lexer, text, at)
    } else {
        special_global(lexer, text, at)
    }
}

/// Where the name of an operator's method ends that begins at a place; the place itself where none does.
pub fn operator_end(text: &[u8], at: usize) -> usize
    requires { at ≤ length text.now }
    ensures forward { at ≤ result }
    ensures within { result ≤ length text.now }
    ensures value { result ≡ names.operator_end text.now at }
{
    at + operator_name(
        byte_at(text, at),
        byte_at(text, at + 1),
        byte_at(text, at + 2),
    )
}

/// The name of an operator's method where a name is wanted; it ends at `end`.
pub fn push_operator(
    alloc: Global,
    lexer: &mut Lexer,
    text: &[u8],
    at: usize,
    end: usize,
) -> Result<usize, LexError>
    requires forward { at < end }
    requires within { end ≤ length text.now }
    requires small { length text.now < 4294967296 }
    ensures place { IfOk result (λ e. (at < e) × (e ≤ length text.now)) }
    ensures value { Gives (λ e. (state_of lexer.new, e)) result
        (names.name_of text.now at end true (state_of lexer.old)) }
    ensures fault { IfErr result (λ e. IsWithin (length text.now) e) }
{
    push_name(alloc, lexer, text, at, end, true)
}

/// Where the name of a symbol ends that begins at a place; the place itself where none does.
#[tactic(auto, unfolding(crate::specs::Names::symbol_name_end))]
pub fn symbol_name_end(text: &[u8], at: usize) -> usize
    requires { at ≤ length text.now }
    ensures forward { at ≤ result }
    ensures within { result ≤ length text.now }
    ensures value { result ≡ names.symbol_name_end text.now at }
{
    let first = byte_at(text, at);
    if is_name_start(first) {
        symbol_end(text, name_end(text, at + 1))
    } else if (first == b'@' || first == b'$') && is_name_start(byte_at(text, at + 1)) {
        name_end(text, at + 2)
    } else {
        operator_end(text, at)
    }
}
