//! Marks, numbers and the openings of literals.
ghost use Rattle.std.specs.Prelude.{◌≡◌, ◌≤◌, ◌<◌, ◌+◌, length, IfOk, IfErr, IsTrue};
ghost use Rattle.lexer_steps.specs.declared.error.LexError.TheVariants.{NoMemory};
ghost use Rattle.lexer_steps.specs.LexError.{Gives, IsWithin};
ghost use Rattle.lexer_steps.specs.State.{state_of};
ghost use Rattle.lexer_steps.specs.Closed as closed;
ghost use Rattle.lexer_steps.specs.Signs as signs;

use crate::error::LexError;
use crate::mode::{Literal, Mode};
use crate::names::symbol_name_end;
use crate::outside::outside_step;
use crate::scan::byte_at;
use crate::state::Lexer;
use lexer_literals::{Delimiters, Tail, numeral};
use lexer_tables::bytes::{is_letter, is_name_byte, is_punctuation, is_white};
use lexer_tables::{Context, mark_of};
use rb_base::Bytes;
use rb_syntax::{Outside, Punctuator, TokenKind};
use std::alloc::Global;

/// The longest mark that begins at a place.
#[tactic(auto, unfolding(crate::specs::Signs::mark_step))]
fn mark_step(lexer: &mut Lexer, text: &[u8], at: usize) -> Result<usize, LexError>
    requires place { at < length text.now }
    requires small { length text.now < 4294967296 }
    ensures within { IfOk result (λ e. (at < e) × (e ≤ length text.now)) }
    ensures value { Gives (λ e. (state_of lexer.new, e)) result (signs.mark_step text.now at (state_of lexer.old)) }
    ensures fault { IfErr result (λ e. IsWithin (length text.now) e) }
{
    let found = mark_of(text[at], byte_at(text, at + 1), byte_at(text, at + 2));
    let Some(mark) = found else {
        return Err(LexError::Syntax { at: at as u32 });
    };
    let context = lexer.context.after_mark(mark.punctuator);
    lexer.push(at, TokenKind::Punctuator(mark.punctuator), context)?;
    Ok(at + mark.length)
}

/// A `|` that opens or closes the parameters of a block.
fn bar_step(lexer: &mut Lexer, at: usize) -> Result<usize, LexError>
    requires { at < 4294967295 }
    ensures place { IfOk result (λ e. e ≡ at + 1) }
    ensures value { Gives (λ e. (state_of lexer.new, e)) result (signs.bar_step at (state_of lexer.old)) }
    ensures fault { IfErr result (λ e. e ≡ NoMemory) }
{
    let opens = lexer.context.is_block();
    let mark = if opens {
        Punctuator::OpenBar
    } else {
        Punctuator::CloseBar
    };
    let context = if opens {
        Context::Start
    } else {
        Context::Value
    };
    lexer.push(at, TokenKind::Punctuator(mark), context)?;
    lexer.bars = opens;
    Ok(at + 1)
}

/// `{`
fn open_brace_step(lexer: &mut Lexer, at: usize) -> Result<usize, LexError>
    requires { at < 4294967295 }
    ensures place { IfOk result (λ e. e ≡ at + 1) }
    ensures value { Gives (λ e. (state_of lexer.new, e)) result (signs.open_brace_step at (state_of lexer.old)) }
    ensures fault { IfErr result (λ e. e ≡ NoMemory) }
{
    lexer.push(
        at,
        TokenKind::Punctuator(Punctuator::OpenBrace),
        Context::Block,
    )?;
    lexer.enter(Mode::Braces)?;
    Ok(at + 1)
}

/// `}`: the end of an interpolation or a brace.
fn close_brace_step(lexer: &mut Lexer, at: usize) -> Result<usize, LexError>
    requires { at < 4294967295 }
    ensures place { IfOk result (λ e. e ≡ at + 1) }
    ensures value { Gives (λ e. (state_of lexer.new, e)) result (signs.close_brace_step at (state_of lexer.old)) }
    ensures fault { IfErr result (λ e. e ≡ NoMemory) }
{
    if is_interpolation(lexer.top()) {
        lexer.push(at, TokenKind::InterpolationEnd, Context::Operand)?;
        lexer.leave_interpolation();
    } else {
        lexer.push(
            at,
            TokenKind::Punctuator(Punctuator::CloseBrace),
            Context::Operand,
        )?;
        lexer.leave();
    }
    Ok(at + 1)
}

fn is_interpolation(mode: Option<Mode>) -> bool
    ensures { result ≡ signs.is_interpolation mode }
{
    match mode {
        Some(Mode::Interpolation) => true,
        _ => false,
    }
}

/// The opening of a literal of `length` bytes.
fn open_literal(
    lexer: &mut Lexer,
    at: usize,
    length: usize,
    kind: TokenKind,
    mode: Mode,
) -> Result<usize, LexError>
    requires place { at < 4294967296 }
    requires short { length < 4 }
    ensures place { IfOk result (λ e. e ≡ at + length) }
    ensures value { Gives (λ e. (state_of lexer.new, e)) result
        (signs.open_literal at length kind mode (state_of lexer.old)) }
    ensures fault { IfErr result (λ e. e ≡ NoMemory) }
{
    lexer.push(at, kind, Context::Operand)?;
    lexer.enter(mode)?;
    Ok(at + length)
}

/// The end of a literal between two equal marks.
fn quoted(quote: u8, double: bool, key: Option<u32>) -> Literal
    ensures { result ≡ signs.quoted quote double key }
{
    Literal {
        delimiters: Delimiters {
            open: quote,
            close: quote,
        },
        depth: 0,
        double,
        key,
    }
}

/// The opening of a string in quotes.
#[tactic(auto, unfolding(crate::specs::Signs::quote_step))]
fn quote_step(lexer: &mut Lexer, text: &[u8], at: usize) -> Result<usize, LexError>
    requires place { at < length text.now }
    requires small { length text.now < 4294967296 }
    ensures within { IfOk result (λ e. (at < e) × (e ≤ length text.now)) }
    ensures value { Gives (λ e. (state_of lexer.new, e)) result (signs.quote_step text.now at (state_of lexer.old)) }
    ensures fault { IfErr result (λ e. IsWithin (length text.now) e) }
{
    let key = if lexer.context.is_question() {
        None
    } else {
        Some(at as u32)
    };
    let quote = text[at];
    let mode = Mode::Text(quoted(quote, quote == b'"', key));
    open_literal(lexer, at, 1, TokenKind::StringBegin, mode)
}

/// A colon: a symbol or a mark.
#[tactic(auto, unfolding(crate::specs::Signs::colon_step))]
fn colon_step(alloc: Global, lexer: &mut Lexer, text: &[u8], at: usize) -> Result<usize, LexError>
    requires place { at < length text.now }
    requires small { length text.now < 4294967296 }
    ensures within { IfOk result (λ e. (at < e) × (e ≤ length text.now)) }
    ensures value { Gives (λ e. (state_of lexer.new, e)) result (signs.colon_step text.now at (state_of lexer.old)) }
    ensures fault { IfErr result (λ e. IsWithin (length text.now) e) }
{
    if !lexer.context.expects_value() && !lexer.space {
        return mark_step(lexer, text, at);
    }
    let next = byte_at(text, at + 1);
    if next == b'"' || next == b'\'' {
        let mode = Mode::Text(quoted(next, next == b'"', None));
        return open_literal(lexer, at, 2, TokenKind::SymbolBegin, mode);
    }
    let end = symbol_name_end(text, at + 1);
    if end == at + 1 {
        return mark_step(lexer, text, at);
    }
    let name = Bytes::from_slice(alloc, &text[at + 1..end])?;
    let context = lexer.context.after_symbol();
    lexer.push(at, TokenKind::Symbol(name), context)?;
    Ok(end)
}

/// What a number is.
fn number_kind(value: Option<u64>, tail: Tail) -> TokenKind
    ensures { result ≡ signs.number_kind value tail }
{
    match tail {
        Tail::Nothing => match value {
            Some(n) => TokenKind::Integer(n),
            None => TokenKind::Outside(Outside::WideInteger),
        },
        Tail::Float => TokenKind::Outside(Outside::Float),
        Tail::Rational => TokenKind::Outside(Outside::Rational),
        Tail::Imaginary => TokenKind::Outside(Outside::Imaginary),
    }
}

/// A number.
#[tactic(auto, unfolding(crate::specs::Signs::number_step))]
fn number_step(lexer: &mut Lexer, text: &[u8], at: usize) -> Result<usize, LexError>
    requires place { at < length text.now }
    requires small { length text.now < 4294967296 }
    ensures within { IfOk result (λ e. (at < e) × (e ≤ length text.now)) }
    ensures value { Gives (λ e. (state_of lexer.new, e)) result (signs.number_step text.now at (state_of lexer.old)) }
    ensures fault { IfErr result (λ e. IsWithin (length text.now) e) }
{
    match numeral(text, at) {
        Ok(number) => {
            lexer.push(at, number_kind(number.value, number.tail), Context::Operand)?;
            Ok(number.end)
        }
        Err(fault) => Err(LexError::Syntax {
            at: fault.at as u32,
        }),
    }
}

/// Whether a mark stands after an identifier and white space, with none after it.
fn is_spaced(lexer: &Lexer, text: &[u8], at: usize) -> bool
    requires { at < length text.now }
    ensures value { result ≡ signs.is_spaced text.now at (state_of lexer.now) }
{
    lexer.context.is_name() && lexer.space && !is_white(byte_at(text, at + 1))
}

/// A mark that could be an operator or begin a literal.
fn ambiguous_step(lexer: &mut Lexer, at: usize) -> Result<usize, LexError>
    requires { at < 4294967295 }
    ensures place { IfOk result (λ e. e ≡ at + 1) }
    ensures value { Gives (λ e. (state_of lexer.new, e)) result (signs.ambiguous_step at (state_of lexer.old)) }
    ensures fault { IfErr result (λ e. e ≡ NoMemory) }
{
    lexer.push(at, TokenKind::Outside(Outside::Ambiguous), Context::Start)?;
    Ok(at + 1)
}

/// `/`: a regular expression or a mark.
#[tactic(auto, unfolding(crate::specs::Signs::slash_step))]
fn slash_step(lexer: &mut Lexer, text: &[u8], at: usize) -> Result<usize, LexError>
    requires place { at < length text.now }
    requires small { length text.now < 4294967296 }
    ensures within { IfOk result (λ e. (at < e) × (e ≤ length text.now)) }
    ensures value { Gives (λ e. (state_of lexer.new, e)) result (signs.slash_step text.now at (state_of lexer.old)) }
    ensures fault { IfErr result (λ e. IsWithin (length text.now) e) }
{
    if lexer.context.expects_value() {
        outside_step(lexer, text, at, at + 1, b'/', Outside::Regexp)
    } else if is_spaced(lexer, text, at) && byte_at(text, at + 1) != b'=' {
        ambiguous_step(lexer, at)
    } else {
        mark_step(lexer, text, at)
    }
}

/// A backquote, where a value is expected.
#[tactic(auto, unfolding(crate::specs::Signs::backquote_step))]
fn backquote_step(lexer: &mut Lexer, text: &[u8], at: usize) -> Result<usize, LexError>
    requires place { at < length text.now }
    requires small { length text.now < 4294967296 }
    ensures within { IfOk result (λ e. (at < e) × (e ≤ length text.now)) }
    ensures value { Gives (λ e. (state_of lexer.new, e)) result
        (signs.backquote_step text.now at (state_of lexer.old)) }
    ensures fault { IfErr result (λ e. IsWithin (length text.now) e) }
{
    if lexer.context.expects_value() {
        outside_step(lexer, text, at, at + 1, b'`', Outside::Backquote)
    } else {
        Err(LexError::Syntax { at: at as u32 })
    }
}

/// Whether `?` and a byte at a place are a string: the byte prints and is no backslash, and no name goes on after it.
fn is_character(text: &[u8], at: usize) -> bool
    requires { at < length text.now }
    ensures value { result ≡ signs.is_character text.now at }
    ensures within { IsTrue result → at + 1 < length text.now }
{
    let byte = byte_at(text, at + 1);
    byte > 32 && byte < 127 && byte != b'\\' && !is_name_byte(byte_at(text, at + 2))
}

/// `?`: a string of one byte or a mark.
#[tactic(auto, unfolding(crate::specs::Signs::question_step))]
fn question_step(lexer: &mut Lexer, text: &[u8], at: usize) -> Result<usize, LexError>
    requires place { at < length text.now }
    requires small { length text.now < 4294967296 }
    ensures within { IfOk result (λ e. (at < e) × (e ≤ length text.now)) }
    ensures value { Gives (λ e. (state_of lexer.new, e)) result (signs.question_step text.now at (state_of lexer.old)) }
    ensures fault { IfErr result (λ e. IsWithin (length text.now) e) }
{
    if lexer.context.expects_value() && is_character(text, at) {
        let byte = byte_at(text, at + 1);
        lexer.push(at, TokenKind::Character(byte), Context::Operand)?;
        Ok(at + 2)
    } else if is_spaced(lexer, text, at) {
        ambiguous_step(lexer, at)
    } else {
        mark_step(lexer, text, at)
    }
}

/// The mark that closes what a mark opens.
pub fn closing(opener: u8) -> u8
    ensures { result ≡ closed.closing opener }
{
    match opener {
        b'(' => b')',
        b'[' => b']',
        b'{' => b'}',
        b'<' => b'>',
        other => other,
    }
}

/// Whether a literal of the language with `%` may have this delimiter.
fn is_delimiter(byte: u8) -> bool
    ensures { result ≡ signs.is_delimiter byte }
{
    match byte {
        b'(' | b'[' | b'{' | b'<' | b'|' | b'!' | b'/' => true,
        _ => false,
    }
}

/// Whether a letter and a delimiter after `%` begin a literal of the language.
fn is_percent_letter(letter: u8, delimiter: u8) -> bool
    ensures { result ≡ signs.is_percent_letter letter delimiter }
{
    (letter == b'q' || letter == b'Q' || letter == b'w' || letter == b'i')
        && is_delimiter(delimiter)
}

/// The literal with `%` that a delimiter opens.
fn percent_literal(opener: u8, double: bool) -> Literal
    ensures { result ≡ signs.percent_literal opener double }
{
    Literal {
        delimiters: Delimiters {
            open: opener,
            close: closing(opener),
        },
        depth: 0,
        double,
        key: None,
    }
}

/// The opening of a literal with `%`, a letter and a delimiter.
#[tactic(auto, unfolding(crate::specs::Signs::letter_step))]
fn letter_step(lexer: &mut Lexer, at: usize, letter: u8, delimiter: u8) -> Result<usize, LexError>
    requires { at < 4294967296 }
    ensures place { IfOk result (λ e. e ≡ at + 3) }
    ensures value { Gives (λ e. (state_of lexer.new, e)) result
        (signs.letter_step at letter delimiter (state_of lexer.old)) }
    ensures fault { IfErr result (λ e. e ≡ NoMemory) }
{
    let literal = percent_literal(delimiter, letter == b'Q');
    match letter {
        b'w' => open_literal(lexer, at, 3, TokenKind::WordsBegin, Mode::Words(literal)),
        b'i' => open_literal(lexer, at, 3, TokenKind::SymbolsBegin, Mode::Words(literal)),
        _ => open_literal(lexer, at, 3, TokenKind::StringBegin, Mode::Text(literal)),
    }
}

/// `%` where a value is expected.
#[tactic(auto, unfolding(crate::specs::Signs::percent_value_step))]
fn percent_value_step(lexer: &mut Lexer, text: &[u8], at: usize) -> Result<usize, LexError>
    requires place { at < length text.now }
    requires small { length text.now < 4294967296 }
    ensures within { IfOk result (λ e. (at < e) × (e ≤ length text.now)) }
    ensures value { Gives (λ e. (state_of lexer.new, e)) result
        (signs.percent_value_step text.now at (state_of lexer.old)) }
    ensures fault { IfErr result (λ e. IsWithin (length text.now) e) }
{
    let next = byte_at(text, at + 1);
    let second = byte_at(text, at + 2);
    if is_delimiter(next) {
        let mode = Mode::Text(percent_literal(next, true));
        open_literal(lexer, at, 2, TokenKind::StringBegin, mode)
    } else if is_percent_letter(next, second) {
        letter_step(lexer, at, next, second)
    } else if is_letter(next) && is_punctuation(second) {
        outside_step(lexer, text, at, at + 3, second, Outside::PercentLiteral)
    } else if is_punctuation(next) {
        outside_step(lexer, text, at, at + 2, next, Outside::PercentLiteral)
    } else {
        mark_step(lexer, text, at)
    }
}

/// `%`: a literal or a mark.
#[tactic(auto, unfolding(crate::specs::Signs::percent_step))]
fn percent_step(lexer: &mut Lexer, text: &[u8], at: usize) -> Result<usize, LexError>
    requires place { at < length text.now }
    requires small { length text.now < 4294967296 }
    ensures within { IfOk result (λ e. (at < e) × (e ≤ length text.now)) }
    ensures value { Gives (λ e. (state_of lexer.new, e)) result (signs.percent_step text.now at (state_of lexer.old)) }
    ensures fault { IfErr result (λ e. IsWithin (length text.now) e) }
{
    if lexer.context.expects_value() {
        return percent_value_step(lexer, text, at);
    }
    let next = byte_at(text, at + 1);
    if !is_spaced(lexer, text, at) || next == b'=' {
        return mark_step(lexer, text, at);
    }
    let second = byte_at(text, at + 2);
    if is_percent_letter(next, second) {
        letter_step(lexer, at, next, second)
    } else {
        ambiguous_step(lexer, at)
    }
}

/// `;`
fn semicolon_step(lexer: &mut Lexer, at: usize) -> Result<usize, LexError>
    requires { at < 4294967295 }
    ensures place { IfOk result (λ e. e ≡ at + 1) }
    ensures value { Gives (λ e. (state_of lexer.new, e)) result (signs.semicolon_step at (state_of lexer.old)) }
    ensures fault { IfErr result (λ e. e ≡ NoMemory) }
{
    lexer.push(at, TokenKind::Semicolon, Context::Start)?;
    Ok(at + 1)
}

/// A `|`.
#[tactic(auto, unfolding(crate::specs::Signs::pipe_step))]
fn pipe_step(lexer: &mut Lexer, text: &[u8], at: usize) -> Result<usize, LexError>
    requires place { at < length text.now }
    requires small { length text.now < 4294967296 }
    ensures within { IfOk result (λ e. (at < e) × (e ≤ length text.now)) }
    ensures value { Gives (λ e. (state_of lexer.new, e)) result (signs.pipe_step text.now at (state_of lexer.old)) }
    ensures fault { IfErr result (λ e. IsWithin (length text.now) e) }
{
    if lexer.context.is_block() || lexer.bars {
        bar_step(lexer, at)
    } else {
        mark_step(lexer, text, at)
    }
}

/// A number, a mark or the opening of a literal.
#[tactic(auto, unfolding(crate::specs::Signs::sign_step))]
pub fn sign_step(
    alloc: Global,
    lexer: &mut Lexer,
    text: &[u8],
    at: usize,
) -> Result<usize, LexError>
    requires place { at < length text.now }
    requires small { length text.now < 4294967296 }
    ensures within { IfOk result (λ e. (at < e) × (e ≤ length text.now)) }
    ensures value { Gives (λ e. (state_of lexer.new, e)) result (signs.sign_step text.now at (state_of lexer.old)) }
    ensures fault { IfErr result (λ e. IsWithin (length text.now) e) }
{
    match text[at] {
        b'0'..=b'9' => number_step(lexer, text, at),
        b'"' | b'\'' => quote_step(lexer, text, at),
        b':' => colon_step(alloc, lexer, text, at),
        b'{' => open_brace_step(lexer, at),
        b'}' => close_brace_step(lexer, at),
        b'|' => pipe_step(lexer, text, at),
        b';' => semicolon_step(lexer, at),
        b'/' => slash_step(lexer, text, at),
        b'?' => question_step(lexer, text, at),
        b'%' => percent_step(lexer, text, at),
        b'`' => backquote_step(lexer, text, at),
        _ => mark_step(lexer, text, at),
    }
}
