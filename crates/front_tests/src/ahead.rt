use parser_ahead::groups::{TargetUse, is_nested_group, is_target_group};
use parser_ahead::names::Names;
use parser_ahead::primary::{
    BlockStyle, DoOwner, PartStart, Place, Primary, Start, block_at, lambda_block_at, part_at,
    primary_at, start_at,
};
use parser_ahead::sections::{Compound, SectionKind, first_section, next_section};
use parser_tokens::starts::Jump;
use rb_base::Bytes;
use rb_syntax::{Keyword, Outside, Punctuator, Token, TokenKind};
use std::alloc::{AllocError, Global};
use std::process::Abort;
use std::test::Fail;

/// The token of a word: a mark or a keyword, `"` and `'` for the ends of a string, `"#` for the end of a key, a
/// name, or `1`.
fn kind_of(alloc: Global, word: &str) -> Result<TokenKind, AllocError> {
    let kind = match word {
        "(" => TokenKind::Punctuator(Punctuator::OpenParenthesis),
        ")" => TokenKind::Punctuator(Punctuator::CloseParenthesis),
        "[" => TokenKind::Punctuator(Punctuator::OpenBracket),
        "]" => TokenKind::Punctuator(Punctuator::CloseBracket),
        "{" => TokenKind::Punctuator(Punctuator::OpenBrace),
        "," => TokenKind::Punctuator(Punctuator::Comma),
        "=" => TokenKind::Punctuator(Punctuator::Assign),
        "*" => TokenKind::Punctuator(Punctuator::Star),
        "**" => TokenKind::Punctuator(Punctuator::StarStar),
        "&" => TokenKind::Punctuator(Punctuator::Ampersand),
        "!" => TokenKind::Punctuator(Punctuator::Not),
        "->" => TokenKind::Punctuator(Punctuator::LambdaArrow),
        "if" => TokenKind::Keyword(Keyword::If),
        "do" => TokenKind::Keyword(Keyword::Do),
        "begin" => TokenKind::Keyword(Keyword::Begin),
        "defined?" => TokenKind::Keyword(Keyword::Defined),
        "return" => TokenKind::Keyword(Keyword::Return),
        "yield" => TokenKind::Keyword(Keyword::Yield),
        "\"" => TokenKind::StringBegin,
        "'" => TokenKind::LiteralEnd,
        "\"#" => TokenKind::Outside(Outside::QuotedLabel),
        "#{" => TokenKind::InterpolationBegin,
        "#}" => TokenKind::InterpolationEnd,
        "1" => TokenKind::Integer(1),
        "k:" => TokenKind::Label(Bytes::from_slice(alloc, b"k")?),
        "C" => TokenKind::Constant(Bytes::from_slice(alloc, b"C")?),
        _ => TokenKind::Identifier(Bytes::from_slice(alloc, word.as_bytes())?),
    };
    Ok(kind)
}

/// The tokens of words; one with a `.` before it stands directly behind the one before it.
fn tokens(alloc: Global, words: &[&str]) -> Result<Vec<Token>, AllocError> {
    let mut tokens = Vec::new(alloc);
    for word in words {
        let (space, word) = match word.strip_prefix(".") {
            Some(rest) => (false, rest),
            None => (true, *word),
        };
        tokens.push(Token {
            kind: kind_of(alloc, word)?,
            at: 0,
            space,
            line_start: false,
            value: true,
        })?;
    }
    Ok(tokens)
}

fn begins(rt: &impl Abort, alloc: Global, words: &[&str], expected: Primary) -> Result<(), Fail> {
    let mut names = Names::new(alloc);
    names.learn(alloc, b"x")?;
    assert_eq!(rt; primary_at(&names, &tokens(alloc, words)?), expected);
    Ok(())
}

#[test]
fn primaries(rt: HostRuntime) -> Result<(), Fail> {
    let alloc = rt.alloc();
    begins(&rt, alloc, &["x"], Primary::Local)?;
    begins(&rt, alloc, &["x", "(", "1", ")"], Primary::Local)?;
    begins(&rt, alloc, &["x", ".(", "1", ")"], Primary::Name)?;
    begins(&rt, alloc, &["f"], Primary::Name)?;
    begins(&rt, alloc, &["C"], Primary::Leaf)?;
    begins(&rt, alloc, &["C", ".(", "1", ")"], Primary::Name)?;
    begins(&rt, alloc, &["x", "x"], Primary::Name)?;
    begins(&rt, alloc, &["x", "[", "1", "]"], Primary::Local)?;
    begins(&rt, alloc, &["C", "1"], Primary::Name)?;
    begins(&rt, alloc, &["->"], Primary::Lambda)?;
    begins(&rt, alloc, &["begin"], Primary::Compound(Compound::Body))?;
    begins(&rt, alloc, &["defined?", "(", "x", ")"], Primary::Defined)?;
    begins(&rt, alloc, &["defined?", "x"], Primary::Leaf)?;
    begins(&rt, alloc, &[], Primary::Leaf)
}

fn starts(
    rt: &impl Abort,
    alloc: Global,
    place: Place,
    words: &[&str],
    expected: Start,
) -> Result<(), Fail> {
    assert_eq!(rt; start_at(place, &tokens(alloc, words)?), expected);
    Ok(())
}

#[test]
fn phrases(rt: HostRuntime) -> Result<(), Fail> {
    let alloc = rt.alloc();
    let (first, second) = (Place::Statement, Place::Argument);
    starts(&rt, alloc, first, &["*", "x", "=", "y"], Start::Targets)?;
    starts(&rt, alloc, Place::Command, &["*", "x"], Start::Operand)?;
    starts(
        &rt,
        alloc,
        first,
        &["(", "x", ",", "y", ")", "=", "z"],
        Start::Targets,
    )?;
    starts(
        &rt,
        alloc,
        first,
        &["(", "x", ")", "[", "1", "]", "=", "z"],
        Start::Operand,
    )?;
    starts(
        &rt,
        alloc,
        first,
        &["return", "1"],
        Start::Jump(Jump::Return),
    )?;
    starts(&rt, alloc, first, &["return", ")"], Start::Operand)?;
    starts(&rt, alloc, second, &["return", "1"], Start::Operand)?;
    starts(
        &rt,
        alloc,
        first,
        &["yield", ".(", "1", ")"],
        Start::Operand,
    )?;
    starts(&rt, alloc, first, &["yield", "(", "1", ")"], Start::Yield)?;
    starts(&rt, alloc, first, &["!", "f", "1"], Start::Not)?;
    starts(&rt, alloc, second, &["!", "f"], Start::Operand)?;
    starts(&rt, alloc, second, &["defined?", "x"], Start::Defined)
}

fn part(rt: &impl Abort, alloc: Global, words: &[&str], expected: PartStart) -> Result<(), Fail> {
    assert_eq!(rt; part_at(&tokens(alloc, words)?), expected);
    Ok(())
}

#[test]
fn parts_of_lists(rt: HostRuntime) -> Result<(), Fail> {
    let alloc = rt.alloc();
    part(&rt, alloc, &["*", "x"], PartStart::Splat)?;
    part(&rt, alloc, &["**", "x"], PartStart::DoubleSplat)?;
    part(&rt, alloc, &["&", "x"], PartStart::Block)?;
    part(&rt, alloc, &["k:", "1"], PartStart::Label)?;
    part(&rt, alloc, &["\"", "\"#", "1"], PartStart::QuotedKey)?;
    part(
        &rt,
        alloc,
        &["\"", "#{", "\"", "'", "#}", "'", "1"],
        PartStart::Value,
    )?;
    part(
        &rt,
        alloc,
        &["\"", "#{", "\"", "\"#", "1", "#}", "'"],
        PartStart::Value,
    )
}

#[test]
fn groups(rt: HostRuntime) -> Result<(), Fail> {
    let alloc = rt.alloc();
    let nested = tokens(
        alloc,
        &["(", "(", "x", ",", "y", ")", ",", "z", ")", "=", "f"],
    )?;
    assert!(rt; is_target_group(&nested));
    let value = tokens(alloc, &["(", "x", ")", "."])?;
    assert!(rt; !is_target_group(&value));
    let inner = tokens(alloc, &["(", "x", ",", "y", ")", ")", "=", "f"])?;
    assert!(rt; !is_target_group(&inner));
    assert!(rt; is_nested_group(TargetUse::Assignment, &inner));
    assert!(rt; !is_nested_group(TargetUse::For, &inner));
    assert!(rt; is_nested_group(TargetUse::Pattern, &value));
    Ok(())
}

#[test]
fn blocks(rt: HostRuntime) -> Result<(), Fail> {
    let opening = tokens(rt.alloc(), &["do"])?;
    let within = DoOwner::Call.in_command();
    assert_eq!(rt; block_at(DoOwner::Call, &opening), Some(BlockStyle::Do));
    assert_eq!(rt; block_at(within, &opening), None);
    assert_eq!(rt; lambda_block_at(within, &opening), Some(BlockStyle::Do));
    assert_eq!(rt; lambda_block_at(DoOwner::Loop.in_command(), &opening), None);
    let brace = tokens(rt.alloc(), &["{"])?;
    assert_eq!(rt; block_at(DoOwner::Loop, &brace), Some(BlockStyle::Brace));
    Ok(())
}

/// The section that a keyword begins.
fn behind(
    alloc: Global,
    form: Compound,
    before: SectionKind,
    keyword: Keyword,
) -> Result<Option<SectionKind>, AllocError> {
    let mut tokens = Vec::new(alloc);
    tokens.push(Token {
        kind: TokenKind::Keyword(keyword),
        at: 0,
        space: true,
        line_start: true,
        value: true,
    })?;
    Ok(next_section(form, before, &tokens))
}

#[test]
fn sections(rt: HostRuntime) -> Result<(), Fail> {
    let alloc = rt.alloc();
    let body = first_section(Compound::Body);
    let rescue = behind(alloc, Compound::Body, body, Keyword::Rescue)?;
    assert_eq!(rt; rescue, Some(SectionKind::Rescue));
    let late = behind(alloc, Compound::Body, SectionKind::Else, Keyword::Rescue)?;
    assert_eq!(rt; late, None);
    let twice = behind(alloc, Compound::Body, SectionKind::Ensure, Keyword::Ensure)?;
    assert_eq!(rt; twice, None);
    let bare = behind(
        alloc,
        Compound::Case,
        first_section(Compound::Case),
        Keyword::Else,
    )?;
    assert_eq!(rt; bare, None);
    let other = behind(alloc, Compound::Unless, SectionKind::Test, Keyword::Elsif)?;
    assert_eq!(rt; other, None);
    let walk = behind(alloc, Compound::For, SectionKind::Walk, Keyword::Else)?;
    assert_eq!(rt; walk, None);
    Ok(())
}

#[test]
fn names_of_a_block(rt: HostRuntime) -> Result<(), Fail> {
    let alloc = rt.alloc();
    let mut names = Names::new(alloc);
    names.learn(alloc, b"total")?;
    let mark = names.len();
    names.declare(alloc, b"item", true)?;
    names.learn(alloc, b"double")?;
    names.learn(alloc, b"double")?;
    names.learn(alloc, b"total")?;
    let locals = names.locals_from(alloc, mark)?;
    assert_eq!(rt; locals.len(), 1);
    assert!(rt; names.is_known(b"item"));
    names.forget_from(mark);
    assert!(rt; !names.is_known(b"double"));
    assert!(rt; names.is_known(b"total"));
    Ok(())
}
