//! What is derived of a text, as a text, for tests.
use crate::page::{Page, Printed};
use parser_tree::Source;
use rb_lexer::{LexError, lex};
use rb_parser::{ParseError, derive, parse};
use rb_syntax::Token;
use std::alloc::Global;
use std::process::Abort;
use std::test::Fail;

/// Whether words that may not stand where they stand are refused.
#[derive(Clone, Copy)]
pub enum Rules {
    Grammar,
    All,
}

fn read(alloc: Global, tokens: &[Token], size: u32, rules: Rules) -> Result<Source, ParseError> {
    match rules {
        Rules::Grammar => derive(alloc, tokens, size),
        Rules::All => parse(alloc, tokens, size),
    }
}

/// The tree as text, or the refusal. The parentheses of the whole are left out.
pub fn line_of(rt: &impl Abort, alloc: Global, text: &[u8], rules: Rules) -> Result<Vec<u8>, Fail> {
    assert!(rt; text.len() < 4294967296);
    let size = text.len() as u32;
    let mut page = Page::new(alloc);
    match lex(alloc, text) {
        Ok(tokens) => match read(alloc, &tokens, size, rules) {
            Ok(source) => source.body.print(&mut page)?,
            Err(error) => {
                let refusal = format!(in alloc; "{error:?}")?;
                page.text.extend_from_slice(refusal.as_bytes())?;
            }
        },
        Err(LexError::Syntax { at }) => {
            let refusal = format!(in alloc; "lexing {at}")?;
            page.text.extend_from_slice(refusal.as_bytes())?;
        }
        Err(LexError::NoMemory) => page.text.extend_from_slice(b"no memory")?,
    }
    Ok(page.text)
}

/// Each text gives the tree, or the refusal, beside it.
pub fn all_read(rt: &impl Abort, alloc: Global, rows: &[(&str, &str)]) -> Result<(), Fail> {
    all_lines(rt, alloc, rows, Rules::Grammar)
}

/// The same by these rules.
pub fn all_lines(
    rt: &impl Abort,
    alloc: Global,
    rows: &[(&str, &str)],
    rules: Rules,
) -> Result<(), Fail> {
    for (text, tree) in rows {
        let line = line_of(rt, alloc, text.as_bytes(), rules)?;
        assert_eq!(rt; line.as_slice(), tree.as_bytes(), "{text}");
    }
    Ok(())
}
