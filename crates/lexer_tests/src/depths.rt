use lexer_depth::depth;
use rb_syntax::{Punctuator, Token, TokenKind};
use std::alloc::{AllocError, Global};
use std::process::Abort;
use std::test::Fail;

fn mark(punctuator: Punctuator, value: bool) -> Token {
    Token {
        kind: TokenKind::Punctuator(punctuator),
        at: 0,
        space: false,
        line_start: false,
        value,
    }
}

/// `n` opening parentheses.
fn parentheses(alloc: Global, n: usize) -> Result<Vec<Token>, AllocError> {
    let mut tokens = Vec::new(alloc);
    for _ in 0..n {
        tokens.push(mark(Punctuator::OpenParenthesis, true))?;
    }
    Ok(tokens)
}

fn has_depth(rt: &impl Abort, tokens: &[Token], expected: u32) {
    assert_eq!(rt; depth(tokens), expected);
}

#[test]
fn open_brackets(rt: HostRuntime) -> Result<(), Fail> {
    has_depth(&rt, &[], 0);
    has_depth(&rt, &parentheses(rt.alloc(), 256)?, 256);
    has_depth(&rt, &parentheses(rt.alloc(), 257)?, 257);
    has_depth(&rt, &parentheses(rt.alloc(), 300)?, 257);
    Ok(())
}

#[test]
fn indexes_in_a_row(rt: HostRuntime) -> Result<(), Fail> {
    let mut tokens = Vec::new(rt.alloc());
    for _ in 0..255 {
        tokens.push(mark(Punctuator::OpenBracket, false))?;
        tokens.push(mark(Punctuator::CloseBracket, false))?;
    }
    has_depth(&rt, &tokens, 256);
    tokens.push(mark(Punctuator::OpenBracket, false))?;
    has_depth(&rt, &tokens, 257);
    Ok(())
}
