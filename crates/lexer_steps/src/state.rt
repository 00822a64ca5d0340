//! What was read so far.
use crate::error::LexError;
use crate::mode::Mode;
use lexer_literals::Escaped;
use lexer_tables::{Context, after_keyword};
use rb_base::Bytes;
use rb_syntax::{Keyword, Token, TokenKind};
use std::alloc::Global;
use std::mem;

/// What was read so far.
#[derive(Drop)]
pub struct Lexer {
    pub tokens: Vec<Token>,
    /// What the place is inside of, the innermost last.
    pub modes: Vec<Mode>,
    pub context: Context,
    /// Whether white space stands directly before the place.
    pub space: bool,
    /// Whether no token stands before the place on its line.
    pub fresh: bool,
    /// Whether the parameters of a block are open.
    pub bars: bool,
    /// How many interpolations are open.
    pub inside: usize,
    /// The bytes of a literal that are no token yet.
    pub piece: Vec<u8>,
    /// Where they begin.
    pub piece_at: u32,
}

impl Lexer {
    ghost use Rattle.std.specs.Prelude.{◌≡◌, ◌<◌, OnOk, IfErr};
    ghost use Rattle.lexer_literals.specs.Escaping.{bytes_of};
    ghost use Rattle.lexer_steps.specs.State as state;
    ghost use Rattle.lexer_steps.specs.State.{state_of};
    ghost use Rattle.lexer_steps.specs.declared.error.LexError.TheVariants as errors;

    /// Nothing was read.
    pub fn new(alloc: Global) -> Lexer
        ensures { state_of result ≡ state.opening }
    {
        Lexer {
            tokens: Vec::new(alloc),
            modes: Vec::new(alloc),
            context: Context::Start,
            space: false,
            fresh: true,
            bars: false,
            inside: 0,
            piece: Vec::new(alloc),
            piece_at: 0,
        }
    }

    /// One token more, with a flag of its own for the value.
    pub fn push_as(
        &mut self,
        at: usize,
        kind: TokenKind,
        value: bool,
        context: Context,
    ) -> Result<(), LexError>
        requires { at < 4294967296 }
        ensures ok { OnOk result (state_of self.new ≡ state.pushed_as (state_of self.old) at kind value context) }
        ensures err { IfErr result (λ e. e ≡ errors.NoMemory) }
    {
        self.tokens.push(Token {
            kind,
            at: at as u32,
            space: self.space,
            line_start: self.fresh,
            value,
        })?;
        self.context = context;
        self.space = false;
        self.fresh = false;
        Ok(())
    }

    /// One token more.
    pub fn push(&mut self, at: usize, kind: TokenKind, context: Context) -> Result<(), LexError>
        requires { at < 4294967296 }
        ensures ok { OnOk result (state_of self.new ≡ state.pushed (state_of self.old) at kind context) }
        ensures err { IfErr result (λ e. e ≡ errors.NoMemory) }
    {
        let value = self.context.expects_value();
        self.push_as(at, kind, value, context)
    }

    /// One keyword more.
    pub fn push_keyword(&mut self, at: usize, keyword: Keyword) -> Result<(), LexError>
        requires { at < 4294967296 }
        ensures ok { OnOk result (state_of self.new ≡ state.with_keyword (state_of self.old) at keyword) }
        ensures err { IfErr result (λ e. e ≡ errors.NoMemory) }
    {
        let value = self.context.expects_value_at(keyword);
        self.push_as(
            at,
            TokenKind::Keyword(keyword),
            value,
            after_keyword(keyword),
        )
    }

    /// White space was read.
    pub fn pass_space(&mut self)
        ensures { state_of self.new ≡ state.spaced (state_of self.old) }
    {
        self.space = true;
    }

    /// The end of a line was read.
    pub fn pass_line(&mut self)
        ensures { state_of self.new ≡ state.lined (state_of self.old) }
    {
        self.space = true;
        self.fresh = true;
    }

    /// The place is inside of something more.
    pub fn enter(&mut self, mode: Mode) -> Result<(), LexError>
        ensures ok { OnOk result (state_of self.new ≡ state.entered (state_of self.old) mode) }
        ensures err { IfErr result (λ e. e ≡ errors.NoMemory) }
    {
        self.modes.push(mode)?;
        Ok(())
    }

    /// The innermost thing ended.
    pub fn leave(&mut self)
        ensures { state_of self.new ≡ state.left (state_of self.old) }
    {
        let _ = self.modes.pop();
    }

    /// What the place is inside of.
    pub fn top(&self) -> Option<Mode>
        ensures { result ≡ state.top (state_of self.now) }
    {
        self.modes.last().copied()
    }

    /// The interpolation `#{` begins.
    pub fn enter_interpolation(&mut self) -> Result<(), LexError>
        ensures ok { OnOk result (state_of self.new ≡ state.interpolating (state_of self.old)) }
        ensures err { IfErr result (λ e. e ≡ errors.NoMemory) }
    {
        let Some(inside) = self.inside.checked_add(1) else {
            return Err(LexError::NoMemory);
        };
        self.inside = inside;
        self.enter(Mode::Interpolation)
    }

    /// An interpolation ends.
    pub fn leave_interpolation(&mut self)
        ensures { state_of self.new ≡ state.interpolated (state_of self.old) }
    {
        self.inside = self.inside.saturating_sub(1);
        self.leave();
    }

    /// One byte more of the literal, which stands at a place.
    pub fn add_byte(&mut self, at: usize, byte: u8) -> Result<(), LexError>
        requires { at < 4294967296 }
        ensures ok { OnOk result (state_of self.new ≡ state.appended (state_of self.old) at byte) }
        ensures err { IfErr result (λ e. e ≡ errors.NoMemory) }
    {
        if self.piece.is_empty() {
            self.piece_at = at as u32;
        }
        self.piece.push(byte)?;
        Ok(())
    }

    /// What an escape stands for, which is at a place of the literal.
    pub fn add_escaped(&mut self, at: usize, escaped: Escaped) -> Result<(), LexError>
        requires { at < 4294967296 }
        ensures ok { OnOk result (state_of self.new ≡ state.extended (state_of self.old) at (bytes_of escaped)) }
        ensures err { IfErr result (λ e. e ≡ errors.NoMemory) }
    {
        if self.piece.is_empty() {
            self.piece_at = at as u32;
        }
        escaped.push_to(&mut self.piece)?;
        Ok(())
    }

    /// The bytes of the literal so far, of which none are left.
    fn take_piece(&mut self, alloc: Global) -> Bytes
        ensures bytes { result ≡ self.old.piece.items }
        ensures rest { state_of self.new ≡ state.emptied (state_of self.old) }
    {
        Bytes::from_vec(mem::replace(&mut self.piece, Vec::new(alloc)))
    }

    /// The bytes of the literal so far are a token.
    pub fn flush(&mut self, alloc: Global) -> Result<(), LexError>
        ensures ok { OnOk result (state_of self.new ≡ state.flushed (state_of self.old)) }
        ensures err { IfErr result (λ e. e ≡ errors.NoMemory) }
    {
        if self.piece.is_empty() {
            return Ok(());
        }
        let at = self.piece_at as usize;
        let kind = TokenKind::Piece(self.take_piece(alloc));
        self.push(at, kind, Context::Operand)
    }

    /// The bytes of a list's element so far are a token.
    pub fn flush_word(&mut self, alloc: Global) -> Result<(), LexError>
        ensures ok { OnOk result (state_of self.new ≡ state.flushed_word (state_of self.old)) }
        ensures err { IfErr result (λ e. e ≡ errors.NoMemory) }
    {
        if self.piece.is_empty() {
            return Ok(());
        }
        let at = self.piece_at as usize;
        let kind = TokenKind::Word(self.take_piece(alloc));
        self.push(at, kind, Context::Operand)
    }
}
