ghost use Rattle.std.specs.Prelude.{◌≡◌, ◌≤◌, length};
ghost use Rattle.line_ends.specs.Lines as ends;
ghost use Rattle.rb_front.specs.Errors.{lex_error, lower_error, parse_error, placed};

use line_ends::place_in;
use rb_lexer::LexError;
use rb_lower::LowerError;
use rb_parser::ParseError;
use rb_syntax::Outside;

/// Why a text has no core. `at` is a place in the text, at most its length.
#[derive(Clone, Copy, Debug, PartialEq, Eq)]
pub enum FrontError {
    /// The text has more than 16,777,216 bytes.
    TooLong,
    /// It has no tokens, or these have no tree, or a word stands where it may not.
    Syntax { at: u32 },
    /// The tokens are more than 256 deep.
    TooDeep,
    /// A construct outside the language, with the place of the word that names it.
    Outside { what: Outside, at: u32 },
    /// Memory ran out.
    NoMemory,
}

/// The place in a text of what stands at `at` of its lines.
fn place_of(text: &[u8], at: u32) -> u32
    requires { length text.now ≤ 16777216 }
    ensures value { result ≡ ends.place_in text.now at }
    ensures within { result ≤ length text.now }
{
    place_in(text, at as usize) as u32
}

impl FrontError {
    /// The same of a text, where this is of its lines: `at` is the place there.
    pub(crate) fn placed_in(self, text: &[u8]) -> FrontError
        requires { length text.now ≤ 16777216 }
        ensures { result ≡ placed text.now self }
    {
        match self {
            FrontError::Syntax { at } => FrontError::Syntax {
                at: place_of(text, at),
            },
            FrontError::Outside { what, at } => FrontError::Outside {
                what,
                at: place_of(text, at),
            },
            FrontError::TooLong | FrontError::TooDeep | FrontError::NoMemory => self,
        }
    }
}

impl From<LexError> for FrontError {
    ghost from_gives = { λ e f. f ≡ lex_error e };

    fn from(error: LexError) -> FrontError {
        match error {
            LexError::Syntax { at } => FrontError::Syntax { at },
            LexError::NoMemory => FrontError::NoMemory,
        }
    }
}

impl From<ParseError> for FrontError {
    ghost from_gives = { λ e f. f ≡ parse_error e };

    fn from(error: ParseError) -> FrontError {
        match error {
            ParseError::Syntax { at } => FrontError::Syntax { at },
            ParseError::NoMemory => FrontError::NoMemory,
        }
    }
}

impl From<LowerError> for FrontError {
    ghost from_gives = { λ e f. f ≡ lower_error e };

    fn from(error: LowerError) -> FrontError {
        match error {
            LowerError::Outside { what, at } => FrontError::Outside { what, at },
            LowerError::NoMemory => FrontError::NoMemory,
        }
    }
}
