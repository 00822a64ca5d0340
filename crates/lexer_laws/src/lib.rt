//! What the tokens of a text are, as a relation: after white space and comments, each place of the text begins the
//! longest token that the rules allow after the token before it. There is no code here: the laws bind the rules to
//! the definitions that the contract of `rb_lexer::lex` cites.
//!
//! `specs::Reads::Reads` relates a text and its tokens. Its rules are one a class, on the text and the place:
//!
//! - Longest, Names, Words: names, their marks, labels, keywords, identifiers, constants, names of methods
//! - Numbers: integers; Float, Rational and Imaginary literals by the definition of lexer_literals
//! - Operators, Signs: marks, bars of parameters, symbols without quotes, characters, ambiguous marks
//! - Closed: regular expressions, backquotes and other literals outside the language
//! - Gaps: white space, comments, dropped newlines
//! - Literals: strings, symbols in quotes, `%` literals and lists of words: how they open, and the bytes within
//! - Within: what is open at a place, and heredocs: the stretch of the text that is read; their heads by the definition
//!   of rb_lexer and their bodies by that of rb_heredoc
//! - Place: what the token before says, and the flags of a token
//! - Reads: the tokens by themselves, and the readings of whole texts, with openings, interpolations and ends
//!
//! Laws in both directions: names, words, integers, operators and their names, variables, semicolons,
//! characters, white space and comments.
//!
//! Every kind of token that `lex` gives has a rule. Laws that are missing:
//!
//! - literals, interpolations and heredocs have rules, but no laws beyond the examples of [`a_text_reads`]
//! - tokens outside the language but `WideInteger` and `NonAsciiName` have rules, but no laws
//! - newlines, comments of whole lines, symbols, bars and ambiguous marks have rules, but no laws
//! - [`operators_are_tokens`] is about the step that reads a mark, and not about when that step is reached
//! - at most one list of tokens reads a text; what `lex` gives reads the text; what reads the text `lex` gives
#![tactic(auto)]

ghost use Rattle.std.specs.Prelude.{◌≡◌, ◌+◌, ◌<◌, ℕ, List, ◌-◌, length, drop, slice_index, true, false, Some, Ok};
ghost use Rattle.lexer_literals.specs.declared.numbers.Number.{Number};
ghost use Rattle.lexer_literals.specs.declared.numbers.Tail.TheVariants.{Nothing};
ghost use Rattle.lexer_literals.specs.Numbers.{numeral_at};
ghost use Rattle.rb_syntax.specs.declared.outside.Outside.TheVariants.{NonAsciiName, WideInteger};
ghost use Rattle.lexer_literals.specs.declared.integers.Scanned.{Scanned};
ghost use Rattle.lexer_literals.specs.Integers.{integer_at, narrow};
ghost use Rattle.lexer_laws.specs.Numbers.{IsNarrowInteger, IsWholeInteger, IsWideInteger, NoTail};
ghost use Rattle.lexer_steps.specs.Scan.{is_wide_name_byte, name_end, mark_end};
ghost use Rattle.rb_syntax.specs.declared.punctuator.Punctuator.{Punctuator};
ghost use Rattle.lexer_tables.specs.ByteClass.{is_blank, is_digit, is_name_start, is_wide};
ghost use Rattle.lexer_tables.specs.declared.marks.Mark.{Mark};
ghost use Rattle.lexer_tables.specs.Marks.{mark_of};
ghost use Rattle.lexer_laws.specs.Example.{text as example, tokens as example_tokens, string_text, string_tokens, heredoc_text, heredoc_tokens, words_text, words_tokens};
ghost use Rattle.lexer_laws.specs.Gaps.{IsComment};
ghost use Rattle.lexer_laws.specs.Longest.{IsLongest, IsRun};
ghost use Rattle.lexer_steps.specs.State.{State, spaced};
ghost use Rattle.rb_lexer.specs.Code.{code_step, other_step};
ghost use Rattle.rb_lexer.specs.Lexing.{tokens_of};
ghost use Rattle.rb_syntax.specs.declared.keyword.Keyword.{Keyword};
ghost use Rattle.rb_syntax.specs.declared.token.TokenKind.{TokenKind};
ghost use Rattle.rb_syntax.specs.declared.token.TokenKind.TheVariants as kinds;
ghost use Rattle.lexer_steps.specs.Names.{is_end_marker, operator_end, spelled, variable_step, word_step};
ghost use Rattle.lexer_steps.specs.Signs.{is_character, mark_step, number_step};
ghost use Rattle.lexer_laws.specs.Reads.{IsMethodOperator, IsToken, IsVariableToken, Reads};
ghost use Rattle.lexer_laws.specs.Taking.{place_of, took};
ghost use Rattle.lexer_laws.specs.Words.{IsLabel, IsKeyword, IsIdentifier, IsConstant, IsMethodWord, IsWideName};
ghost use Rattle.lexer_laws.specs.Signs.{IsCharacter, IsOperatorName};
ghost use Rattle.lexer_tables.specs.Following.{expects_value};
ghost use Rattle.lexer_laws.specs.White.{steps};
ghost use Rattle.lexer_laws.specs.Names.{IsName, IsWord};
ghost use Rattle.lexer_laws.specs.Operators.{LongestOperator};

/// The end that the lexer reads of a name is that of the longest name there, and no other.
pub fn names_are_longest()
    ensures sound { (text : List ℕ) (at : ℕ) → is_name_start (slice_index text at) ≡ true
        → IsLongest (IsName text at) (name_end (at + 1) (drop (at + 1) text)) }
    ensures complete { (text : List ℕ) (at end : ℕ) → IsLongest (IsName text at) end
        → name_end (at + 1) (drop (at + 1) text) ≡ end }
{}

/// The mark that the lexer reads is the longest of the table that stands there, and no other.
pub fn operators_are_longest()
    ensures sound { (text : List ℕ) (at : ℕ) (m : Mark)
        → mark_of (slice_index text at) (slice_index text (at + 1)) (slice_index text (at + 2)) ≡ Some m
        → LongestOperator text at m.punctuator (at + m.length) }
    ensures complete { (text : List ℕ) (at : ℕ) (q : Punctuator) (end : ℕ) → LongestOperator text at q end
        → (m : Mark) × (mark_of (slice_index text at) (slice_index text (at + 1)) (slice_index text (at + 2)) ≡ Some m)
        × (m.punctuator ≡ q) × (at + m.length ≡ end) }
{}

/// The integer that the lexer reads is the longest literal that stands there, with its value, and no other.
pub fn integers_are_longest()
    ensures sound { (text : List ℕ) (at : ℕ) (s : Scanned) → integer_at text at ≡ Ok s
        → (n : ℕ) × IsWholeInteger text at s.end n × (s.value ≡ narrow n) }
    ensures complete { (text : List ℕ) (at end n : ℕ) → IsWholeInteger text at end n
        → integer_at text at ≡ Ok (record { end = end; value = narrow n }) }
{}

/// The end that the lexer reads of a name with its mark is that of the longest there, and no other.
pub fn words_are_longest()
    ensures sound { (text : List ℕ) (at : ℕ) → is_name_start (slice_index text at) ≡ true
        → IsLongest (IsWord text at) (mark_end text (name_end (at + 1) (drop (at + 1) text))) }
    ensures complete { (text : List ℕ) (at end : ℕ) → IsLongest (IsWord text at) end
        → mark_end text (name_end (at + 1) (drop (at + 1) text)) ≡ end }
{}

/// White space is passed over as far as it goes: where a token is read none stands before it, and the longest run is
/// passed over in as many steps as it has bytes, which change nothing but that space stands before the next token.
pub fn white_space_is_longest()
    ensures sound { (text : List ℕ) (at end : ℕ) (s t : State) → code_step text at s ≡ Ok (t, end)
        → (t.tokens ≡ s.tokens → ⊥) → (other : ℕ) → IsRun is_blank text at other → other ≡ at }
    ensures complete { (text : List ℕ) (at end : ℕ) (s : State) → IsLongest (IsRun is_blank text at) end → at < end
        → steps (end - at) text at s ≡ Ok (spaced s, end) }
{}

/// A word that begins at a place, with no byte past ASCII after its name, is read as the token that it is by the
/// rules: a label, a keyword, an identifier, a constant or the name of a method. What is one of these is read so.
pub fn words_are_tokens()
    ensures reached { (text : List ℕ) (at : ℕ) (s : State) → is_name_start (slice_index text at) ≡ true
        → is_end_marker text at ≡ false → code_step text at s ≡ word_step text at s }
    ensures sound { (text : List ℕ) (at end : ℕ) (s t : State) → is_name_start (slice_index text at) ≡ true
        → is_wide (slice_index text (name_end (at + 1) (drop (at + 1) text))) ≡ false
        → word_step text at s ≡ Ok (t, end) → (kind : TokenKind) × IsToken text (place_of s at) kind end
        × (t ≡ took s at kind) }
    ensures label { (text : List ℕ) (at end : ℕ) (bytes : List ℕ) (s : State) → IsLabel text at bytes end
        → word_step text at s ≡ Ok (took s at (kinds.Label bytes), end) }
    ensures keyword { (text : List ℕ) (at end : ℕ) (k : Keyword) (s : State) → IsKeyword text at s.context k end
        → word_step text at s ≡ Ok (took s at (kinds.Keyword k), end) }
    ensures identifier { (text : List ℕ) (at end : ℕ) (bytes : List ℕ) (s : State)
        → IsIdentifier text at s.context bytes end
        → word_step text at s ≡ Ok (took s at (kinds.Identifier bytes), end) }
    ensures constant { (text : List ℕ) (at end : ℕ) (bytes : List ℕ) (s : State)
        → IsConstant text at s.context bytes end → word_step text at s ≡ Ok (took s at (kinds.Constant bytes), end) }
    ensures method { (text : List ℕ) (at end : ℕ) (bytes : List ℕ) (s : State)
        → IsMethodWord text at s.context bytes end
        → word_step text at s ≡ Ok (took s at (kinds.MethodName bytes), end) }
{}

/// A mark is read as the token of the longest operator there, and that operator so.
pub fn operators_are_tokens()
    ensures sound { (text : List ℕ) (at end : ℕ) (s t : State) → mark_step text at s ≡ Ok (t, end)
        → (q : Punctuator) × LongestOperator text at q end × (t ≡ took s at (kinds.Punctuator q)) }
    ensures complete { (text : List ℕ) (at end : ℕ) (q : Punctuator) (s : State) → LongestOperator text at q end
        → mark_step text at s ≡ Ok (took s at (kinds.Punctuator q), end) }
{}

/// A number is read as an integer where it is one by the rules, of its value, and what is one is read so.
pub fn integers_are_tokens()
    ensures reached { (text : List ℕ) (at : ℕ) (s : State) → is_digit (slice_index text at) ≡ true
        → code_step text at s ≡ number_step text at s }
    ensures sound { (text : List ℕ) (at : ℕ) (m : Number) → numeral_at text at ≡ Ok m → m.tail ≡ Nothing
        → (n : ℕ) × IsWholeInteger text at m.end n × NoTail text at m.end × (m.value ≡ narrow n) }
    ensures narrow { (text : List ℕ) (at end n : ℕ) (s : State) → IsNarrowInteger text at end n
        → number_step text at s ≡ Ok (took s at (kinds.Integer n), end) }
    ensures wide { (text : List ℕ) (at end : ℕ) (s : State) → IsWideInteger text at end
        → number_step text at s ≡ Ok (took s at (kinds.Outside WideInteger), end) }
{}

/// `@` or `$` and a name are read as the token of the longest variable there, and that variable so.
pub fn variables_are_tokens()
    ensures sound_instance { (text : List ℕ) (at end : ℕ) (s t : State) → slice_index text at ≡ 64
        → is_name_start (slice_index text (at + 1)) ≡ true → variable_step text at s ≡ Ok (t, end)
        → IsVariableToken 64 text at (spelled text at end) end
        × (t ≡ took s at (kinds.InstanceVariable (spelled text at end))) }
    ensures sound_global { (text : List ℕ) (at end : ℕ) (s t : State) → slice_index text at ≡ 36
        → is_name_start (slice_index text (at + 1)) ≡ true → variable_step text at s ≡ Ok (t, end)
        → IsVariableToken 36 text at (spelled text at end) end
        × (t ≡ took s at (kinds.GlobalVariable (spelled text at end))) }
    ensures instance { (text : List ℕ) (at end : ℕ) (bytes : List ℕ) (s : State) → IsVariableToken 64 text at bytes end
        → variable_step text at s ≡ Ok (took s at (kinds.InstanceVariable bytes), end) }
    ensures global { (text : List ℕ) (at end : ℕ) (bytes : List ℕ) (s : State) → IsVariableToken 36 text at bytes end
        → variable_step text at s ≡ Ok (took s at (kinds.GlobalVariable bytes), end) }
{}

/// A comment is passed over to its end, which is the newline or the zero byte after it, and nothing farther.
pub fn comments_are_passed()
    ensures sound { (text : List ℕ) (at end : ℕ) (s t : State) → slice_index text at ≡ 35
        → code_step text at s ≡ Ok (t, end) → IsComment text at end × (t ≡ spaced s) }
    ensures complete { (text : List ℕ) (at end : ℕ) (s : State) → IsComment text at end
        → code_step text at s ≡ Ok (spaced s, end) }
{}

/// A name after which a byte past ASCII stands is read as the token of the longest such name, and that so.
pub fn wide_names_are_tokens()
    ensures sound { (text : List ℕ) (at end : ℕ) (s t : State) → is_name_start (slice_index text at) ≡ true
        → is_wide (slice_index text (name_end (at + 1) (drop (at + 1) text))) ≡ true
        → word_step text at s ≡ Ok (t, end) → IsWideName text at end × (t ≡ took s at (kinds.Outside NonAsciiName)) }
    ensures complete { (text : List ℕ) (at name end : ℕ) (s : State) → IsLongest (IsName text at) name
        → is_wide (slice_index text name) ≡ true → IsLongest (IsRun is_wide_name_byte text (name + 1)) end
        → word_step text at s ≡ Ok (took s at (kinds.Outside NonAsciiName), end) }
{}

/// The operator that the lexer reads as the name of a method is the longest of those names there, and no other; it is
/// read as its token where a name is wanted.
pub fn operator_names_are_longest()
    ensures sound { (text : List ℕ) (at : ℕ) → at < operator_end text at
        → IsLongest (IsOperatorName text at) (operator_end text at) }
    ensures complete { (text : List ℕ) (at end : ℕ) → IsLongest (IsOperatorName text at) end
        → operator_end text at ≡ end }
    ensures token { (text : List ℕ) (at end : ℕ) (bytes : List ℕ) (s : State)
        → IsMethodOperator text (place_of s at) bytes end → other_step text at s
        ≡ Ok (took s at (kinds.MethodName bytes), end) }
{}

/// A semicolon is read as its token, and `?` and a byte as a character where a value is expected and no name goes on.
pub fn signs_are_tokens()
    ensures semicolon { (text : List ℕ) (at : ℕ) (s : State) → slice_index text at ≡ 59
        → code_step text at s ≡ Ok (took s at kinds.Semicolon, at + 1) }
    ensures sound_character { (text : List ℕ) (at end : ℕ) (s t : State) → slice_index text at ≡ 63
        → expects_value s.context ≡ true → is_character text at ≡ true → code_step text at s ≡ Ok (t, end)
        → IsCharacter text (place_of s at) (slice_index text (at + 1)) end
        × (t ≡ took s at (kinds.Character (slice_index text (at + 1)))) }
    ensures character { (text : List ℕ) (at b end : ℕ) (s : State) → IsCharacter text (place_of s at) b end
        → code_step text at s ≡ Ok (took s at (kinds.Character b), end) }
{}

/// The text `a 1` reads as an identifier and an integer, `"a#{1}"` as a string with an integer in it, a heredoc and a
/// semicolon as a string and a semicolon, and `%w(a (b))` as two words. Those with literals are read so by the definition
/// that `lex` follows, too.
pub fn a_text_reads()
    ensures words { Reads example example_tokens }
    ensures string { Reads string_text string_tokens }
    ensures heredoc { Reads heredoc_text heredoc_tokens }
    ensures words_of_list { Reads words_text words_tokens }
    ensures words_lexed { tokens_of words_text ≡ Ok words_tokens }
    ensures string_lexed { tokens_of string_text ≡ Ok string_tokens }
    ensures heredoc_lexed { tokens_of heredoc_text ≡ Ok heredoc_tokens }
{}
