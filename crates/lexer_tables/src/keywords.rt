//! Keywords by their spelling.
ghost use Rattle.std.specs.Prelude.{◌≡◌, IfSome, Some};
ghost use Rattle.lexer_tables.specs.Keyword as spelled;
ghost use Rattle.lexer_tables.specs.Spelling.{keyword_spelling};
ghost use Rattle.rb_syntax.specs.declared.keyword.Keyword.{Keyword};

use rb_syntax::Keyword;

#[tactic(auto, unfolding(crate::specs::Keyword::of_two_bytes))]
fn of_two_bytes(word: &[u8]) -> Option<Keyword>
    ensures { result ≡ spelled.of_two_bytes word.now }
{
    if word == b"do".as_slice() {
        Some(Keyword::Do)
    } else if word == b"if".as_slice() {
        Some(Keyword::If)
    } else if word == b"in".as_slice() {
        Some(Keyword::In)
    } else if word == b"or".as_slice() {
        Some(Keyword::Or)
    } else {
        None
    }
}

#[tactic(auto, unfolding(crate::specs::Keyword::of_three_bytes))]
fn of_three_bytes(word: &[u8]) -> Option<Keyword>
    ensures { result ≡ spelled.of_three_bytes word.now }
{
    if word == b"END".as_slice() {
        Some(Keyword::EndBlock)
    } else if word == b"and".as_slice() {
        Some(Keyword::And)
    } else if word == b"def".as_slice() {
        Some(Keyword::Def)
    } else if word == b"end".as_slice() {
        Some(Keyword::End)
    } else if word == b"for".as_slice() {
        Some(Keyword::For)
    } else if word == b"nil".as_slice() {
        Some(Keyword::Nil)
    } else if word == b"not".as_slice() {
        Some(Keyword::Not)
    } else {
        None
    }
}

#[tactic(auto, unfolding(crate::specs::Keyword::of_four_bytes))]
fn of_four_bytes(word: &[u8]) -> Option<Keyword>
    ensures { result ≡ spelled.of_four_bytes word.now }
{
    if word == b"case".as_slice() {
        Some(Keyword::Case)
    } else if word == b"else".as_slice() {
        Some(Keyword::Else)
    } else if word == b"next".as_slice() {
        Some(Keyword::Next)
    } else if word == b"redo".as_slice() {
        Some(Keyword::Redo)
    } else if word == b"self".as_slice() {
        Some(Keyword::SelfReference)
    } else if word == b"then".as_slice() {
        Some(Keyword::Then)
    } else if word == b"true".as_slice() {
        Some(Keyword::True)
    } else if word == b"when".as_slice() {
        Some(Keyword::When)
    } else {
        None
    }
}

#[tactic(auto, unfolding(crate::specs::Keyword::of_five_bytes_to_class))]
fn of_five_bytes_to_class(word: &[u8]) -> Option<Keyword>
    ensures { result ≡ spelled.of_five_bytes_to_class word.now }
{
    if word == b"BEGIN".as_slice() {
        Some(Keyword::BeginBlock)
    } else if word == b"alias".as_slice() {
        Some(Keyword::Alias)
    } else if word == b"begin".as_slice() {
        Some(Keyword::Begin)
    } else if word == b"break".as_slice() {
        Some(Keyword::Break)
    } else if word == b"class".as_slice() {
        Some(Keyword::Class)
    } else {
        None
    }
}

#[tactic(auto, unfolding(crate::specs::Keyword::of_five_bytes_from_elsif))]
fn of_five_bytes_from_elsif(word: &[u8]) -> Option<Keyword>
    ensures { result ≡ spelled.of_five_bytes_from_elsif word.now }
{
    if word == b"elsif".as_slice() {
        Some(Keyword::Elsif)
    } else if word == b"false".as_slice() {
        Some(Keyword::False)
    } else if word == b"retry".as_slice() {
        Some(Keyword::Retry)
    } else if word == b"super".as_slice() {
        Some(Keyword::Super)
    } else if word == b"undef".as_slice() {
        Some(Keyword::Undef)
    } else if word == b"until".as_slice() {
        Some(Keyword::Until)
    } else if word == b"while".as_slice() {
        Some(Keyword::While)
    } else if word == b"yield".as_slice() {
        Some(Keyword::Yield)
    } else {
        None
    }
}

#[tactic(auto, unfolding(crate::specs::Keyword::of_six_bytes))]
fn of_six_bytes(word: &[u8]) -> Option<Keyword>
    ensures { result ≡ spelled.of_six_bytes word.now }
{
    if word == b"ensure".as_slice() {
        Some(Keyword::Ensure)
    } else if word == b"module".as_slice() {
        Some(Keyword::Module)
    } else if word == b"rescue".as_slice() {
        Some(Keyword::Rescue)
    } else if word == b"return".as_slice() {
        Some(Keyword::Return)
    } else if word == b"unless".as_slice() {
        Some(Keyword::Unless)
    } else {
        None
    }
}

#[tactic(auto, unfolding(crate::specs::Keyword::of_more_bytes))]
fn of_more_bytes(word: &[u8]) -> Option<Keyword>
    ensures { result ≡ spelled.of_more_bytes word.now }
{
    if word == b"__ENCODING__".as_slice() {
        Some(Keyword::EncodingName)
    } else if word == b"__FILE__".as_slice() {
        Some(Keyword::FileName)
    } else if word == b"__LINE__".as_slice() {
        Some(Keyword::LineNumber)
    } else if word == b"defined?".as_slice() {
        Some(Keyword::Defined)
    } else {
        None
    }
}

/// The keywords of five bytes.
#[tactic(auto, unfolding(crate::specs::Keyword::of_five_bytes))]
fn of_five_bytes(word: &[u8]) -> Option<Keyword>
    ensures { result ≡ spelled.of_five_bytes word.now }
{
    match of_five_bytes_to_class(word) {
        Some(keyword) => Some(keyword),
        None => of_five_bytes_from_elsif(word),
    }
}

/// The keyword that is spelled so, by its length.
#[tactic(auto, unfolding(crate::specs::Keyword::keyword_of))]
fn by_length(word: &[u8]) -> Option<Keyword>
    ensures { result ≡ spelled.keyword_of word.now }
{
    match word.len() {
        2 => of_two_bytes(word),
        3 => of_three_bytes(word),
        4 => of_four_bytes(word),
        5 => of_five_bytes(word),
        6 => of_six_bytes(word),
        _ => of_more_bytes(word),
    }
}

/// The keyword that is spelled so, if it is one.
pub fn keyword_of(word: &[u8]) -> Option<Keyword>
    ensures value { result ≡ spelled.keyword_of word.now }
    // What is found is spelled so.
    ensures so { IfSome result (λ k. word.now ≡ keyword_spelling k) }
    // A keyword is found by its spelling.
    ensures found { (k : Keyword) → word.now ≡ keyword_spelling k → result ≡ Some k }
{
    by_length(word)
}
