//! Marks by longest match.
ghost use Rattle.std.specs.Prelude.{◌≡◌, ◌<◌, ◌≤◌, IfSome};
ghost use Rattle.lexer_tables.specs.Marks as marks;
ghost use Rattle.lexer_tables.specs.Spelling.{Begins, IsSpelled, Reaches};
ghost use Rattle.rb_syntax.specs.declared.punctuator.Punctuator.{Punctuator};

use rb_syntax::Punctuator;

/// A mark and how many bytes it has.
#[derive(Clone, Copy, Debug, PartialEq, Eq)]
pub struct Mark {
    pub punctuator: Punctuator,
    pub length: usize,
}

fn mark_with(punctuator: Punctuator, length: usize) -> Mark
    ensures { result ≡ marks.mark_with punctuator length }
{
    Mark { punctuator, length }
}

#[tactic(auto, unfolding(crate::specs::Marks::plus_mark))]
fn plus_mark(second: u8) -> Mark
    ensures value { result ≡ marks.plus_mark second }
    ensures some { 0 < result.length }
    ensures two { 1 < result.length → 0 < second }
    ensures short { result.length < 3 }
{
    if second == b'=' {
        mark_with(Punctuator::PlusAssign, 2)
    } else {
        mark_with(Punctuator::Plus, 1)
    }
}

#[tactic(auto, unfolding(crate::specs::Marks::minus_mark))]
fn minus_mark(second: u8) -> Mark
    ensures value { result ≡ marks.minus_mark second }
    ensures some { 0 < result.length }
    ensures two { 1 < result.length → 0 < second }
    ensures short { result.length < 3 }
{
    if second == b'>' {
        mark_with(Punctuator::LambdaArrow, 2)
    } else if second == b'=' {
        mark_with(Punctuator::MinusAssign, 2)
    } else {
        mark_with(Punctuator::Minus, 1)
    }
}

#[tactic(auto, unfolding(crate::specs::Marks::star_mark))]
fn star_mark(second: u8, third: u8) -> Mark
    ensures value { result ≡ marks.star_mark second third }
    ensures some { 0 < result.length }
    ensures two { 1 < result.length → 0 < second }
    ensures three { 2 < result.length → 0 < third }
    ensures few { result.length ≤ 3 }
{
    if second == b'*' && third == b'=' {
        mark_with(Punctuator::StarStarAssign, 3)
    } else if second == b'*' {
        mark_with(Punctuator::StarStar, 2)
    } else if second == b'=' {
        mark_with(Punctuator::StarAssign, 2)
    } else {
        mark_with(Punctuator::Star, 1)
    }
}

#[tactic(auto, unfolding(crate::specs::Marks::slash_mark))]
fn slash_mark(second: u8) -> Mark
    ensures value { result ≡ marks.slash_mark second }
    ensures some { 0 < result.length }
    ensures two { 1 < result.length → 0 < second }
    ensures short { result.length < 3 }
{
    if second == b'=' {
        mark_with(Punctuator::SlashAssign, 2)
    } else {
        mark_with(Punctuator::Slash, 1)
    }
}

#[tactic(auto, unfolding(crate::specs::Marks::percent_mark))]
fn percent_mark(second: u8) -> Mark
    ensures value { result ≡ marks.percent_mark second }
    ensures some { 0 < result.length }
    ensures two { 1 < result.length → 0 < second }
    ensures short { result.length < 3 }
{
    if second == b'=' {
        mark_with(Punctuator::PercentAssign, 2)
    } else {
        mark_with(Punctuator::Percent, 1)
    }
}

#[tactic(auto, unfolding(crate::specs::Marks::caret_mark))]
fn caret_mark(second: u8) -> Mark
    ensures value { result ≡ marks.caret_mark second }
    ensures some { 0 < result.length }
    ensures two { 1 < result.length → 0 < second }
    ensures short { result.length < 3 }
{
    if second == b'=' {
        mark_with(Punctuator::CaretAssign, 2)
    } else {
        mark_with(Punctuator::Caret, 1)
    }
}

#[tactic(auto, unfolding(crate::specs::Marks::equal_mark))]
fn equal_mark(second: u8, third: u8) -> Mark
    ensures value { result ≡ marks.equal_mark second third }
    ensures some { 0 < result.length }
    ensures two { 1 < result.length → 0 < second }
    ensures three { 2 < result.length → 0 < third }
    ensures few { result.length ≤ 3 }
{
    if second == b'=' && third == b'=' {
        mark_with(Punctuator::CaseEqual, 3)
    } else if second == b'=' {
        mark_with(Punctuator::Equal, 2)
    } else if second == b'~' {
        mark_with(Punctuator::Match, 2)
    } else if second == b'>' {
        mark_with(Punctuator::Arrow, 2)
    } else {
        mark_with(Punctuator::Assign, 1)
    }
}

#[tactic(auto, unfolding(crate::specs::Marks::not_mark))]
fn not_mark(second: u8) -> Mark
    ensures value { result ≡ marks.not_mark second }
    ensures some { 0 < result.length }
    ensures two { 1 < result.length → 0 < second }
    ensures short { result.length < 3 }
{
    if second == b'=' {
        mark_with(Punctuator::NotEqual, 2)
    } else if second == b'~' {
        mark_with(Punctuator::NotMatch, 2)
    } else {
        mark_with(Punctuator::Not, 1)
    }
}

#[tactic(auto, unfolding(crate::specs::Marks::less_mark))]
fn less_mark(second: u8, third: u8) -> Mark
    ensures value { result ≡ marks.less_mark second third }
    ensures some { 0 < result.length }
    ensures two { 1 < result.length → 0 < second }
    ensures three { 2 < result.length → 0 < third }
    ensures few { result.length ≤ 3 }
{
    if second == b'=' && third == b'>' {
        mark_with(Punctuator::Compare, 3)
    } else if second == b'=' {
        mark_with(Punctuator::LessEqual, 2)
    } else if second == b'<' && third == b'=' {
        mark_with(Punctuator::ShiftLeftAssign, 3)
    } else if second == b'<' {
        mark_with(Punctuator::ShiftLeft, 2)
    } else {
        mark_with(Punctuator::Less, 1)
    }
}

#[tactic(auto, unfolding(crate::specs::Marks::greater_mark))]
fn greater_mark(second: u8, third: u8) -> Mark
    ensures value { result ≡ marks.greater_mark second third }
    ensures some { 0 < result.length }
    ensures two { 1 < result.length → 0 < second }
    ensures three { 2 < result.length → 0 < third }
    ensures few { result.length ≤ 3 }
{
    if second == b'=' {
        mark_with(Punctuator::GreaterEqual, 2)
    } else if second == b'>' && third == b'=' {
        mark_with(Punctuator::ShiftRightAssign, 3)
    } else if second == b'>' {
        mark_with(Punctuator::ShiftRight, 2)
    } else {
        mark_with(Punctuator::Greater, 1)
    }
}

#[tactic(auto, unfolding(crate::specs::Marks::ampersand_mark))]
fn ampersand_mark(second: u8, third: u8) -> Mark
    ensures value { result ≡ marks.ampersand_mark second third }
    ensures some { 0 < result.length }
    ensures two { 1 < result.length → 0 < second }
    ensures three { 2 < result.length → 0 < third }
    ensures few { result.length ≤ 3 }
{
    if second == b'&' && third == b'=' {
        mark_with(Punctuator::AndAndAssign, 3)
    } else if second == b'&' {
        mark_with(Punctuator::AndAnd, 2)
    } else if second == b'=' {
        mark_with(Punctuator::AmpersandAssign, 2)
    } else if second == b'.' {
        mark_with(Punctuator::AmpersandDot, 2)
    } else {
        mark_with(Punctuator::Ampersand, 1)
    }
}

#[tactic(auto, unfolding(crate::specs::Marks::bar_mark))]
fn bar_mark(second: u8, third: u8) -> Mark
    ensures value { result ≡ marks.bar_mark second third }
    ensures some { 0 < result.length }
    ensures two { 1 < result.length → 0 < second }
    ensures three { 2 < result.length → 0 < third }
    ensures few { result.length ≤ 3 }
{
    if second == b'|' && third == b'=' {
        mark_with(Punctuator::OrOrAssign, 3)
    } else if second == b'|' {
        mark_with(Punctuator::OrOr, 2)
    } else if second == b'=' {
        mark_with(Punctuator::BarAssign, 2)
    } else {
        mark_with(Punctuator::Bar, 1)
    }
}

#[tactic(auto, unfolding(crate::specs::Marks::dot_mark))]
fn dot_mark(second: u8, third: u8) -> Mark
    ensures value { result ≡ marks.dot_mark second third }
    ensures some { 0 < result.length }
    ensures two { 1 < result.length → 0 < second }
    ensures three { 2 < result.length → 0 < third }
    ensures few { result.length ≤ 3 }
{
    if second == b'.' && third == b'.' {
        mark_with(Punctuator::DotDotDot, 3)
    } else if second == b'.' {
        mark_with(Punctuator::DotDot, 2)
    } else {
        mark_with(Punctuator::Dot, 1)
    }
}

#[tactic(auto, unfolding(crate::specs::Marks::colon_mark))]
fn colon_mark(second: u8) -> Mark
    ensures value { result ≡ marks.colon_mark second }
    ensures some { 0 < result.length }
    ensures two { 1 < result.length → 0 < second }
    ensures short { result.length < 3 }
{
    if second == b':' {
        mark_with(Punctuator::ColonColon, 2)
    } else {
        mark_with(Punctuator::Colon, 1)
    }
}

#[tactic(auto, unfolding(crate::specs::Marks::single_mark))]
fn single_mark(first: u8) -> Option<Mark>
    ensures value { result ≡ marks.single_mark first }
    ensures one { IfSome result (λ m. m.length ≡ 1) }
{
    match first {
        b'~' => Some(mark_with(Punctuator::Tilde, 1)),
        b'?' => Some(mark_with(Punctuator::Question, 1)),
        b',' => Some(mark_with(Punctuator::Comma, 1)),
        b'(' => Some(mark_with(Punctuator::OpenParenthesis, 1)),
        b')' => Some(mark_with(Punctuator::CloseParenthesis, 1)),
        b'[' => Some(mark_with(Punctuator::OpenBracket, 1)),
        b']' => Some(mark_with(Punctuator::CloseBracket, 1)),
        b'{' => Some(mark_with(Punctuator::OpenBrace, 1)),
        b'}' => Some(mark_with(Punctuator::CloseBrace, 1)),
        _ => None,
    }
}

/// The longest mark that begins with these bytes, by the first.
#[tactic(auto, unfolding(crate::specs::Marks::mark_of))]
fn by_first(first: u8, second: u8, third: u8) -> Option<Mark>
    ensures value { result ≡ marks.mark_of first second third }
    ensures some { IfSome result (λ m. 0 < m.length) }
    ensures two { IfSome result (λ m. 1 < m.length → 0 < second) }
    ensures three { IfSome result (λ m. 2 < m.length → 0 < third) }
    ensures few { IfSome result (λ m. m.length ≤ 3) }
{
    match first {
        b'+' => Some(plus_mark(second)),
        b'-' => Some(minus_mark(second)),
        b'*' => Some(star_mark(second, third)),
        b'/' => Some(slash_mark(second)),
        b'%' => Some(percent_mark(second)),
        b'^' => Some(caret_mark(second)),
        b'=' => Some(equal_mark(second, third)),
        b'!' => Some(not_mark(second)),
        b'<' => Some(less_mark(second, third)),
        b'>' => Some(greater_mark(second, third)),
        b'&' => Some(ampersand_mark(second, third)),
        b'|' => Some(bar_mark(second, third)),
        b'.' => Some(dot_mark(second, third)),
        b':' => Some(colon_mark(second)),
        _ => single_mark(first),
    }
}

fn equality_name(second: u8, third: u8) -> usize
    ensures { result ≡ marks.equality_name second third }
{
    if second != b'=' {
        0
    } else if third == b'=' {
        3
    } else {
        2
    }
}

fn less_name(second: u8, third: u8) -> usize
    ensures { result ≡ marks.less_name second third }
{
    if second == b'=' {
        if third == b'>' { 3 } else { 2 }
    } else if second == b'<' {
        2
    } else {
        1
    }
}

fn index_name(second: u8, third: u8) -> usize
    ensures { result ≡ marks.index_name second third }
{
    if second != b']' {
        0
    } else if third == b'=' {
        3
    } else {
        2
    }
}

fn one_more(is_longer: bool) -> usize
    ensures { result ≡ marks.one_more is_longer }
{
    if is_longer { 2 } else { 1 }
}

/// The longest mark that begins with these three bytes, where a place past the text's end reads as 0; None where
/// no mark begins with the first.
pub fn mark_of(first: u8, second: u8, third: u8) -> Option<Mark>
    ensures value { result ≡ marks.mark_of first second third }
    // What is found is spelled there.
    ensures so { IfSome result (λ m. IsSpelled first second third m) }
    // No mark that is spelled there is longer.
    ensures longest { (p : Punctuator) → Begins p first second third → Reaches p result }
    ensures some { IfSome result (λ m. 0 < m.length) }
    ensures two { IfSome result (λ m. 1 < m.length → 0 < second) }
    ensures three { IfSome result (λ m. 2 < m.length → 0 < third) }
    ensures few { IfSome result (λ m. m.length ≤ 3) }
{
    by_first(first, second, third)
}

/// How many bytes the name of an operator's method has that begins with these three bytes; 0 where none does.
#[tactic(auto, unfolding(crate::specs::Marks::operator_name))]
pub fn operator_name(first: u8, second: u8, third: u8) -> usize
    ensures value { result ≡ marks.operator_name first second third }
    ensures one { 0 < result → 0 < first }
    ensures two { 1 < result → 0 < second }
    ensures three { 2 < result → 0 < third }
    ensures few { result ≤ 3 }
{
    match first {
        b'+' | b'-' => one_more(second == b'@'),
        b'*' => one_more(second == b'*'),
        b'!' => one_more(second == b'='),
        b'/' | b'%' | b'~' | b'&' | b'|' | b'^' => 1,
        b'=' => equality_name(second, third),
        b'<' => less_name(second, third),
        b'>' => one_more(second == b'=' || second == b'>'),
        b'[' => index_name(second, third),
        _ => 0,
    }
}
