use rb_lexer::{LexError, depth, lex};
use rb_syntax::{Token, TokenKind};
use std::alloc::{AllocError, Global};
use std::process::Abort;
use std::test::Fail;

fn add(line: &mut Vec<u8>, word: &[u8], bytes: &[u8]) -> Result<(), AllocError> {
    line.extend_from_slice(word)?;
    line.extend_from_slice(bytes)
}

/// A token's name and contents.
fn spell(alloc: Global, line: &mut Vec<u8>, kind: &TokenKind) -> Result<(), AllocError> {
    match kind {
        TokenKind::Newline => add(line, b"", b"nl"),
        TokenKind::Semicolon => add(line, b"", b";"),
        TokenKind::Identifier(name) => add(line, b"id:", name.as_slice()),
        TokenKind::Constant(name) => add(line, b"const:", name.as_slice()),
        TokenKind::MethodName(name) => add(line, b"method:", name.as_slice()),
        TokenKind::InstanceVariable(name) => add(line, b"ivar:", name.as_slice()),
        TokenKind::GlobalVariable(name) => add(line, b"gvar:", name.as_slice()),
        TokenKind::Label(name) => add(line, b"label:", name.as_slice()),
        TokenKind::Keyword(keyword) => {
            add(line, b"", format!(in alloc; "{keyword:?}")?.as_bytes())
        }
        TokenKind::Punctuator(mark) => add(line, b"", format!(in alloc; "{mark:?}")?.as_bytes()),
        TokenKind::Integer(n) => add(line, b"", format!(in alloc; "{n}")?.as_bytes()),
        TokenKind::Character(byte) => add(line, b"char:", format!(in alloc; "{byte}")?.as_bytes()),
        TokenKind::Symbol(name) => add(line, b"sym:", name.as_slice()),
        TokenKind::StringBegin => add(line, b"", b"("),
        TokenKind::SymbolBegin => add(line, b"", b":("),
        TokenKind::WordsBegin => add(line, b"", b"w("),
        TokenKind::SymbolsBegin => add(line, b"", b"i("),
        TokenKind::Piece(bytes) => add(line, b"=", bytes.as_slice()),
        TokenKind::Word(bytes) => add(line, b"=", bytes.as_slice()),
        TokenKind::InterpolationBegin => add(line, b"", b"#{"),
        TokenKind::InterpolationEnd => add(line, b"", b"}"),
        TokenKind::LiteralEnd => add(line, b"", b")"),
        TokenKind::Outside(what) => add(line, b"!", what.name()),
    }
}

/// The tokens' names in one line, each with a blank after it; a refusal is `Syntax` and its place.
fn line_of(rt: &impl Abort, alloc: Global, text: &[u8]) -> Result<Vec<u8>, Fail> {
    assert!(rt; text.len() < 4294967296);
    let mut line = Vec::new(alloc);
    match lex(alloc, text) {
        Ok(tokens) => {
            for token in &tokens {
                spell(alloc, &mut line, &token.kind)?;
                line.push(b' ')?;
            }
        }
        Err(LexError::Syntax { at }) => {
            line.extend_from_slice(format!(in alloc; "Syntax {at} ")?.as_bytes())?;
        }
        Err(LexError::NoMemory) => line.extend_from_slice(b"no memory ")?,
    }
    Ok(line)
}

fn all_read(rt: &impl Abort, alloc: Global, rows: &[(&str, &str)]) -> Result<(), Fail> {
    for (text, tokens) in rows {
        let line = line_of(rt, alloc, text.as_bytes())?;
        assert_eq!(rt; line.as_slice(), tokens.as_bytes(), "{text}");
    }
    Ok(())
}

#[test]
fn white_space_and_newlines(rt: HostRuntime) -> Result<(), Fail> {
    all_read(
        &rt,
        rt.alloc(),
        &[
            ("", ""),
            (
                "a = 1 +\n2\nputs a # three",
                "id:a Assign 1 Plus 2 nl id:puts id:a ",
            ),
            ("a\n-1", "id:a nl Minus 1 "),
            ("a\n\n\nb", "id:a nl id:b "),
            ("\n a;\n b", "id:a ; id:b "),
            ("a \\\n b", "id:a id:b "),
            ("a \\ b", "Syntax 2 "),
            ("a\r\nb\r\n", "id:a nl id:b nl "),
            ("a\n.b", "id:a Dot id:b "),
            ("a\n # c\n\n=begin\n.q\n=end\n  .b", "id:a Dot id:b "),
            ("a\n..b", "id:a nl DotDot id:b "),
            ("a\n.1", "id:a nl Dot 1 "),
            ("a\n.+ b", "id:a Dot method:+ id:b "),
            ("a\n # c\n .[] 1", "id:a Dot method:[] 1 "),
            ("a\n.[b]", "id:a nl Dot OpenBracket id:b CloseBracket "),
            ("a\n.== b", "id:a Dot method:== id:b "),
            ("a\n. b", "id:a Dot id:b "),
            ("a\n  .\n\n# c\nb", "id:a Dot id:b "),
            ("a\n. + b", "id:a Dot method:+ id:b "),
            ("a\n. 1", "id:a nl Dot 1 "),
            ("a\n. .b", "id:a nl Dot Dot id:b "),
            ("=begin\nx\n=end\ny", "id:y "),
            ("x\n=begin\ny", "Syntax 2 "),
            ("x = begin\n1\nend", "id:x Assign Begin 1 nl End "),
            ("f a:\n1\nb", "id:f label:a 1 nl id:b "),
            (
                "{ a: # one\n\n  -1 }",
                "OpenBrace label:a Minus 1 CloseBrace ",
            ),
            ("a\n__END__\n'", "id:a nl "),
            ("a\n__END__\r\n'", "id:a nl "),
            ("a\n__END__ \n", "id:a nl id:__END__ nl "),
            ("a\0b", "Syntax 1 "),
            ("# a\0", "Syntax 3 "),
            (
                "f(1,\n2)",
                "id:f OpenParenthesis 1 Comma 2 CloseParenthesis ",
            ),
            ("return\n1", "Return nl 1 "),
            ("x and\ny", "id:x And id:y "),
            ("x.\ny", "id:x Dot id:y "),
        ],
    )
}

#[test]
fn names_and_keywords(rt: HostRuntime) -> Result<(), Fail> {
    all_read(
        &rt,
        rt.alloc(),
        &[
            ("a_1 B_2 _", "id:a_1 const:B_2 id:_ "),
            ("@a $b @B", "ivar:@a gvar:$b ivar:@B "),
            ("@1", "Syntax 0 "),
            ("a? b! a!=b", "method:a? method:b! id:a NotEqual id:b "),
            ("a?==b", "method:a? Equal id:b "),
            ("a!=>b", "method:a! Arrow id:b "),
            (
                "{a: 1, if: 2}",
                "OpenBrace label:a 1 Comma label:if 2 CloseBrace ",
            ),
            ("a::B", "id:a ColonColon const:B "),
            (
                "def end; x.class; end",
                "Def method:end ; id:x Dot method:class ; End ",
            ),
            (
                "def x=(v)",
                "Def method:x= OpenParenthesis id:v CloseParenthesis ",
            ),
            ("def x= v", "Def method:x= id:v "),
            ("def x = v", "Def id:x Assign id:v "),
            (
                "def self.x=(v)",
                "Def method:self Dot method:x= OpenParenthesis id:v CloseParenthesis ",
            ),
            (
                "def +(o)",
                "Def method:+ OpenParenthesis id:o CloseParenthesis ",
            ),
            (
                "def -@; def []=(a, b)",
                "Def method:-@ ; Def method:[]= OpenParenthesis id:a Comma id:b CloseParenthesis ",
            ),
            ("alias == eql?", "Alias method:== method:eql? "),
            ("alias eql? ==", "Alias method:eql? method:== "),
            ("undef a, +", "Undef id:a Comma method:+ "),
            ("x if y", "id:x If id:y "),
            (
                "defined?(x)",
                "Defined OpenParenthesis id:x CloseParenthesis ",
            ),
            ("nil? nil", "method:nil? Nil "),
            ("__FILE__ BEGIN", "FileName BeginBlock "),
        ],
    )
}

#[test]
fn marks_and_bars(rt: HostRuntime) -> Result<(), Fail> {
    all_read(
        &rt,
        rt.alloc(),
        &[
            ("a <=> b", "id:a Compare id:b "),
            (
                "a <<= b **= c",
                "id:a ShiftLeftAssign id:b StarStarAssign id:c ",
            ),
            ("a ? b : c", "id:a Question id:b Colon id:c "),
            ("a...b", "id:a DotDotDot id:b "),
            ("a&.b =~ c", "id:a AmpersandDot id:b Match id:c "),
            (
                "f { |a| a | b }",
                "id:f OpenBrace OpenBar id:a CloseBar id:a Bar id:b CloseBrace ",
            ),
            ("f do || 1 end", "id:f Do OpenBar CloseBar 1 End "),
            ("a || b", "id:a OrOr id:b "),
            ("-> { }", "LambdaArrow OpenBrace CloseBrace "),
        ],
    )
}

#[test]
fn numbers(rt: HostRuntime) -> Result<(), Fail> {
    all_read(
        &rt,
        rt.alloc(),
        &[
            ("1_000 0b11 0o17 017 0d9 0xfF", "1000 3 15 15 9 255 "),
            ("9223372036854775808", "9223372036854775808 "),
            ("9223372036854775809", "!WideInteger "),
            ("-2 ** 2", "Minus 2 StarStar 2 "),
            (
                "1.5 1e3 2r 3i 1.5r",
                "!Float !Float !Rational !Imaginary !Rational ",
            ),
            ("1.a", "1 Dot id:a "),
            ("1..2", "1 DotDot 2 "),
            ("1if x", "1 If id:x "),
        ],
    )
}

#[test]
fn strings_and_symbols(rt: HostRuntime) -> Result<(), Fail> {
    all_read(
        &rt,
        rt.alloc(),
        &[
            ("'a\\n\\'\\\\'", "( =a\\n'\\ ) "),
            ("\"a\\x41\\101\\u0042\\u{43}\\s\\\"\"", "( =aAABC \" ) "),
            ("\"a\\\nb\"", "( =ab ) "),
            ("\"\"", "( ) "),
            ("\"a#{b + \"c\"}d\"", "( =a #{ id:b Plus ( =c ) } =d ) "),
            (
                "\"#{ {a: 1} }\"",
                "( #{ OpenBrace label:a 1 CloseBrace } ) ",
            ),
            ("\"#@a#$b#c\"", "( ivar:@a gvar:$b =#c ) "),
            (
                "\"#@@a#$!#$12b\"",
                "( !ClassVariable !SpecialGlobal !SpecialGlobal =b ) ",
            ),
            (
                "\"#$-w#$%#$(#@1#@@1\"",
                "( !SpecialGlobal =w#$%#$(#@1#@@1 ) ",
            ),
            ("\"#$ #$\"\"", "( =#$  !SpecialGlobal ) "),
            ("'#$!#@@a'", "( =#$!#@@a ) "),
            ("'#{a}'", "( =#{a} ) "),
            ("\"a\" 'b'", "( =a ) ( =b ) "),
            ("\"a", "Syntax 2 "),
            ("\"#{a\"", "Syntax 5 "),
            ("x = ?a", "id:x Assign char:97 "),
            ("x == 1 ?2:3", "id:x Equal 1 Question 2 Colon 3 "),
            ("%q(a(b)\\)c)", "( =a(b))c ) "),
            ("%(a#{1}(b))", "( =a #{ 1 } =(b) ) "),
            ("%Q[a]", "( =a ) "),
            ("%w[a b\\ c\n d]", "w( =a =b c =d ) "),
            ("%i(a b)", "i( =a =b ) "),
            (
                "p :a, :b?, :c=, :+, :[]=",
                "id:p sym:a Comma sym:b? Comma sym:c= Comma sym:+ Comma sym:[]= ",
            ),
            ("{:a=>1}", "OpenBrace sym:a Arrow 1 CloseBrace "),
            (":\"a b\" :'c' :@d", ":( =a b ) :( =c ) sym:@d "),
            ("{\"a\": 1}", "OpenBrace ( =a !QuotedLabel 1 CloseBrace "),
        ],
    )
}

#[test]
fn heredocs(rt: HostRuntime) -> Result<(), Fail> {
    all_read(
        &rt,
        rt.alloc(),
        &[
            (
                "puts(<<A, <<-B)\none\nA\ntwo #{x + 1}\n  B\nz",
                "id:puts OpenParenthesis ( =one\n ) Comma ( =two  #{ id:x Plus 1 } =\n ) CloseParenthesis nl id:z ",
            ),
            ("x = <<'A'\n#{a}\\n\nA\n", "id:x Assign ( =#{a}\\n\n ) nl "),
            ("puts <<A\nb\nA\n", "id:puts ( =b\n ) nl "),
            ("x <<a\n", "id:x ShiftLeft id:a nl "),
            ("x << A", "id:x ShiftLeft const:A "),
            (
                "f(<<A)\nb\nA\n  .c",
                "id:f OpenParenthesis ( =b\n ) CloseParenthesis Dot id:c ",
            ),
            (
                "f(<<A, 'x\nb\nA\ny')",
                "id:f OpenParenthesis ( =b\n ) Comma ( =x\ny ) CloseParenthesis ",
            ),
            (
                "x = <<~A\n '\n A\ny",
                "id:x Assign !SquigglyHeredoc nl id:y ",
            ),
            ("x = <<A\nb\n", "Syntax 4 "),
            ("\"#{<<A}\"\nb\nA\n", "Syntax 3 "),
            ("x = <<A\r\nb\r\nA\r\n1", "id:x Assign ( =b\r\n ) nl 1 "),
            ("class << self", "Class ShiftLeft SelfReference "),
        ],
    )
}

#[test]
fn outside_tokens(rt: HostRuntime) -> Result<(), Fail> {
    all_read(
        &rt,
        rt.alloc(),
        &[
            ("x = /a\\/b/i", "id:x Assign !Regexp "),
            ("x / 2", "id:x Slash 2 "),
            ("x /2", "id:x !Ambiguous 2 "),
            ("x /= 2", "id:x SlashAssign 2 "),
            ("x ?a", "id:x !Ambiguous id:a "),
            ("x %w[a]", "id:x w( =a ) "),
            ("x %y", "id:x !Ambiguous id:y "),
            ("x % y", "id:x Percent id:y "),
            ("`ls`", "!Backquote "),
            (
                "%r{a{b}c} %x(a)",
                "!PercentLiteral Percent id:x OpenParenthesis id:a CloseParenthesis ",
            ),
            ("@@a $1 $!", "!ClassVariable !SpecialGlobal !SpecialGlobal "),
            ("a\u{e9}b", "!NonAsciiName "),
            ("\u{e9}", "!NonAsciiName "),
        ],
    )
}

/// The flags of each token: `s` for white space before it, `l` for the first of its line, `v` where a value is
/// expected, `-` where not.
fn flags_of(rt: &impl Abort, alloc: Global, text: &[u8]) -> Result<Vec<u8>, Fail> {
    assert!(rt; text.len() < 4294967296);
    let mut line = Vec::new(alloc);
    for token in &lex(alloc, text)? {
        add_flags(&mut line, token)?;
    }
    Ok(line)
}

fn add_flags(line: &mut Vec<u8>, token: &Token) -> Result<(), AllocError> {
    line.push(if token.space { b's' } else { b'-' })?;
    line.push(if token.line_start { b'l' } else { b'-' })?;
    line.push(if token.value { b'v' } else { b'-' })?;
    line.extend_from_slice(b" ")
}

#[test]
fn flags_of_tokens(rt: HostRuntime) -> Result<(), Fail> {
    for (text, flags) in [
        ("a b", "-lv s-- "),
        ("a\n  -1", "-lv --- slv --v "),
        ("return if a", "-lv s-- s-v "),
        ("a if b", "-lv s-- s-v "),
        ("x = if a", "-lv s-- s-v s-v "),
        ("f { |a| -a }", "-lv s-- s-v --v --- s-v --v s-- "),
        ("{a: -1}", "-lv --v s-v --v --- "),
    ] {
        let line = flags_of(&rt, rt.alloc(), text.as_bytes())?;
        assert_eq!(rt; line.as_slice(), flags.as_bytes(), "{text}");
    }
    Ok(())
}

/// `n` times the part between two others.
fn repeated(
    alloc: Global,
    front: &[u8],
    part: &[u8],
    n: usize,
    back: &[u8],
) -> Result<Vec<u8>, AllocError> {
    let mut text = Vec::from_slice(alloc, front)?;
    for _ in 0..n {
        text.extend_from_slice(part)?;
    }
    text.extend_from_slice(back)?;
    Ok(text)
}

fn has_depth(rt: &impl Abort, alloc: Global, text: &[u8], expected: u32) -> Result<(), Fail> {
    assert!(rt; text.len() < 4294967296);
    let tokens = lex(alloc, text)?;
    assert_eq!(rt; depth(&tokens), expected);
    Ok(())
}

#[test]
fn depth_of_chains(rt: HostRuntime) -> Result<(), Fail> {
    let alloc = rt.alloc();
    let lines = b"a = nil\na = lambda { |x| a }\na";
    has_depth(&rt, alloc, &repeated(alloc, lines, b"[0]", 255, b"")?, 256)?;
    has_depth(&rt, alloc, &repeated(alloc, lines, b"[0]", 256, b"")?, 257)?;
    has_depth(&rt, alloc, &repeated(alloc, b"", b"x ", 257, b"1")?, 256)?;
    has_depth(&rt, alloc, &repeated(alloc, b"", b"x ", 258, b"1")?, 257)?;
    Ok(())
}

#[test]
fn depth_of_statements(rt: HostRuntime) -> Result<(), Fail> {
    for (text, expected) in [
        ("", 0),
        ("a + b", 1),
        ("a + b, c * d", 1),
        ("a if b; c + d + e", 2),
        ("f(a + b)", 2),
        ("while a do b end", 1),
        ("while a\nb { c }\nend", 2),
        ("x and y and z, 1", 2),
        ("case a\nwhen 1, 2, 3 then b\nend", 3),
        ("def f; return g a; end", 3),
    ] {
        has_depth(&rt, rt.alloc(), text.as_bytes(), expected)?;
    }
    Ok(())
}

#[test]
fn more_newlines(rt: HostRuntime) -> Result<(), Fail> {
    all_read(
        &rt,
        rt.alloc(),
        &[
            ("a;;b", "id:a ; ; id:b "),
            ("\t a \r\n", "id:a nl "),
            ("a\n=begin x\n=end y\nb", "id:a nl id:b "),
            ("a \\\n.b", "id:a Dot id:b "),
            ("a # c\n  # d\n.b", "id:a Dot id:b "),
            ("a ||\nb", "id:a OrOr id:b "),
            (
                "{ |a|\nb }",
                "OpenBrace OpenBar id:a CloseBar nl id:b CloseBrace ",
            ),
            ("a ? \nb :\nc", "id:a Question id:b Colon id:c "),
            ("x = \n# c\n1", "id:x Assign 1 "),
            ("case\nwhen 1", "Case nl When 1 "),
            ("rescue\nx", "Rescue nl id:x "),
            ("class A\nend", "Class const:A nl End "),
            ("a\n&.b", "id:a nl AmpersandDot id:b "),
            ("->\n{}", "LambdaArrow OpenBrace CloseBrace "),
        ],
    )
}

#[test]
fn more_names(rt: HostRuntime) -> Result<(), Fail> {
    all_read(
        &rt,
        rt.alloc(),
        &[
            ("A? A!", "method:A? method:A! "),
            ("a=b", "id:a Assign id:b "),
            ("x.if y", "id:x Dot method:if id:y "),
            ("x&.class", "id:x AmpersandDot method:class "),
            ("x::then", "id:x ColonColon method:then "),
            ("x.== y", "id:x Dot method:== id:y "),
            ("x.(1)", "id:x Dot OpenParenthesis 1 CloseParenthesis "),
            ("::A", "ColonColon const:A "),
            ("def x=1", "Def id:x Assign 1 "),
            (
                "def A.b=(v)",
                "Def const:A Dot method:b= OpenParenthesis id:v CloseParenthesis ",
            ),
            (
                "def []; def <=>(o)",
                "Def method:[] ; Def method:<=> OpenParenthesis id:o CloseParenthesis ",
            ),
            ("undef if, end", "Undef method:if Comma method:end "),
            ("alias $a $b", "Alias gvar:$a gvar:$b "),
            ("alias :a if", "Alias sym:a method:if "),
            ("alias if :a", "Alias method:if sym:a "),
            ("undef :a, end", "Undef sym:a Comma method:end "),
            ("yield / 2 / 3", "Yield Slash 2 Slash 3 "),
            ("yield ? 1 : 2", "Yield Question 1 Colon 2 "),
            ("@", "Syntax 0 "),
            ("$", "Syntax 0 "),
            ("a!b", "method:a! id:b "),
        ],
    )
}

#[test]
fn every_operator(rt: HostRuntime) -> Result<(), Fail> {
    all_read(
        &rt,
        rt.alloc(),
        &[
            (
                "a + b - c * d / e % f ** g",
                "id:a Plus id:b Minus id:c Star id:d Slash id:e Percent id:f StarStar id:g ",
            ),
            (
                "a == b === c != d < e <= f > g >= h",
                "id:a Equal id:b CaseEqual id:c NotEqual id:d Less id:e LessEqual id:f Greater id:g GreaterEqual id:h ",
            ),
            (
                "a << b >> c & d ^ e | f && g",
                "id:a ShiftLeft id:b ShiftRight id:c Ampersand id:d Caret id:e Bar id:f AndAnd id:g ",
            ),
            (
                "a += 1; a -= 1; a *= 1",
                "id:a PlusAssign 1 ; id:a MinusAssign 1 ; id:a StarAssign 1 ",
            ),
            (
                "a |= 1; a ^= 1; a &= 1",
                "id:a BarAssign 1 ; id:a CaretAssign 1 ; id:a AmpersandAssign 1 ",
            ),
            (
                "a >>= 1; a &&= b; a ||= c; a %= 2",
                "id:a ShiftRightAssign 1 ; id:a AndAndAssign id:b ; id:a OrOrAssign id:c ; id:a PercentAssign 2 ",
            ),
            ("!a !~ ~b", "Not id:a NotMatch Tilde id:b "),
            ("[a => b]", "OpenBracket id:a Arrow id:b CloseBracket "),
            ("\\", "Syntax 0 "),
            ("a, *b", "id:a Comma Star id:b "),
        ],
    )
}

#[test]
fn malformed_numbers(rt: HostRuntime) -> Result<(), Fail> {
    all_read(
        &rt,
        rt.alloc(),
        &[
            ("0b2", "Syntax 2 "),
            ("1__0", "Syntax 2 "),
            ("1_", "Syntax 2 "),
            ("0x", "Syntax 2 "),
            ("08", "Syntax 1 "),
            ("1e-3 1E5", "!Float !Float "),
            ("0", "0 "),
            ("1.e", "1 Dot id:e "),
            ("3ri", "!Imaginary "),
        ],
    )
}

#[test]
fn escapes_and_delimiters(rt: HostRuntime) -> Result<(), Fail> {
    all_read(
        &rt,
        rt.alloc(),
        &[
            (
                "\"\\n\\t\\r\\a\\b\\e\\f\\v\\0\"",
                "( =\n\t\r\u{7}\u{8}\u{1b}\u{c}\u{b}\0 ) ",
            ),
            ("\"\\q\\#{\"", "( =q#{ ) "),
            ("\"\\u{20AC}\"", "( =\u{20ac} ) "),
            ("\"\\x\"", "Syntax 3 "),
            ("\"\\ud800\"", "Syntax 3 "),
            ("'a\nb'", "( =a\nb ) "),
            ("'a", "Syntax 2 "),
            ("%(a", "Syntax 3 "),
            ("%w(a", "Syntax 4 "),
            ("\"#{\"#{a}\"}\"", "( #{ ( #{ id:a } ) } ) "),
            ("\"a\": 1", "( =a !QuotedLabel 1 "),
            ("a ? \"b\": c", "id:a Question ( =b ) Colon id:c "),
            ("%q<a<b>c>", "( =a<b>c ) "),
            ("%!a!", "( =a ) "),
            ("%w[]", "w( ) "),
            ("%i[a#{b}]", "i( =a#{b} ) "),
            ("a ? :b : :c", "id:a Question sym:b Colon sym:c "),
            ("p :if, :$a", "id:p sym:if Comma sym:$a "),
            ("x :y", "id:x sym:y "),
            (":\"a#{1}\"", ":( =a #{ 1 } ) "),
            (
                "[?a, ?b]",
                "OpenBracket char:97 Comma char:98 CloseBracket ",
            ),
        ],
    )
}

#[test]
fn more_heredocs(rt: HostRuntime) -> Result<(), Fail> {
    all_read(
        &rt,
        rt.alloc(),
        &[
            ("<<\"A B\"\nx\nA B\n", "( =x\n ) nl "),
            ("f <<-'A', 1\n x\n  A\n", "id:f ( = x\n ) Comma 1 nl "),
            ("<<A.b\nc\nA\n", "( =c\n ) Dot id:b nl "),
            ("<<A\nA\n", "( ) nl "),
            ("<<A\na\\tb\nA\n", "( =a\tb\n ) nl "),
            ("x <<~y\n", "Syntax 2 "),
            ("x = %r(a(b))", "id:x Assign !PercentLiteral "),
            ("x = %s{a}", "id:x Assign !PercentLiteral "),
            ("%^a^", "!PercentLiteral "),
            ("/a", "Syntax 0 "),
            ("a `b`", "Syntax 2 "),
        ],
    )
}
