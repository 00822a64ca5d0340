//! Sources of several lines, and the refusals.
use crate::rows::all_read;
use std::test::Fail;

#[test]
fn several_lines(rt: HostRuntime) -> Result<(), Fail> {
    all_read(
        &rt,
        rt.alloc(),
        &[
            (
                "puts(-7 / 2, -7 % 2, -2 ** 2)",
                "puts(-7./(2) -7.%(2) 2.**(2).-@())",
            ),
            (
                "a = 1 +\n2\nputs a\na\n-1",
                "((a = 1.+(2)); puts(a); a; -1)",
            ),
            (
                "x = 2\nputs(<<A, <<-B)\none\nA\ntwo #{x + 1}\n  B\n",
                "((x = 2); puts('one\n' (text 'two ' x.+(1).to_s() '\n')))",
            ),
            ("p -9223372036854775808", "p(-9223372036854775808)"),
        ],
    )
}

/// Lines that end with a carriage return and a newline; a place is one in the text, whose carriage returns count.
#[test]
fn carriage_returns(rt: HostRuntime) -> Result<(), Fail> {
    all_read(
        &rt,
        rt.alloc(),
        &[
            ("1\r\n2\r\n", "(1; 2)"),
            ("'a\r\nb'", "'a\nb'"),
            ("\"a\rb\\\r\nc\"", "'a\rbc'"),
            ("<<X\r\na\r\nX\r\n", "'a\n'"),
            ("=begin\r\n=end\r\n1 \\\r\n + 2", "1.+(2)"),
            ("1\r\n)", "Syntax { at: 3 }"),
            ("\r\n1\r\n\r\n1.5", "Outside { what: Float, at: 7 }"),
            ("1\r)", "Syntax { at: 2 }"),
        ],
    )
}

#[test]
fn outside(rt: HostRuntime) -> Result<(), Fail> {
    all_read(
        &rt,
        rt.alloc(),
        &[
            ("1.5", "Outside { what: Float, at: 0 }"),
            ("1r", "Outside { what: Rational, at: 0 }"),
            ("1i", "Outside { what: Imaginary, at: 0 }"),
            (
                "9223372036854775808",
                "Outside { what: WideInteger, at: 0 }",
            ),
            ("x = /a/", "Outside { what: Regexp, at: 4 }"),
            ("`a`", "Outside { what: Backquote, at: 0 }"),
            ("%r(a)", "Outside { what: PercentLiteral, at: 0 }"),
            ("x = {\"a\": 1}", "Outside { what: QuotedLabel, at: 5 }"),
            ("\u{e9} = 1", "Outside { what: NonAsciiName, at: 0 }"),
            ("<<~X\nX\n", "Outside { what: SquigglyHeredoc, at: 0 }"),
            ("@@a", "Outside { what: ClassVariable, at: 0 }"),
            ("$1", "Outside { what: SpecialGlobal, at: 0 }"),
            ("p \"#$!\"", "Outside { what: SpecialGlobal, at: 4 }"),
            ("\"#$1\"", "Outside { what: SpecialGlobal, at: 2 }"),
            ("\"#@@x\"", "Outside { what: ClassVariable, at: 2 }"),
            ("1 =~ 2", "Outside { what: MatchOperator, at: 2 }"),
            ("1 !~ 2", "Outside { what: MatchOperator, at: 2 }"),
            ("a&.b", "Outside { what: SafeNavigation, at: 1 }"),
            ("foo **a", "Outside { what: DoubleSplat, at: 4 }"),
            ("redo", "Outside { what: Redo, at: 0 }"),
            ("__FILE__", "Outside { what: FileKeyword, at: 0 }"),
            ("__LINE__", "Outside { what: LineKeyword, at: 0 }"),
            ("__ENCODING__", "Outside { what: EncodingKeyword, at: 0 }"),
            ("BEGIN { 1 }", "Outside { what: BeginBlock, at: 0 }"),
            ("END { 1 }", "Outside { what: EndBlock, at: 0 }"),
            ("def f(a:) end", "Outside { what: KeywordParameter, at: 6 }"),
            ("def f(a) = a", "Outside { what: EndlessMethod, at: 9 }"),
            ("alias $a $b", "Outside { what: GlobalAlias, at: 0 }"),
            ("1 if a..b", "Outside { what: FlipFlop, at: 6 }"),
            (
                "case 1; when *a; end",
                "Outside { what: SplatClause, at: 13 }",
            ),
            (
                "begin; rescue *a; end",
                "Outside { what: SplatClause, at: 14 }",
            ),
            ("case 1; in 2; end", "Outside { what: PatternMatch, at: 8 }"),
            ("[1.5, /a/]", "Outside { what: Float, at: 1 }"),
            ("foo(/a/, 1.5)", "Outside { what: Regexp, at: 4 }"),
            ("a&.b(1.5)", "Outside { what: SafeNavigation, at: 1 }"),
            ("x = 1; x&.y", "Outside { what: SafeNavigation, at: 8 }"),
            (
                "p 9223372036854775808",
                "Outside { what: WideInteger, at: 2 }",
            ),
            ("puts 1.5", "Outside { what: Float, at: 5 }"),
            ("1.5 =~ /a/", "Outside { what: Float, at: 0 }"),
            (
                "def f; class << self; 1; 2.5; end; end",
                "Outside { what: Float, at: 25 }",
            ),
            ("break", "Syntax { at: 0 }"),
            ("def f(a, a); end", "Syntax { at: 0 }"),
            ("1 2", "Syntax { at: 2 }"),
            ("puts (1", "Syntax { at: 7 }"),
            ("1.5 2", "Syntax { at: 4 }"),
            ("break; 1.5", "Syntax { at: 0 }"),
        ],
    )
}
