//! Sources and their cores by the table of lowering.
use crate::rows::all_read;
use std::test::Fail;

#[test]
fn leaves(rt: HostRuntime) -> Result<(), Fail> {
    all_read(
        &rt,
        rt.alloc(),
        &[
            ("", "nil"),
            ("()", "nil"),
            ("1", "1"),
            ("(1\n)", "1"),
            ("1; 2", "(1; 2)"),
            ("1; (2; 3)", "(1; (2; 3))"),
            ("((1))", "1"),
            ("nil; true; false; self", "(nil; true; false; self)"),
            ("@a; $a; A; ::A", "(@a; $a; A; ::A)"),
            ("A::B::C", "A::B::C"),
            ("a::B", "~a()::B"),
            ("a = 1; a", "((a = 1); a)"),
            ("-9223372036854775808", "-9223372036854775808"),
            ("-1.abs", "-1.abs()"),
            ("'a'", "'a'"),
            ("''", "''"),
            ("'a' \"b\"", "'ab'"),
            ("\"a#{1}b\"", "(text 'a' 1.to_s() 'b')"),
            ("\"#{}\"", "(text nil.to_s())"),
            ("\"#{1; 2}\"", "(text (1; 2).to_s())"),
            ("\"#@a#$b\"", "(text @a.to_s() $b.to_s())"),
            ("'a' \"b#{1}\" 'c'", "(text 'a' 'b' 1.to_s() 'c')"),
            ("?a", "'a'"),
            ("<<X\na\nX\n", "'a\n'"),
            ("<<X\na#{1}\nX\n", "(text 'a' 1.to_s() '\n')"),
            (":a", ":a"),
            (":+", ":+"),
            (":[]=", ":[]="),
            (":\"a b\"", ":a b"),
            (":\"a#{1}\"", "(intern (text 'a' 1.to_s()))"),
            ("%w[a b]", "['a' 'b']"),
            ("%w[]", "[]"),
            ("%i[a b]", "[:a :b]"),
            ("[]", "[]"),
            ("[1, *a, 2]", "[1 *~a() 2]"),
            ("[1, a: 2]", "[1 {:a=>2}]"),
            ("x = {}", "(x = {})"),
            ("x = {a: 1, 'b' => 2}", "(x = {:a=>1 'b'=>2})"),
            ("[[1], {2 => 3}]", "[[1] {2=>3}]"),
        ],
    )
}

#[test]
fn operators(rt: HostRuntime) -> Result<(), Fail> {
    all_read(
        &rt,
        rt.alloc(),
        &[
            ("!1", "1.!()"),
            ("not 1", "1.!()"),
            ("a = 1; -a", "((a = 1); a.-@())"),
            ("a = 1; +a", "((a = 1); a.+@())"),
            ("~1", "1.~()"),
            ("-2 ** 2", "2.**(2).-@()"),
            ("2 ** -1", "2.**(-1)"),
            ("1 + 2 * 3", "1.+(2.*(3))"),
            ("1 - 2 - 3", "1.-(2).-(3)"),
            ("1 / 2 % 3", "1./(2).%(3)"),
            ("1 << 2 >> 3", "1.<<(2).>>(3)"),
            ("1 & 2 | 3 ^ 4", "1.&(2).|(3).^(4)"),
            (
                "[1 < 2, 1 <= 2, 1 > 2, 1 >= 2]",
                "[1.<(2) 1.<=(2) 1.>(2) 1.>=(2)]",
            ),
            (
                "[1 == 2, 1 === 2, 1 != 2, 1 <=> 2]",
                "[1.==(2) 1.===(2) 1.!=(2) 1.<=>(2)]",
            ),
            ("1 && 2 || 3", "(or (and 1 2) 3)"),
            ("1 and 2 or 3", "(or (and 1 2) 3)"),
            ("1 or not 2", "(or 1 2.!())"),
            ("1..2", "(1..2)"),
            ("1...2", "(1...2)"),
            ("(1..2).a", "(1..2).a()"),
        ],
    )
}

#[test]
fn branches(rt: HostRuntime) -> Result<(), Fail> {
    all_read(
        &rt,
        rt.alloc(),
        &[
            ("1 ? 2 : 3", "(if 1 2 else 3)"),
            ("if 1 then 2 end", "(if 1 2 else nil)"),
            ("if 1; 2; 3; else; 4; end", "(if 1 (2; 3) else 4)"),
            (
                "if 1; elsif 2; 3; elsif 4; else 5; end",
                "(if 1 nil 2 3 4 nil else 5)",
            ),
            ("if 1; end", "(if 1 nil else nil)"),
            ("2 if 1", "(if 1 2 else nil)"),
            ("unless 1; 2; end", "(if 1 nil else 2)"),
            ("unless 1; 2; else; 3; end", "(if 1 3 else 2)"),
            ("2 unless 1", "(if 1 nil else 2)"),
            ("while 1; 2; end", "(while 1 2)"),
            ("while 1 do end", "(while 1 nil)"),
            ("until 1; 2; end", "(while (if 1 false else true) 2)"),
            ("2 while 1", "(while 1 2)"),
            ("2 until 1", "(while (if 1 false else true) 2)"),
            ("begin; 2; end while 1", "(do-while 1 2)"),
            (
                "begin; 2; end until 1",
                "(do-while (if 1 false else true) 2)",
            ),
            (
                "begin; 1; rescue; end while 2",
                "(do-while 2 (begin 1 rescue [] nil))",
            ),
            ("(2) while 1", "(while 1 2)"),
            (
                "case 1; when 2 then 3 end",
                "((%0 = 1); (if 2.===(%0) 3 else nil))",
            ),
            (
                "case 1; when 2, 3; 4; else; 5; end",
                "((%0 = 1); (if (or 2.===(%0) 3.===(%0)) 4 else 5))",
            ),
            (
                "case 1; when 2, 3, 4; end",
                "((%0 = 1); (if (or 2.===(%0) (or 3.===(%0) 4.===(%0))) nil else nil))",
            ),
            ("case; when 2, 3; 4; end", "(if (or 2 3) 4 else nil)"),
            (
                "case; when 2 then 3; when 4 then 5; else 6; end",
                "(if 2 3 4 5 else 6)",
            ),
            (
                "case 1; when 2; case 3; when 4; end; end",
                "((%0 = 1); (if 2.===(%0) ((%1 = 3); (if 4.===(%1) nil else nil)) else nil))",
            ),
            (
                "case (case 1; when 2; end); when 3; end",
                "((%0 = ((%1 = 1); (if 2.===(%1) nil else nil))); (if 3.===(%0) nil else nil))",
            ),
            (
                "case 1; when 2; end; case 3; when 4; end",
                "(((%0 = 1); (if 2.===(%0) nil else nil)); ((%0 = 3); (if 4.===(%0) nil else nil)))",
            ),
        ],
    )
}

#[test]
fn clauses(rt: HostRuntime) -> Result<(), Fail> {
    all_read(
        &rt,
        rt.alloc(),
        &[
            ("begin; end", "nil"),
            ("begin; 1; 2; end", "(1; 2)"),
            ("begin; 1; rescue; 2; end", "(begin 1 rescue [] 2)"),
            (
                "begin; 1; rescue A, B => e; 2; end",
                "(begin 1 rescue [A B] (e = %exception) 2)",
            ),
            (
                "begin; 1; rescue => @e; end",
                "(begin 1 rescue [] (@e = %exception) nil)",
            ),
            (
                "begin; 1; rescue A; 2; rescue B; 3; else; 4; ensure; 5; end",
                "(begin 1 rescue [A] 2 rescue [B] 3 else 4 ensure 5)",
            ),
            ("begin; 1; ensure; 2; end", "(begin 1 ensure 2)"),
            ("begin; 1; else; 2; end", "(begin 1 else 2)"),
            ("begin; 1; ensure; end", "(begin 1 ensure nil)"),
            ("1 rescue 2", "(begin 1 rescue [] 2)"),
            ("a = 1 rescue 2", "(a = (begin 1 rescue [] 2))"),
            ("begin; rescue; retry; end", "(begin nil rescue [] (retry))"),
            (
                "begin; 1; rescue => a[2]; end",
                "(begin 1 rescue [] ((%0 = ~a()); (%1 = 2); (%2 = %exception); %0.[]=(%1 %2); %2) nil)",
            ),
            ("return", "(return nil)"),
            ("return 1", "(return 1)"),
            ("return 1, 2", "(return [1 2])"),
            ("return *a", "(return [*~a()])"),
            ("return a: 1", "(return {:a=>1})"),
            ("return [1]", "(return [1])"),
            ("return if 1", "(if 1 (return nil) else nil)"),
            ("foo { break }", "foo()&{|;| (break nil)}"),
            ("foo { next 1, 2 }", "foo()&{|;| (next [1 2])}"),
            (
                "while 1; break 2; next; end",
                "(while 1 ((break 2); (next nil)))",
            ),
        ],
    )
}

#[test]
fn calls(rt: HostRuntime) -> Result<(), Fail> {
    all_read(
        &rt,
        rt.alloc(),
        &[
            ("foo", "~foo()"),
            ("foo()", "foo()"),
            ("foo 1, 2", "foo(1 2)"),
            ("foo(1, *a, b => 2, &c)", "foo(1 *~a() {~b()=>2})&~c()"),
            ("foo &a", "foo()&~a()"),
            ("foo(&:a)", "foo()&:a"),
            ("a.b", "~a().b()"),
            ("a.b()", "~a().b()"),
            ("a.b 1", "~a().b(1)"),
            ("a.b(1).c 2", "~a().b(1).c(2)"),
            ("a::b(1)", "~a().b(1)"),
            ("a::B(1)", "~a().B(1)"),
            ("A(1)", "A(1)"),
            ("a.(1)", "~a().call(1)"),
            ("a.()", "~a().call()"),
            ("a[1]", "~a().[](1)"),
            ("a[1, *b]", "~a().[](1 *~b())"),
            ("a[]", "~a().[]()"),
            ("a[1 => 2]", "~a().[]({1=>2})"),
            ("self.a", "self.a()"),
            ("foo? 1", "foo?(1)"),
            ("foo!", "~foo!()"),
            ("a.class", "~a().class()"),
            ("a = 1; a(2)", "((a = 1); a(2))"),
            ("foo bar 1", "foo(bar(1))"),
            ("foo a: 1, :b => 2", "foo({:a=>1 :b=>2})"),
            ("puts -1", "puts(-1)"),
            ("foo (1), 2", "foo(1 2)"),
            ("block_given?", "(if (defined Yield ) true else false)"),
            ("block_given?()", "(if (defined Yield ) true else false)"),
            ("block_given?(1)", "block_given?(1)"),
            ("self.block_given?", "self.block_given?()"),
        ],
    )
}

#[test]
fn blocks(rt: HostRuntime) -> Result<(), Fail> {
    all_read(
        &rt,
        rt.alloc(),
        &[
            ("foo { }", "foo()&{|;| nil}"),
            ("foo { |a| x = a }", "foo()&{| a; x| (x = a)}"),
            ("foo do |a| a end", "foo()&{| a;| a}"),
            ("foo 1 do 2 end", "foo(1)&{|;| 2}"),
            ("foo bar do 1 end", "foo(~bar())&{|;| 1}"),
            ("foo bar { 1 }", "foo(bar()&{|;| 1})"),
            ("a.b { 1 }", "~a().b()&{|;| 1}"),
            (
                "foo { |a, b = 1, *c, d, &e| }",
                "foo()&{| a b? *c d &e;| ((b = 1); nil)}",
            ),
            ("foo { |a,| a }", "foo()&{| a *%rest;| a}"),
            ("foo { |*| }", "foo()&{| *%rest;| nil}"),
            ("foo { |a; b| b }", "foo()&{| a; b| b}"),
            (
                "foo { |a, (b, *c)| b }",
                "foo()&{| a %p1; b c| (((%0 = %p1); (b = %0<0>); (c = %0<1:0>); %0); b)}",
            ),
            (
                "foo { |(a, b), *c, (d, e)| }",
                "foo()&{| %p0 *c %p1; a b d e| (((%0 = %p0); (a = %0<0>); (b = %0<1>); %0); ((%0 = %p1); (d = %0<0>); (e = %0<1>); %0); nil)}",
            ),
            (
                "foo { |(a, (b, c))| }",
                "foo()&{| %p0; a b c| (((%0 = %p0); (a = %0<0>); ((%1 = %0<1>); (b = %1<0>); (c = %1<1>); %1); %0); nil)}",
            ),
            ("-> { 1 }", "->{|;| 1}"),
            ("->(a, b = 2) { a }", "->{| a b?;| ((b = 2); a)}"),
            ("-> a do a end", "->{| a;| a}"),
            (
                "x = 1; foo { x = 2; y = 3 }",
                "((x = 1); foo()&{|; y| ((x = 2); (y = 3))})",
            ),
            (
                "for i in a; b; end",
                "~a().each()&{| %p0;| ((i = %p0); ~b())}",
            ),
            (
                "for i, j in a do end",
                "~a().each()&{| %p0 %p1;| ((i = %p0); (j = %p1); nil)}",
            ),
            (
                "for a.b in 1; end",
                "1.each()&{| %p0;| (((%0 = ~a()); (%1 = %p0); %0.b=(%1); %1); nil)}",
            ),
            (
                "case 1; when 2; foo { case 3; when 4; end }; end",
                "((%0 = 1); (if 2.===(%0) foo()&{|;| ((%0 = 3); (if 4.===(%0) nil else nil))} else nil))",
            ),
        ],
    )
}

#[test]
fn assignments(rt: HostRuntime) -> Result<(), Fail> {
    all_read(
        &rt,
        rt.alloc(),
        &[
            ("a = 1", "(a = 1)"),
            ("@a = 1", "(@a = 1)"),
            ("$a = 1", "($a = 1)"),
            ("A = 1", "(A = 1)"),
            ("A::B = 1", "(A::B = 1)"),
            ("a = b = 1", "(a = (b = 1))"),
            ("a = a", "(a = a)"),
            ("a = 1, 2", "(a = [1 2])"),
            ("a = *b", "(a = [*~b()])"),
            ("a = 1, *b", "(a = [1 *~b()])"),
            (
                "a[1] = 2",
                "((%0 = ~a()); (%1 = 1); (%2 = 2); %0.[]=(%1 %2); %2)",
            ),
            ("a[] = 2", "((%0 = ~a()); (%1 = 2); %0.[]=(%1); %1)"),
            (
                "a[1, *b] = 2",
                "((%0 = ~a()); (%1 = 1); (%2 = [*~b()]); (%3 = 2); %0.[]=(%1 *%2 %3); %3)",
            ),
            ("a.b = 1", "((%0 = ~a()); (%1 = 1); %0.b=(%1); %1)"),
            ("self.b = 1", "((%0 = self); (%1 = 1); %0.b=(%1); %1)"),
            (
                "a[1] = b[2] = 3",
                "((%0 = ~a()); (%1 = 1); (%2 = ((%3 = ~b()); (%4 = 2); (%5 = 3); %3.[]=(%4 %5); %5)); %0.[]=(%1 %2); %2)",
            ),
            (
                "a.b = c.d = 1",
                "((%0 = ~a()); (%1 = ((%2 = ~c()); (%3 = 1); %2.d=(%3); %3)); %0.b=(%1); %1)",
            ),
            (
                "a[b[1] = 2] = 3",
                "((%0 = ~a()); (%1 = ((%3 = ~b()); (%4 = 1); (%5 = 2); %3.[]=(%4 %5); %5)); (%2 = 3); %0.[]=(%1 %2); %2)",
            ),
            ("a += 1", "(a = a.+(1))"),
            ("@a -= 1", "(@a = @a.-(1))"),
            ("$a *= 2", "($a = $a.*(2))"),
            ("A += 1", "(A = A.+(1))"),
            (
                "a = 1; a /= 2; a %= 3; a **= 4",
                "((a = 1); (a = a./(2)); (a = a.%(3)); (a = a.**(4)))",
            ),
            (
                "a = 1; a <<= 2; a >>= 3",
                "((a = 1); (a = a.<<(2)); (a = a.>>(3)))",
            ),
            (
                "a = 1; a &= 2; a |= 3; a ^= 4",
                "((a = 1); (a = a.&(2)); (a = a.|(3)); (a = a.^(4)))",
            ),
            ("a ||= 1", "(or a (a = 1))"),
            ("a &&= 1", "(and a (a = 1))"),
            ("@a ||= 1", "(or @a (@a = 1))"),
            ("$a &&= 1", "(and $a ($a = 1))"),
            ("A ||= 1", "(or (and (defined Constant A) A) (A = 1))"),
            ("A &&= 1", "(and A (A = 1))"),
            ("A::B += 1", "((%0 = A); (%0::B = %0::B.+(1)))"),
            (
                "A::B ||= 1",
                "((%0 = A); (or (and (defined Constant B %0) %0::B) (%0::B = 1)))",
            ),
            ("A::B &&= 1", "((%0 = A); (and %0::B (%0::B = 1)))"),
            (
                "a.b += 1",
                "((%0 = ~a()); ((%1 = %0.b().+(1)); %0.b=(%1); %1))",
            ),
            (
                "a.b ||= 1",
                "((%0 = ~a()); (or %0.b() ((%1 = 1); %0.b=(%1); %1)))",
            ),
            (
                "a[1] += 2",
                "((%0 = ~a()); (%1 = 1); ((%2 = %0.[](%1).+(2)); %0.[]=(%1 %2); %2))",
            ),
            (
                "a[1] ||= 2",
                "((%0 = ~a()); (%1 = 1); (or %0.[](%1) ((%2 = 2); %0.[]=(%1 %2); %2)))",
            ),
            (
                "a[*b] &&= 2",
                "((%0 = ~a()); (%1 = [*~b()]); (and %0.[](*%1) ((%2 = 2); %0.[]=(*%1 %2); %2)))",
            ),
        ],
    )
}

#[test]
fn targets(rt: HostRuntime) -> Result<(), Fail> {
    all_read(
        &rt,
        rt.alloc(),
        &[
            (
                "a, b = 1, 2",
                "((%0 = [1 2]); (a = %0<0>); (b = %0<1>); %0)",
            ),
            (
                "a, *b, c = d",
                "((%0 = ~d()); (a = %0<0>); (b = %0<1:1>); (%1 = %0<1;1>); (c = %1<0>); %0)",
            ),
            (
                "a, *b, c = [1]",
                "((%0 = [1]); (a = %0<0>); (b = %0<1:1>); (%1 = %0<1;1>); (c = %1<0>); %0)",
            ),
            (
                "*a, b, c = 1",
                "((%0 = 1); (a = %0<0:2>); (%1 = %0<0;2>); (b = %1<0>); (c = %1<1>); %0)",
            ),
            ("*a = 1", "((%0 = 1); (a = %0<0:0>); %0)"),
            ("*, a = 1", "((%0 = 1); (%1 = %0<0;1>); (a = %1<0>); %0)"),
            (
                "*a, b.c = 1",
                "((%0 = 1); (a = %0<0:1>); (%1 = %0<0;1>); ((%2 = ~b()); (%3 = %1<0>); %2.c=(%3); %3); %0)",
            ),
            ("a, = 1", "((%0 = 1); (a = %0<0>); %0)"),
            (
                "a, (b, c), d = 1",
                "((%0 = 1); (a = %0<0>); ((%1 = %0<1>); (b = %1<0>); (c = %1<1>); %1); (d = %0<2>); %0)",
            ),
            (
                "(a, b), c = 1",
                "((%0 = 1); ((%1 = %0<0>); (a = %1<0>); (b = %1<1>); %1); (c = %0<1>); %0)",
            ),
            ("(a, b) = 1", "((%0 = 1); (a = %0<0>); (b = %0<1>); %0)"),
            (
                "a, b = b, a",
                "((%0 = [b a]); (a = %0<0>); (b = %0<1>); %0)",
            ),
            (
                "a.x, b[1] = 2, 3",
                "((%0 = [2 3]); ((%1 = ~a()); (%2 = %0<0>); %1.x=(%2); %2); ((%1 = ~b()); (%2 = 1); (%3 = %0<1>); %1.[]=(%2 %3); %3); %0)",
            ),
            (
                "@a, $b, C = 1",
                "((%0 = 1); (@a = %0<0>); ($b = %0<1>); (C = %0<2>); %0)",
            ),
            ("A::B, a = 1", "((%0 = 1); (A::B = %0<0>); (a = %0<1>); %0)"),
            (
                "a, b = c, *d",
                "((%0 = [~c() *~d()]); (a = %0<0>); (b = %0<1>); %0)",
            ),
            (
                "a, b = foo 1, 2",
                "((%0 = foo(1 2)); (a = %0<0>); (b = %0<1>); %0)",
            ),
            (
                "a, b = (c, d = 1)",
                "((%0 = ((%1 = 1); (c = %1<0>); (d = %1<1>); %1)); (a = %0<0>); (b = %0<1>); %0)",
            ),
        ],
    )
}

#[test]
fn definitions(rt: HostRuntime) -> Result<(), Fail> {
    all_read(
        &rt,
        rt.alloc(),
        &[
            ("def f; end", "(def f {|;| nil})"),
            (
                "def f(a, b = 1, *c, d, &e) a end",
                "(def f {| a b? *c d &e;| ((b = 1); a)})",
            ),
            ("def f; x = 1; end", "(def f {|; x| (x = 1)})"),
            ("def self.f; end", "(def self.f {|;| nil})"),
            ("def A.f; end", "(def A.f {|;| nil})"),
            ("def (a).f; end", "(def ~a().f {|;| nil})"),
            ("def +(x) x end", "(def + {| x;| x})"),
            ("def a=(x) end", "(def a= {| x;| nil})"),
            (
                "def f; 1; rescue; 2; ensure; 3; end",
                "(def f {|;| (begin 1 rescue [] 2 ensure 3)})",
            ),
            ("def f(*) end", "(def f {| *%rest;| nil})"),
            ("def f(&b) b end", "(def f {| &b;| b})"),
            ("private def f; end", "private((def f {|;| nil}))"),
            ("class A; end", "(class A nil)"),
            ("class A; x = 1; end", "(class A |; x| (x = 1))"),
            ("class << self; x = 1; end", "(class << self |; x| (x = 1))"),
            ("module A; x = 1; end", "(module A |; x| (x = 1))"),
            ("class A < B; 1; end", "(class A < B 1)"),
            ("class A::B; end", "(class A::B nil)"),
            ("class ::A; end", "(class ::Object::A nil)"),
            ("class << self; 1; end", "(class << self 1)"),
            ("module A; 1; 2; end", "(module A (1; 2))"),
            ("module A::B; end", "(module A::B nil)"),
            ("module ::A; end", "(module ::Object::A nil)"),
            ("alias a b", "(alias a b)"),
            ("undef a", "(undef a)"),
            ("undef a, b", "((undef a); (undef b))"),
            ("def f; super; end", "(def f {|;| super()})"),
            (
                "def f(a, b = 1, *c, d, &e); super; end",
                "(def f {| a b? *c d &e;| ((b = 1); super(^a ^b *^c ^d))})",
            ),
            ("def f(a); super(); end", "(def f {| a;| super()})"),
            ("def f(a); super 1, *a; end", "(def f {| a;| super(1 *a)})"),
            (
                "def f(a); super { |x| x }; end",
                "(def f {| a;| super(^a)&{| x;| x}})",
            ),
            ("def f(&b); super(&b); end", "(def f {| &b;| super()&b})"),
            (
                "def f(a); foo { super }; end",
                "(def f {| a;| foo()&{|;| super(^a)}})",
            ),
            (
                "def f(a); foo { |a| super }; end",
                "(def f {| a;| foo()&{| a;| super(^a)}})",
            ),
            (
                "def f((a, b)); foo { |(c, d)| super }; end",
                "(def f {| %p0; a b| (((%0 = %p0); (a = %0<0>); (b = %0<1>); %0); foo()&{| %p0; c d| (((%0 = %p0); (c = %0<0>); (d = %0<1>); %0); super(^%p0))})})",
            ),
            (
                "def f(*); super; end",
                "(def f {| *%rest;| super(*^%rest)})",
            ),
            (
                "def f((a, b)); super; end",
                "(def f {| %p0; a b| (((%0 = %p0); (a = %0<0>); (b = %0<1>); %0); super(^%p0))})",
            ),
            ("def f; yield; end", "(def f {|;| yield()})"),
            ("def f; yield 1, *a; end", "(def f {|;| yield(1 *~a())})"),
            ("def f; yield [1]; end", "(def f {|;| yield([1])})"),
        ],
    )
}

#[test]
fn questions(rt: HostRuntime) -> Result<(), Fail> {
    all_read(
        &rt,
        rt.alloc(),
        &[
            ("defined? 1", "(defined Expression )"),
            ("a = 1; defined? a", "((a = 1); (defined LocalVariable a))"),
            ("defined? @a", "(defined InstanceVariable @a)"),
            ("defined? $a", "(defined GlobalVariable $a)"),
            ("defined? A", "(defined Constant A)"),
            ("defined? ::A", "(defined Constant A ::Object)"),
            (
                "defined? A::B",
                "(begin (defined Constant B A) rescue [] nil)",
            ),
            ("defined? foo", "(defined Method foo)"),
            ("defined?(foo(1))", "(defined Method foo)"),
            (
                "defined? a.b",
                "(begin (defined Method b ~a()) rescue [] nil)",
            ),
            (
                "defined?(1 + 2)",
                "(begin (defined Method + 1) rescue [] nil)",
            ),
            ("defined? !1", "(begin (defined Method ! 1) rescue [] nil)"),
            (
                "a = 1; defined? -a",
                "((a = 1); (begin (defined Method -@ a) rescue [] nil))",
            ),
            (
                "defined? a[1]",
                "(begin (defined Method [] ~a()) rescue [] nil)",
            ),
            ("defined? self", "(defined SelfReference )"),
            ("defined? nil", "(defined Expression )"),
            ("defined?(a = 1)", "(defined Assignment )"),
            ("defined?(a += 1)", "(defined Assignment )"),
            (
                "def f; defined? yield; end",
                "(def f {|;| (defined Yield )})",
            ),
            (
                "def f; defined? super; end",
                "(def f {|;| (defined Super )})",
            ),
            ("defined?(())", "(defined Expression )"),
            ("defined?((1; 2))", "(defined Expression )"),
            ("defined?((@a))", "(defined InstanceVariable @a)"),
            ("defined?(1 && 2)", "(defined Expression )"),
        ],
    )
}
