//! Words where they may stand and where they may not, and whole programs.
use crate::tree_rows::{Rules, all_lines, line_of};
use std::test::Fail;

/// Words that the grammar derives and that may not stand where they stand, beside those that may.
#[test]
fn places(rt: HostRuntime) -> Result<(), Fail> {
    all_lines(
        &rt,
        rt.alloc(),
        &[
            ("break", "Syntax { at: 0 }"),
            ("1; next 2", "Syntax { at: 3 }"),
            (
                "def f(x = a.break); yield; :next; { next: 1 }; end; next",
                "Syntax { at: 52 }",
            ),
            ("return if 1; def f() = super; retry", "Syntax { at: 30 }"),
            ("break if yield", "Syntax { at: 0 }"),
            ("next unless retry; break", "Syntax { at: 0 }"),
            ("while 1; break; end", "((while 1 ((break))))"),
            (
                "until 1; f = -> { next }; end",
                "((until 1 ((= f ->{|;| ((next))}))))",
            ),
            ("while 1; def f; break; end; end", "Syntax { at: 16 }"),
            ("while 1; class A; next; end; end", "Syntax { at: 18 }"),
            ("f { break }", "(~f{|;| ((break))})"),
            ("for i in 1; next; end", "((for i in 1 ((next))))"),
            ("while break; end", "((while (break) ()))"),
            ("retry", "Syntax { at: 0 }"),
            ("begin; retry; rescue; end", "Syntax { at: 7 }"),
            (
                "begin; rescue; retry; else; end",
                "((begin () rescue ((retry)) else ()))",
            ),
            ("begin; rescue; 1; else; retry; end", "Syntax { at: 24 }"),
            ("begin; rescue; f { retry }; end", "Syntax { at: 19 }"),
            (
                "begin; rescue; for i in 1; retry; end; end",
                "Syntax { at: 27 }",
            ),
            (
                "begin; rescue; while 1; retry; end; end",
                "((begin () rescue ((while 1 ((retry))))))",
            ),
            ("1 rescue retry", "((rescue 1 (retry)))"),
            ("return", "((return))"),
            ("class A; return 1; end", "Syntax { at: 9 }"),
            (
                "module A; f { return 1 }; end",
                "((module A (~f{|;| ((return 1))})))",
            ),
            ("class << self; return; end", "Syntax { at: 15 }"),
            ("yield", "Syntax { at: 0 }"),
            ("f { super }", "Syntax { at: 4 }"),
            (
                "def f; g { yield 1 }; end",
                "((def  f {|;| (~g{|;| ((yield 1))})}))",
            ),
            ("def f; class << self; super; end; end", "Syntax { at: 22 }"),
            ("def f; class A; end; end", "Syntax { at: 0 }"),
            ("1; def f; module A; end; end", "Syntax { at: 3 }"),
            (
                "def f; class << self; end; end",
                "((def  f {|;| ((class << self ()))}))",
            ),
            ("def f; A = 1; end", "Syntax { at: 0 }"),
            ("def f; A::B ||= 1; end", "Syntax { at: 0 }"),
            ("def f; g { a, (b, *C) = 1 }; end", "Syntax { at: 0 }"),
            ("def f; for A in 1; end; end", "Syntax { at: 0 }"),
            ("def f; begin; rescue => A; end; end", "Syntax { at: 0 }"),
            ("class A; B = 1; end", "((class A ((= B 1))))"),
            ("def f(_a, _a); end", "((def  f {| _a _a;| ()}))"),
            ("def f(a, a); end", "Syntax { at: 0 }"),
            ("def f(a, b = 1, *a); end", "Syntax { at: 0 }"),
            ("def f(a, (b, (*a, c))); end", "Syntax { at: 0 }"),
            ("def f(a, &a); end", "Syntax { at: 0 }"),
            ("def f(_, a, _); end", "((def  f {| _ a _;| ()}))"),
            ("1; ->(x, *x) { }", "Syntax { at: 3 }"),
            ("f { |x, (y, x)| }", "Syntax { at: 2 }"),
            ("def f; g { |x, x| }; end", "Syntax { at: 9 }"),
            ("f do |x, x| end", "Syntax { at: 2 }"),
            ("x = 1; f { |x| x }", "((= x 1); ~f{| x;| (x)})"),
        ],
        Rules::All,
    )
}

/// Whole programs of the language; they have trees.
#[test]
fn programs(rt: HostRuntime) -> Result<(), Fail> {
    let sources = [
        "def c; n = 0; [lambda { n += 1 }, lambda { n }]; end\na = c\nb = c\na[0].call\na[0].call\np a[1].call, b[1].call\n",
        "x = 0; f = Fiber.new { 3.times { |i| x += 10; Fiber.yield i } }; x += 1; p f.resume; x += 1; p f.resume; p x",
        "def f; [1, 2].each { |v| begin; return v; ensure; puts \"e\"; end }; 3; end; puts f",
        "def m; Proc.new { return 1 }; end; b = m; begin; b.call; rescue LocalJumpError => e; puts e.message; end",
        "def hold(f, &b); $b = b; p f.resume; :held; end\nf = Fiber.new {\n  begin; $b.call; rescue LocalJumpError => e; puts e.message; end\n  Fiber.yield 5\n}\np hold(f) { break 1 }\n",
        "class Integer; def +(o); 42; end; end; puts 1 + 1",
        "$n = 0; def f; begin; f; ensure; $n += 1; end; end; begin; f; rescue SystemStackError => e; puts e.message; end; puts $n",
        "module Shout\n  def line(w, n)\n    \"#{w.upcase}: #{n}\"\n  end\nend\nclass Counter\n  include Shout\n  def initialize; @h = Hash.new(0); end\n  def add(text)\n    text.split.each { |w| @h[w] += 1 }\n  end\n  def each_line\n    @h.sort_by { |w, n| -n }.each { |w, n| yield line(w, n) }\n  end\nend\nc = Counter.new\nwhile s = gets\n  c.add s\nend\nc.each_line { |t| puts t }\n",
        "module M; end; class A; include M; end; class B < A; include M; end; p B.ancestors",
        "p [[1, 2], [3, 4]].map { |a, b| a + b }",
        "k = \"a\"; h = {k => 1}; k << \"b\"; p h, k",
        "n = 0; begin; n += 1; raise \"a\" if n < 3; p n; rescue; retry; end",
        "class G; def method_missing(n, a); p n, a; end; end; G.new.go 4; q",
        "E = Class.new(StandardError); module M; class C; end; end; p E, M::C, Class.new",
        "x = 0; while x < 3; begin; x += 1; next if x == 2; p x; ensure; puts \"e\"; end; end",
        "class A; private; def x; 1; end; public; def y; self.x; end; end; p A.new.y; A.new.x",
        "class L; include Enumerable; def each; yield 3; yield 1; yield 2; end; end; p L.new.sort, L.new.map { |x| x * 2 }, L.new.inject(:+)",
        "class V; include Comparable; attr_reader :n; def initialize(n); @n = n; end; def <=>(o); n <=> o.n; end; end; p V.new(1) < V.new(2), V.new(2).between?(V.new(1), V.new(3))",
        "e = Enumerator.new { |y| n = 0; loop { y << n; n += 1 } }; 3.times { p e.next }",
        "a = nil\na = lambda { |x| a }\na[0][0][0]\n",
        "def g; begin; raise \"a\"; ensure; return 7; end; end; p g",
        "x = [1, 2, 3].select do |v|\n  v > 1 && v != 2 || !v.nil?\nend\nputs x.inspect, x.size unless x.empty?\n",
        "case x = 3\nwhen 1..2, Integer then puts 'i'\nelse puts 'o' end\n",
        "h = Hash.new { |hash, key| hash[key] = [] }\nh[:a] << 1\nh.each_pair { |k, (v, w)| puts \"#{k}=#{v || w}\" }\n",
    ];
    for source in sources {
        let line = line_of(&rt, rt.alloc(), source.as_bytes(), Rules::All)?;
        let front = line.get(..1);
        assert_eq!(rt; front, Some(b"(".as_slice()), "{source}");
    }
    Ok(())
}
