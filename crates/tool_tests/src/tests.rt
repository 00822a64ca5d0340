//! The program over files and streams in memory.
use crate::trial::{Left, call, sink};
use rb_base::MemorySink;
use rite_tool::End;
use std::alloc::Global;
use std::process::Abort;
use std::test::Fail;

/// Executes the source, with at most so many turns where a number is given.
fn exec(alloc: Global, source: &[u8], steps: Option<&str>) -> Result<Left, Fail> {
    let out = sink(alloc, 1);
    let err = sink(alloc, 3);
    let none = Vec::new(alloc);
    match steps {
        Some(n) => {
            let words = ["exec", "--steps", n, "given", "one.mrb"];
            call(alloc, &words, source, none, out, err)
        }
        None => call(alloc, &["exec", "given", "one.mrb"], source, none, out, err),
    }
}

#[test]
fn runs_sources(rt: HostRuntime) -> Result<(), Fail> {
    let rows = [
        ("puts 1 + 2 * 3", "7\n"),
        ("a = 2\nputs (a + 3) * 4 - 1", "19\n"),
        ("puts 2147483647 * 2147483647 * 2", "9223372028264841218\n"),
        (
            "i = 0\nwhile i < 3\nputs i * i\ni = i + 1\nend",
            "0\n1\n4\n",
        ),
        ("if 1 < 2; puts 1 else puts 2 end", "1\n"),
        ("if 2 <= 1; puts 1 else puts 2 end", "2\n"),
        ("if 1 == 1\n  if 3 > 4\n    puts 5\n  end\nend", ""),
        ("puts 0 - 5 * (7 - 2 * 3)", "-5\n"),
        ("puts 1 # one", "1\n"),
        ("a = 010\nputs a", "8\n"),
        ("a = 1 +\n2\nputs a # three", "3\n"),
        ("a = 1 +\n2\nputs a\na\n-1", "3\n"),
        ("puts -1", "-1\n"),
        ("puts(1)", "1\n"),
        ("puts 1 if 2 > 1", "1\n"),
        ("a = true; puts a", "true\n"),
        ("puts(a = 3); 4", "3\n"),
        ("nil", ""),
        ("puts 1_000", "1000\n"),
        ("", ""),
        (";;\n ; \n", ""),
    ];
    for (source, lines) in rows {
        let left = exec(rt.alloc(), source.as_bytes(), None)?;
        assert_eq!(rt; left.end, End::Ended(0), "{source}");
        assert_eq!(rt; left.out.bytes(), lines.as_bytes(), "{source}");
        assert_eq!(rt; left.err.bytes().len(), 0, "{source}");
        assert!(rt; left.files.get("one.mrb").is_some(), "{source}");
    }
    Ok(())
}

#[test]
fn stores_the_code(rt: HostRuntime) -> Result<(), Fail> {
    let left = exec(rt.alloc(), b"puts 1 + 2 * 3", None)?;
    let file = b"RITE0300\x00\x00\x00\x56RBWN0002\
        IREP\x00\x00\x00\x3a0300\
        \x00\x00\x00\x2e\x00\x01\x00\x05\x00\x00\x00\x00\x00\x00\x00\x12\
        \x03\x02\x01\x03\x03\x02\x03\x04\x03\x29\x03\x27\x02\x1c\x01\x00\x01\x48\
        \x00\x00\x00\x01\x00\x00\x00\x04puts\
        END\x00\x00\x00\x00\x08";
    assert!(rt; left.files.get("one.mrb") == Some(file.as_slice()));
    Ok(())
}

#[test]
fn ends_with_an_overflow(rt: HostRuntime) -> Result<(), Fail> {
    let left = exec(
        rt.alloc(),
        b"puts 1; puts 2147483647 * 2147483647 * 3",
        None,
    )?;
    assert_eq!(rt; left.end, End::Uncaught);
    assert_eq!(rt; left.end.status(), 1);
    assert_eq!(rt; left.out.bytes(), b"1\n".as_slice());
    assert_eq!(rt;
        left.err.bytes(),
        b"RangeError: integer overflow\n".as_slice()
    );
    Ok(())
}

#[test]
fn stops_after_its_turns(rt: HostRuntime) -> Result<(), Fail> {
    let source = b"while true; puts 1; end";
    let left = exec(rt.alloc(), source, Some("1000"))?;
    assert_eq!(rt; left.end, End::Spent);
    assert_eq!(rt; left.end.status(), 122);
    assert_eq!(rt; left.err.bytes(), b"spent: 1000 turns\n".as_slice());
    // A line takes five turns: the test, its jump, the number, puts and the jump back.
    assert_eq!(rt; left.out.bytes().len(), 400);
    for (i, byte) in left.out.bytes().iter().enumerate() {
        assert_eq!(rt; *byte, if i % 2 == 0 { b'1' } else { b'\n' });
    }
    let left = exec(rt.alloc(), source, Some("0"))?;
    assert_eq!(rt; left.end, End::Spent);
    assert_eq!(rt; left.out.bytes().len(), 0);
    assert_eq!(rt; left.err.bytes(), b"spent: 0 turns\n".as_slice());
    Ok(())
}

/// Each text is refused with a line that begins so, and no file is made.
fn all_refused(rt: &impl Abort, alloc: Global, rows: &[(&str, &str)]) -> Result<(), Fail> {
    for (text, line) in rows {
        let left = exec(alloc, text.as_bytes(), None)?;
        assert!(rt; matches!(left.end, End::Refused(_)), "{text}");
        assert_eq!(rt; left.end.status(), 121, "{text}");
        assert!(rt; left.err.bytes().starts_with(line.as_bytes()), "{text}");
        assert_eq!(rt; left.out.bytes().len(), 0, "{text}");
        assert!(rt; left.files.get("one.mrb").is_none(), "{text}");
    }
    Ok(())
}

#[test]
fn refuses_texts_that_are_no_program(rt: HostRuntime) -> Result<(), Fail> {
    all_refused(
        &rt,
        rt.alloc(),
        &[
            ("puts (1", "refused: Syntax at 7\n"),
            ("puts 1x", "refused: Syntax at "),
            ("a = 09", "refused: Syntax at "),
            ("if 1 < 2; end puts 1", "refused: Syntax at 14\n"),
            ("if = 3", "refused: Syntax at 3\n"),
            ("while true; puts 1", "refused: Syntax at 18\n"),
            ("puts 1 +", "refused: Syntax at 8\n"),
            ("break", "refused: Syntax at 0\n"),
        ],
    )
}

#[test]
fn refuses_constructs_outside_the_language(rt: HostRuntime) -> Result<(), Fail> {
    all_refused(
        &rt,
        rt.alloc(),
        &[
            ("x = 1; x&.y", "refused: Outside SafeNavigation at 8\n"),
            (
                "p 9223372036854775808",
                "refused: Outside WideInteger at 2\n",
            ),
            ("/a/; 1.5", "refused: Outside Regexp at 0\n"),
            ("puts 1.5; /a/", "refused: Outside Float at 5\n"),
        ],
    )
}

#[test]
fn refuses_what_is_not_built(rt: HostRuntime) -> Result<(), Fail> {
    let unbuilt = "refused: Outside Unbuilt at 0\n";
    all_refused(
        &rt,
        rt.alloc(),
        &[
            ("puts b", unbuilt),
            ("puts1", unbuilt),
            ("a = 2147483648", unbuilt),
            ("if true; b = 1; end; puts b", unbuilt),
            ("puts \"one\"", unbuilt),
            ("puts 1, 2", unbuilt),
            ("puts(*1)", unbuilt),
            ("1.foo(2)", unbuilt),
            ("begin; puts 1; end while false", unbuilt),
            ("def f; end", unbuilt),
        ],
    )
}

/// `puts` of 1 in so many parentheses.
fn nested(alloc: Global, levels: usize) -> Result<Vec<u8>, Fail> {
    let mut source = Vec::new(alloc);
    source.extend_from_slice(b"puts ")?;
    for _ in 0..levels {
        source.push(b'(')?;
    }
    source.push(b'1')?;
    for _ in 0..levels {
        source.push(b')')?;
    }
    Ok(source)
}

#[test]
fn refuses_deep_texts(rt: HostRuntime) -> Result<(), Fail> {
    let alloc = rt.alloc();
    let left = exec(alloc, &nested(alloc, 50)?, None)?;
    assert_eq!(rt; left.out.bytes(), b"1\n".as_slice());
    let left = exec(alloc, &nested(alloc, 256)?, None)?;
    assert_eq!(rt; left.out.bytes(), b"1\n".as_slice());
    let left = exec(alloc, &nested(alloc, 257)?, None)?;
    assert_eq!(rt; left.err.bytes(), b"refused: TooDeep\n".as_slice());
    assert_eq!(rt; left.end.status(), 121);
    assert!(rt; left.files.get("one.mrb").is_none());
    Ok(())
}

/// The three lines `a = nil`, a lambda, and `a` with so many indexes.
fn indexes(alloc: Global, levels: usize) -> Result<Vec<u8>, Fail> {
    let mut source = Vec::new(alloc);
    source.extend_from_slice(b"a = nil\na = lambda { |x| a }\na")?;
    for _ in 0..levels {
        source.extend_from_slice(b"[0]")?;
    }
    Ok(source)
}

/// So many names, each with the next as its argument, and 1.
fn names(alloc: Global, count: usize) -> Result<Vec<u8>, Fail> {
    let mut source = Vec::new(alloc);
    source.push(b'x')?;
    for _ in 1..count {
        source.extend_from_slice(b" x")?;
    }
    source.extend_from_slice(b" 1")?;
    Ok(source)
}

#[test]
fn counts_indexes_and_arguments_as_levels(rt: HostRuntime) -> Result<(), Fail> {
    let alloc = rt.alloc();
    let unbuilt = b"refused: Outside Unbuilt at 0\n".as_slice();
    let deep = b"refused: TooDeep\n".as_slice();
    let left = exec(alloc, &indexes(alloc, 255)?, None)?;
    assert_eq!(rt; left.err.bytes(), unbuilt);
    let left = exec(alloc, &indexes(alloc, 256)?, None)?;
    assert_eq!(rt; left.err.bytes(), deep);
    let left = exec(alloc, &names(alloc, 257)?, None)?;
    assert_eq!(rt; left.err.bytes(), unbuilt);
    let left = exec(alloc, &names(alloc, 258)?, None)?;
    assert_eq!(rt; left.err.bytes(), deep);
    Ok(())
}

#[test]
fn refuses_large_texts(rt: HostRuntime) -> Result<(), Fail> {
    let alloc = rt.alloc();
    let mut source = Vec::new(alloc);
    for _ in 0..16_777_217u32 {
        source.push(b' ')?;
    }
    let left = exec(alloc, &source, None)?;
    let line = b"refused: TooLarge Source 16777217\n";
    assert_eq!(rt; left.err.bytes(), line.as_slice());
    assert_eq!(rt; left.end.status(), 121);
    Ok(())
}

#[test]
fn tells_faults_of_files(rt: HostRuntime) -> Result<(), Fail> {
    let alloc = rt.alloc();
    let words = ["exec", "other", "one.mrb"];
    let none = Vec::new(alloc);
    let missing = call(
        alloc,
        &words,
        b"puts 1",
        none,
        sink(alloc, 1),
        sink(alloc, 3),
    )?;
    assert_eq!(rt; missing.end, End::FileFault);
    assert_eq!(rt; missing.end.status(), 126);
    assert_eq!(rt; missing.err.bytes(), b"file fault\n".as_slice());
    let words = ["exec", "given", "one.mrb"];
    let second = vec![in alloc; 2u64]?;
    let unstored = call(
        alloc,
        &words,
        b"puts 1",
        second,
        sink(alloc, 1),
        sink(alloc, 3),
    )?;
    assert_eq!(rt; unstored.end, End::FileFault);
    assert_eq!(rt; unstored.out.bytes().len(), 0);
    Ok(())
}

#[test]
fn tells_faults_of_streams(rt: HostRuntime) -> Result<(), Fail> {
    let alloc = rt.alloc();
    let words = ["exec", "given", "one.mrb"];
    let sixth = MemorySink::new(alloc, 1, vec![in alloc; 6u64]?);
    let none = Vec::new(alloc);
    let cut = call(
        alloc,
        &words,
        b"puts 123456789",
        none,
        sixth,
        sink(alloc, 3),
    )?;
    assert_eq!(rt; cut.end, End::OutputFault);
    assert_eq!(rt; cut.end.status(), 125);
    assert_eq!(rt; cut.out.bytes(), b"12345".as_slice());
    assert_eq!(rt; cut.err.bytes().len(), 0);
    let third = MemorySink::new(alloc, 3, vec![in alloc; 3u64]?);
    let none = Vec::new(alloc);
    let words = ["exec", "other", "one.mrb"];
    let cut = call(alloc, &words, b"puts 1", none, sink(alloc, 1), third)?;
    assert_eq!(rt; cut.end, End::OutputFault);
    assert_eq!(rt; cut.err.bytes(), b"file f".as_slice());
    Ok(())
}

/// These words are no command.
fn is_usage(rt: &impl Abort, alloc: Global, words: &[&str]) -> Result<(), Fail> {
    let none = Vec::new(alloc);
    let left = call(
        alloc,
        words,
        b"puts 1",
        none,
        sink(alloc, 1),
        sink(alloc, 3),
    )?;
    assert_eq!(rt; left.end, End::Usage);
    assert_eq!(rt; left.end.status(), 120);
    let usage =
        b"usage: rite build SRC OUT; run [--steps N] [--stats] FILE; exec [--steps N] SRC OUT; list FILE; info FILE; sample K\n";
    assert_eq!(rt; left.err.bytes(), usage.as_slice());
    Ok(())
}

#[test]
fn refuses_words_that_are_no_command(rt: HostRuntime) -> Result<(), Fail> {
    is_usage(&rt, rt.alloc(), &[])?;
    is_usage(&rt, rt.alloc(), &["exec", "a"])?;
    is_usage(&rt, rt.alloc(), &["exec", "--steps", "007", "a", "b"])?;
    is_usage(
        &rt,
        rt.alloc(),
        &["exec", "--steps", "18446744073709551616", "a", "b"],
    )?;
    is_usage(&rt, rt.alloc(), &["exec", "--stats", "b"])?;
    is_usage(&rt, rt.alloc(), &["build", "a"])?;
    is_usage(&rt, rt.alloc(), &["sample", "0"])?;
    is_usage(&rt, rt.alloc(), &["sample", "201"])?;
    Ok(())
}
