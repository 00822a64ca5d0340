//! Listings of forms without bodies within.
use crate::listed::{all_listed, ends_with};
use std::test::Fail;

#[test]
fn literals(rt: HostRuntime) -> Result<(), Fail> {
    all_listed(
        &rt,
        rt.alloc(),
        &[(
            "[1, 300, 70000, -5, 3000000000, 'a', :b, nil, true, self]",
            "irep 0 locals 1 registers 8 children 0
00000 ARRAY 1 0
00003 LOADI 2 1
00006 ARYPUSH 1 1
00009 LOADI16 2 300
00013 ARYPUSH 1 1
00016 LOADI32 2 70000
00022 ARYPUSH 1 1
00025 LOADI16 2 -5
00029 ARYPUSH 1 1
00032 LOADL 2 0
00035 ARYPUSH 1 1
00038 STRING 2 1
00041 ARYPUSH 1 1
00044 LOADSYM 2 0
00047 ARYPUSH 1 1
00050 LOADNIL 2
00052 ARYPUSH 1 1
00055 LOADT 2
00057 ARYPUSH 1 1
00060 LOADSELF 2
00062 ARYPUSH 1 1
00065 STOP
pool 0 int 3000000000
pool 1 str \"a\"
sym 0 \"b\"
",
        )],
    )
}

#[test]
fn texts_and_hashes(rt: HostRuntime) -> Result<(), Fail> {
    all_listed(
        &rt,
        rt.alloc(),
        &[
            (
                "\"a#{1..2}\"",
                "irep 0 locals 1 registers 10 children 0
00000 STRING 1 0
00003 STRING 2 1
00006 STRCAT 1
00008 LOADI 2 1
00011 LOADI 3 2
00014 RANGE_INC 2
00016 SEND 2 0 0
00020 STRCAT 1
00022 STOP
pool 0 str \"\"
pool 1 str \"a\"
sym 0 \"to_s\"
",
            ),
            (
                "x = {1 => 2}",
                "irep 0 locals 2 registers 9 children 0
00000 HASH 2 0
00003 LOADI 3 1
00006 LOADI 4 2
00009 HASHADD 2 1
00012 MOVE 1 2
00015 STOP
",
            ),
        ],
    )
}

#[test]
fn conditions(rt: HostRuntime) -> Result<(), Fail> {
    all_listed(
        &rt,
        rt.alloc(),
        &[(
            "a = 1
if a == 2
  b = 3
elsif a < 4
  b = nil
else
  b = a
end",
            "irep 0 locals 3 registers 12 children 0
00000 LOADI 3 1
00003 MOVE 1 3
00006 MOVE 3 1
00009 LOADI 4 2
00012 EQ 3
00014 JMPNOT 3 27
00018 LOADI 3 3
00021 MOVE 2 3
00024 JMP 53
00027 MOVE 3 1
00030 LOADI 4 4
00033 LT 3
00035 JMPNOT 3 47
00039 LOADNIL 3
00041 MOVE 2 3
00044 JMP 53
00047 MOVE 3 1
00050 MOVE 2 3
00053 STOP
sym 0 \"==\"
sym 1 \"<\"
",
        )],
    )
}

#[test]
fn loops(rt: HostRuntime) -> Result<(), Fail> {
    all_listed(
        &rt,
        rt.alloc(),
        &[
            (
                "i = 0
while i < 3
  i += 1
  next if i == 2
  break i if i == 5
end",
                "irep 0 locals 2 registers 15 children 0
00000 LOADI 2 0
00003 MOVE 1 2
00006 JMP 12
00009 JMP 88
00012 MOVE 2 1
00015 LOADI 3 3
00018 LT 2
00020 JMPNOT 2 86
00024 MOVE 2 1
00027 LOADI 3 1
00030 ADD 2
00032 MOVE 1 2
00035 MOVE 2 1
00038 LOADI 3 2
00041 EQ 2
00043 JMPNOT 2 55
00047 LOADNIL 2
00049 JMPUW 12
00052 JMP 57
00055 LOADNIL 2
00057 MOVE 2 1
00060 LOADI 3 5
00063 EQ 2
00065 JMPNOT 2 81
00069 MOVE 2 1
00072 MOVE 2 2
00075 JMPUW 9
00078 JMP 83
00081 LOADNIL 2
00083 JMP 12
00086 LOADNIL 2
00088 STOP
sym 0 \"<\"
sym 1 \"+\"
sym 2 \"==\"
",
            ),
            (
                "begin
  f
end while g",
                "irep 0 locals 1 registers 7 children 0
00000 JMP 9
00003 JMP 23
00006 JMP 13
00009 SSEND 1 1 254
00013 SSEND 1 0 254
00017 JMPIF 1 9
00021 LOADNIL 1
00023 STOP
sym 0 \"g\"
sym 1 \"f\"
",
            ),
        ],
    )
}

#[test]
fn handlers(rt: HostRuntime) -> Result<(), Fail> {
    all_listed(
        &rt,
        rt.alloc(),
        &[(
            "begin
  a
rescue E, F => e
  retry
rescue
  1
else
  2
ensure
  b
end",
            "irep 0 locals 2 registers 8 children 0
00000 SSEND 2 0 254
00004 LOADI 2 2
00007 JMP 62
00010 EXCEPT 3
00012 GETCONST 4 1
00015 RESCUE 3 4
00018 JMPIF 4 28
00022 GETCONST 4 2
00025 RESCUE 3 4
00028 JMPNOT 4 44
00032 MOVE 4 3
00035 MOVE 1 4
00038 JMPUW 0
00041 JMP 62
00044 OCLASS 4 1
00047 RESCUE 3 4
00050 JMPNOT 4 60
00054 LOADI 2 1
00057 JMP 62
00060 RAISEIF 3
00062 EXCEPT 3
00064 SSEND 4 3 254
00068 RAISEIF 3
00070 STOP
catch ensure 0 62 62
catch rescue 0 4 10
sym 0 \"a\"
sym 1 \"E\"
sym 2 \"F\"
sym 3 \"b\"
",
        )],
    )
}

#[test]
fn breaks_through_an_ensure_part(rt: HostRuntime) -> Result<(), Fail> {
    all_listed(
        &rt,
        rt.alloc(),
        &[(
            "while a
  begin
    break 1
  ensure
    b
  end
end",
            "irep 0 locals 1 registers 9 children 0
00000 JMP 6
00003 JMP 36
00006 SSEND 1 0 254
00010 JMPNOT 1 34
00014 LOADI 1 1
00017 MOVE 1 1
00020 JMPUW 3
00023 EXCEPT 2
00025 SSEND 3 1 254
00029 RAISEIF 2
00031 JMP 6
00034 LOADNIL 1
00036 STOP
catch ensure 14 23 23
sym 0 \"a\"
sym 1 \"b\"
",
        )],
    )
}

#[test]
fn splats(rt: HostRuntime) -> Result<(), Fail> {
    all_listed(
        &rt,
        rt.alloc(),
        &[
            (
                "f(1, *a, 2)",
                "irep 0 locals 1 registers 9 children 0
00000 ARRAY 2 0
00003 LOADI 3 1
00006 ARYPUSH 2 1
00009 SSEND 3 1 254
00013 ARYCAT 2
00015 LOADI 3 2
00018 ARYPUSH 2 1
00021 SSEND 1 0 255
00025 STOP
sym 0 \"f\"
sym 1 \"a\"
",
            ),
            (
                "a, *b, c = x",
                "irep 0 locals 4 registers 12 children 0
00000 SSEND 6 0 254
00004 MOVE 4 6
00007 MOVE 6 4
00010 AREF 6 6 0
00014 MOVE 1 6
00017 MOVE 6 4
00020 APOST 6 1 1
00024 MOVE 2 6
00027 MOVE 6 4
00030 APOST 6 1 -1
00034 MOVE 5 6
00037 MOVE 6 5
00040 AREF 6 6 0
00044 MOVE 3 6
00047 MOVE 6 4
00050 STOP
sym 0 \"x\"
",
            ),
        ],
    )
}

#[test]
fn questions(rt: HostRuntime) -> Result<(), Fail> {
    all_listed(
        &rt,
        rt.alloc(),
        &[(
            "[defined?(@a), defined?(x), defined?(1), defined?(A::B)]",
            "irep 0 locals 1 registers 11 children 0
00000 ARRAY 1 0
00003 DEFINED 2 0 0
00007 ARYPUSH 1 1
00010 DEFINED 2 4 1
00014 ARYPUSH 1 1
00017 STRING 2 0
00020 ARYPUSH 1 1
00023 GETCONST 2 3
00026 DEFINED 2 3 2
00030 JMP 52
00033 EXCEPT 3
00035 OCLASS 4 1
00038 RESCUE 3 4
00041 JMPNOT 4 50
00045 LOADNIL 2
00047 JMP 52
00050 RAISEIF 3
00052 ARYPUSH 1 1
00055 STOP
catch rescue 23 30 33
pool 0 str \"expression\"
sym 0 \"@a\"
sym 1 \"x\"
sym 2 \"B\"
sym 3 \"A\"
",
        )],
    )
}

#[test]
fn many_arguments(rt: HostRuntime) -> Result<(), Fail> {
    let mut text = Vec::new(rt.alloc());
    text.extend_from_slice(b"f(")?;
    for _ in 0..299 {
        text.extend_from_slice(b"1, ")?;
    }
    text.extend_from_slice(b"1)")?;
    ends_with(
        &rt,
        rt.alloc(),
        &text,
        "01032 EXT LOADI 301 1
01038 EXT ARRAY 2 300
01044 SSEND 1 0 255
01048 STOP
sym 0 \"f\"
",
    )
}

#[test]
fn jumps_on_late_registers(rt: HostRuntime) -> Result<(), Fail> {
    let mut text = Vec::new(rt.alloc());
    text.extend_from_slice(b"f(")?;
    for _ in 0..254 {
        text.extend_from_slice(b"1, ")?;
    }
    text.extend_from_slice(b"(a ? 1 : 2))")?;
    ends_with(
        &rt,
        rt.alloc(),
        &text,
        "00762 EXT SSEND 256 1 254
00770 EXT JMPNOT 256 790
00778 EXT LOADI 256 1
00784 EXT JMP 796
00790 EXT LOADI 256 2
00796 ARRAY 2 255
00799 SSEND 1 0 255
00803 STOP
sym 0 \"f\"
sym 1 \"a\"
",
    )
}

#[test]
fn wide_jumps(rt: HostRuntime) -> Result<(), Fail> {
    let mut text = Vec::new(rt.alloc());
    text.extend_from_slice(b"if a\n")?;
    for _ in 0..2200 {
        text.extend_from_slice(b"b\n")?;
    }
    text.extend_from_slice(b"end")?;
    ends_with(
        &rt,
        rt.alloc(),
        &text,
        "08808 SSEND 1 1 254
08812 EXT JMP 8820
08818 LOADNIL 1
08820 STOP
sym 0 \"a\"
sym 1 \"b\"
",
    )
}
