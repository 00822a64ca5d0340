//! Listings of bodies within.
use crate::listed::all_listed;
use std::test::Fail;

#[test]
fn captured_variables(rt: HostRuntime) -> Result<(), Fail> {
    all_listed(
        &rt,
        rt.alloc(),
        &[(
            "x = 1
[2].each { |y| x += y }",
            "irep 0 locals 2 registers 11 children 1
00000 LOADI 2 1
00003 MOVE 1 2
00006 ARRAY 2 0
00009 LOADI 3 2
00012 ARYPUSH 2 1
00015 BLOCK 3 0
00018 SENDB 2 0 0
00022 STOP
sym 0 \"each\"
irep 1 locals 3 registers 8 children 0
00000 ENTER 131072
00004 GETUPVAR 3 1 0
00008 MOVE 4 1
00011 ADD 3
00013 SETUPVAR 3 1 0
00017 RETURN 3
sym 0 \"+\"
",
        )],
    )
}

#[test]
fn defaults(rt: HostRuntime) -> Result<(), Fail> {
    all_listed(
        &rt,
        rt.alloc(),
        &[(
            "def f(a, b = a, c = 3, *d, e, &g)
  b
end",
            "irep 0 locals 1 registers 5 children 1
00000 TCLASS 1
00002 DEF 1 0 0
00006 STOP
sym 0 \"f\"
irep 1 locals 7 registers 13 children 0
00000 ENTER 133638
00004 JMP 13
00007 JMP 19
00010 JMP 25
00013 MOVE 7 1
00016 MOVE 2 7
00019 LOADI 7 3
00022 MOVE 3 7
00025 MOVE 7 2
00028 RETURN 7
",
        )],
    )
}

#[test]
fn exits(rt: HostRuntime) -> Result<(), Fail> {
    all_listed(
        &rt,
        rt.alloc(),
        &[(
            "def f
  yield 1
  g do |x|
    next if x
    break 2 unless x
    return 3
  end
end",
            "irep 0 locals 1 registers 5 children 1
00000 TCLASS 1
00002 DEF 1 0 0
00006 STOP
sym 0 \"f\"
irep 1 locals 2 registers 9 children 1
00000 ENTER 0
00004 BLKPUSH 2
00006 LOADI 3 1
00009 CALL 2 1
00012 BLOCK 3 0
00015 SSENDB 2 0 0
00019 RETURN 2
sym 0 \"g\"
irep 2 locals 3 registers 11 children 0
00000 ENTER 131072
00004 MOVE 3 1
00007 JMPNOT 3 18
00011 LOADNIL 3
00013 RETURN 3
00015 JMP 20
00018 LOADNIL 3
00020 MOVE 3 1
00023 JMPNOT 3 32
00027 LOADNIL 3
00029 JMP 37
00032 LOADI 3 2
00035 BREAK 3
00037 LOADI 3 3
00040 RETURN_BLK 3
00042 RETURN 3
",
        )],
    )
}

#[test]
fn classes(rt: HostRuntime) -> Result<(), Fail> {
    all_listed(
        &rt,
        rt.alloc(),
        &[(
            "class A < B
  def f(x)
    super
  end
  def g
    super() { 1 }
  end
end",
            "irep 0 locals 1 registers 6 children 1
00000 TCLASS 1
00002 GETCONST 2 1
00005 CLASS 1 0
00008 EXEC 1 0
00011 STOP
sym 0 \"A\"
sym 1 \"B\"
irep 1 locals 1 registers 7 children 2
00000 TCLASS 1
00002 DEF 1 0 0
00006 TCLASS 1
00008 DEF 1 1 1
00012 RETURN 1
sym 0 \"f\"
sym 1 \"g\"
irep 2 locals 3 registers 8 children 0
00000 ENTER 131072
00004 MOVE 4 1
00007 DEFINED 5 6 0
00011 JMPNOT 5 17
00015 BLKPUSH 5
00017 SUPER 3 1
00020 RETURN 3
irep 3 locals 2 registers 7 children 1
00000 ENTER 0
00004 BLOCK 3 0
00007 SUPER 2 0
00010 RETURN 2
irep 4 locals 2 registers 5 children 0
00000 ENTER 0
00004 LOADI 2 1
00007 RETURN 2
",
        )],
    )
}
