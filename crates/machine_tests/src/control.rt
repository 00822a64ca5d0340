//! Programs with exits.
use crate::assembler::{Plan, plain, required, run};
use frame_machine::Ran;
use rite_code::{CatchEntry, Operation};
use std::alloc::AllocError;

#[test]
fn rescues(rt: HostRuntime) -> Result<(), AllocError> {
    let main_operations = [
        Operation::String { a: 2, b: 0 },
        Operation::SSend { a: 1, b: 0, c: 1 },
        Operation::Jmp { by: 24 },
        Operation::Except { a: 1 },
        Operation::OClass { a: 2, b: 1 },
        Operation::Rescue { a: 1, b: 2 },
        Operation::JmpNot { a: 2, by: 10 },
        Operation::String { a: 3, b: 1 },
        Operation::SSend { a: 2, b: 1, c: 1 },
        Operation::Jmp { by: 2 },
        Operation::RaiseIf { a: 1 },
        Operation::Stop,
    ];
    let main_symbols: [&[u8]; 2] = [b"raise", b"puts"];
    let main_texts: [&[u8]; 2] = [b"x", b"rescued"];
    let main_catches: [CatchEntry; 1] = [CatchEntry {
        rescue: true,
        begin: 0,
        end: 7,
        target: 10,
    }];
    let main = Plan {
        texts: &main_texts,
        catches: &main_catches,
        ..plain(1, 5, &main_operations, &main_symbols)
    };
    let seen = run(rt.alloc(), &[main], b"", 1000)?;
    assert!(rt; seen.out.as_slice() == b"rescued\n".as_slice());
    Ok(())
}

#[test]
fn ensures_before_a_return(rt: HostRuntime) -> Result<(), AllocError> {
    let main_operations = [
        Operation::TClass { a: 1 },
        Operation::Def { a: 1, b: 0, c: 0 },
        Operation::SSend { a: 2, b: 0, c: 0 },
        Operation::SSend { a: 1, b: 1, c: 1 },
        Operation::Stop,
    ];
    let main_symbols: [&[u8]; 2] = [b"m", b"puts"];
    let main_children: [u32; 1] = [1];
    let main = Plan {
        children: &main_children,
        ..plain(1, 4, &main_operations, &main_symbols)
    };
    // ENTER takes 4 bytes, LOADI 3, RETURN 2: the part that is ensured ends at 9, where the handler begins.
    let method_operations = [
        Operation::Enter {
            parameters: required(0),
        },
        Operation::LoadI { a: 2, b: 1 },
        Operation::Return { a: 2 },
        Operation::Except { a: 2 },
        Operation::String { a: 4, b: 0 },
        Operation::SSend { a: 3, b: 0, c: 1 },
        Operation::RaiseIf { a: 2 },
        Operation::LoadNil { a: 2 },
        Operation::Return { a: 2 },
    ];
    let method_symbols: [&[u8]; 1] = [b"puts"];
    let method_texts: [&[u8]; 1] = [b"ensured"];
    let method_catches: [CatchEntry; 1] = [CatchEntry {
        rescue: false,
        begin: 4,
        end: 9,
        target: 9,
    }];
    let method = Plan {
        texts: &method_texts,
        catches: &method_catches,
        ..plain(2, 6, &method_operations, &method_symbols)
    };
    let seen = run(rt.alloc(), &[main, method], b"", 1000)?;
    assert!(rt; seen.out.as_slice() == b"ensured\n1\n".as_slice());
    Ok(())
}

#[test]
fn returns_through_each(rt: HostRuntime) -> Result<(), AllocError> {
    let main_operations = [
        Operation::TClass { a: 1 },
        Operation::Def { a: 1, b: 0, c: 0 },
        Operation::SSend { a: 2, b: 0, c: 0 },
        Operation::SSend { a: 1, b: 1, c: 1 },
        Operation::Stop,
    ];
    let main_symbols: [&[u8]; 2] = [b"m", b"puts"];
    let main_children: [u32; 1] = [1];
    let main = Plan {
        children: &main_children,
        ..plain(1, 4, &main_operations, &main_symbols)
    };
    let method_operations = [
        Operation::Enter {
            parameters: required(0),
        },
        Operation::LoadI { a: 2, b: 5 },
        Operation::Array { a: 2, b: 1 },
        Operation::Block { a: 3, b: 0 },
        Operation::SendB { a: 2, b: 0, c: 0 },
        Operation::LoadI { a: 2, b: 8 },
        Operation::Return { a: 2 },
    ];
    let method_symbols: [&[u8]; 1] = [b"each"];
    let method_children: [u32; 1] = [2];
    let method = Plan {
        children: &method_children,
        ..plain(2, 5, &method_operations, &method_symbols)
    };
    let block_operations = [
        Operation::Enter {
            parameters: required(1),
        },
        Operation::ReturnBlk { a: 1 },
    ];
    let block = plain(3, 4, &block_operations, &[]);
    let seen = run(rt.alloc(), &[main, method, block], b"", 1000)?;
    assert!(rt; seen.out.as_slice() == b"5\n".as_slice());
    Ok(())
}

#[test]
fn breaks_out_of_loop(rt: HostRuntime) -> Result<(), AllocError> {
    let main_operations = [
        Operation::Block { a: 3, b: 0 },
        Operation::SSendB { a: 2, b: 0, c: 0 },
        Operation::SSend { a: 1, b: 1, c: 1 },
        Operation::Stop,
    ];
    let main_symbols: [&[u8]; 2] = [b"loop", b"puts"];
    let main_children: [u32; 1] = [1];
    let main = Plan {
        children: &main_children,
        ..plain(1, 5, &main_operations, &main_symbols)
    };
    let block_operations = [
        Operation::Enter {
            parameters: required(0),
        },
        Operation::LoadI { a: 2, b: 3 },
        Operation::Break { a: 2 },
    ];
    let block = plain(2, 4, &block_operations, &[]);
    let seen = run(rt.alloc(), &[main, block], b"", 1000)?;
    assert!(rt; seen.out.as_slice() == b"3\n".as_slice());
    Ok(())
}

#[test]
fn deep_calls_are_refused(rt: HostRuntime) -> Result<(), AllocError> {
    let main_operations = [
        Operation::TClass { a: 1 },
        Operation::Def { a: 1, b: 0, c: 0 },
        Operation::SSend { a: 2, b: 0, c: 0 },
        Operation::Stop,
    ];
    let main_symbols: [&[u8]; 1] = [b"m"];
    let main_children: [u32; 1] = [1];
    let main = Plan {
        children: &main_children,
        ..plain(1, 4, &main_operations, &main_symbols)
    };
    let method_operations = [
        Operation::Enter {
            parameters: required(0),
        },
        Operation::SSend { a: 2, b: 0, c: 0 },
        Operation::Return { a: 2 },
    ];
    let method_symbols: [&[u8]; 1] = [b"m"];
    let method = plain(2, 4, &method_operations, &method_symbols);
    let seen = run(rt.alloc(), &[main, method], b"", 1_000_000)?;
    let is_uncaught = matches!(seen.ran, Some(Ran::Uncaught(_)));
    assert!(rt; is_uncaught);
    // 10,000 frames of four registers.
    assert_eq!(rt; seen.peak, 625);
    Ok(())
}

#[test]
fn what_nothing_rescues_is_asked_for_its_message(rt: HostRuntime) -> Result<(), AllocError> {
    let main_operations = [
        Operation::GetConst { a: 1, b: 0 },
        Operation::Def { a: 1, b: 1, c: 0 },
        Operation::GetConst { a: 2, b: 0 },
        Operation::SSend { a: 1, b: 2, c: 1 },
        Operation::Stop,
    ];
    let main_symbols: [&[u8]; 3] = [b"StandardError", b"message", b"raise"];
    let main_children: [u32; 1] = [1];
    let main = Plan {
        children: &main_children,
        ..plain(1, 4, &main_operations, &main_symbols)
    };
    let method_operations = [
        Operation::Enter {
            parameters: required(0),
        },
        Operation::LoadI { a: 3, b: 7 },
        Operation::SSend { a: 2, b: 0, c: 1 },
        Operation::Return { a: 2 },
    ];
    let method_symbols: [&[u8]; 1] = [b"puts"];
    let method = plain(2, 5, &method_operations, &method_symbols);
    let seen = run(rt.alloc(), &[main, method], b"", 1000)?;
    let is_uncaught = matches!(seen.ran, Some(Ran::Uncaught(_)));
    assert!(rt; is_uncaught);
    assert!(rt; seen.out.as_slice() == b"7\n".as_slice());
    Ok(())
}
