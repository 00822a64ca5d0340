//! Programs with methods and blocks.
use crate::assembler::{Plan, Seen, plain, required, run};
use frame_machine::Ran;
use rite_code::{Operation, Parameters};
use std::alloc::{AllocError, Global};

#[test]
fn fib(rt: HostRuntime) -> Result<(), AllocError> {
    let main_operations = [
        Operation::TClass { a: 1 },
        Operation::Def { a: 1, b: 0, c: 0 },
        Operation::LoadI { a: 3, b: 10 },
        Operation::SSend { a: 2, b: 0, c: 1 },
        Operation::SSend { a: 1, b: 1, c: 1 },
        Operation::Stop,
    ];
    let main_symbols: [&[u8]; 2] = [b"fib", b"puts"];
    let main_children: [u32; 1] = [1];
    let main = Plan {
        children: &main_children,
        ..plain(1, 5, &main_operations, &main_symbols)
    };
    let method_operations = [
        Operation::Enter {
            parameters: required(1),
        },
        Operation::Move { a: 3, b: 1 },
        Operation::LoadI { a: 4, b: 2 },
        Operation::Lt { a: 3 },
        Operation::JmpNot { a: 3, by: 5 },
        Operation::Move { a: 3, b: 1 },
        Operation::Return { a: 3 },
        Operation::Move { a: 4, b: 1 },
        Operation::LoadI { a: 5, b: 1 },
        Operation::Sub { a: 4 },
        Operation::SSend { a: 3, b: 0, c: 1 },
        Operation::Move { a: 5, b: 1 },
        Operation::LoadI { a: 6, b: 2 },
        Operation::Sub { a: 5 },
        Operation::SSend { a: 4, b: 0, c: 1 },
        Operation::Add { a: 3 },
        Operation::Return { a: 3 },
    ];
    let method_symbols: [&[u8]; 1] = [b"fib"];
    let method = plain(3, 8, &method_operations, &method_symbols);
    let seen = run(rt.alloc(), &[main, method], b"", 100_000)?;
    assert!(rt; seen.out.as_slice() == b"55\n".as_slice());
    assert!(rt; seen.ran == Some(Ran::Ended(0)));
    Ok(())
}

/// What a method writes that prints its parameter and jumps back to its ENTER, and what the run comes to.
fn jumping_back(alloc: Global, parameters: Parameters) -> Result<Seen, AllocError> {
    let main_operations = [
        Operation::TClass { a: 1 },
        Operation::Def { a: 1, b: 0, c: 0 },
        Operation::LoadI { a: 3, b: 7 },
        Operation::SSend { a: 2, b: 0, c: 1 },
        Operation::Stop,
    ];
    let main_symbols: [&[u8]; 1] = [b"m"];
    let main_children: [u32; 1] = [1];
    let main = Plan {
        children: &main_children,
        ..plain(1, 5, &main_operations, &main_symbols)
    };
    let method_operations = [
        Operation::Enter { parameters },
        Operation::Move { a: 4, b: 1 },
        Operation::SSend { a: 3, b: 0, c: 1 },
        Operation::Jmp { by: -14 },
    ];
    let method_symbols: [&[u8]; 1] = [b"p"];
    let method = plain(3, 6, &method_operations, &method_symbols);
    run(alloc, &[main, method], b"", 50)
}

#[test]
fn arguments_are_taken_once(rt: HostRuntime) -> Result<(), AllocError> {
    let required_one = jumping_back(rt.alloc(), required(1))?;
    let is_uncaught = matches!(required_one.ran, Some(Ran::Uncaught(_)));
    assert!(rt; is_uncaught);
    assert!(rt; required_one.out.as_slice() == b"7\n".as_slice());
    let all_others = Parameters {
        rest: true,
        ..required(0)
    };
    let others = jumping_back(rt.alloc(), all_others)?;
    assert!(rt; others.ran == Some(Ran::Spent));
    assert!(rt; others.out.as_slice().starts_with(b"[7]\n[]\n[]\n"));
    Ok(())
}

#[test]
fn each_adds_up(rt: HostRuntime) -> Result<(), AllocError> {
    let main_operations = [
        Operation::LoadI { a: 1, b: 0 },
        Operation::LoadI { a: 2, b: 1 },
        Operation::LoadI { a: 3, b: 2 },
        Operation::LoadI { a: 4, b: 3 },
        Operation::Array { a: 2, b: 3 },
        Operation::Block { a: 3, b: 0 },
        Operation::SendB { a: 2, b: 0, c: 0 },
        Operation::Move { a: 3, b: 1 },
        Operation::SSend { a: 2, b: 1, c: 1 },
        Operation::Stop,
    ];
    let main_symbols: [&[u8]; 2] = [b"each", b"puts"];
    let main_children: [u32; 1] = [1];
    let main = Plan {
        children: &main_children,
        ..plain(2, 7, &main_operations, &main_symbols)
    };
    let block_operations = [
        Operation::Enter {
            parameters: required(1),
        },
        Operation::GetUpVar { a: 3, b: 1, c: 0 },
        Operation::Move { a: 4, b: 1 },
        Operation::Add { a: 3 },
        Operation::SetUpVar { a: 3, b: 1, c: 0 },
        Operation::Return { a: 3 },
    ];
    let block = plain(3, 6, &block_operations, &[]);
    let seen = run(rt.alloc(), &[main, block], b"", 1000)?;
    assert!(rt; seen.out.as_slice() == b"6\n".as_slice());
    Ok(())
}

#[test]
fn missing_methods_are_told(rt: HostRuntime) -> Result<(), AllocError> {
    let main_operations = [
        Operation::TClass { a: 1 },
        Operation::Def { a: 1, b: 0, c: 0 },
        Operation::LoadI { a: 2, b: 7 },
        Operation::SSend { a: 1, b: 1, c: 1 },
        Operation::Stop,
    ];
    let main_symbols: [&[u8]; 2] = [b"method_missing", b"foo"];
    let main_children: [u32; 1] = [1];
    let main = Plan {
        children: &main_children,
        ..plain(1, 4, &main_operations, &main_symbols)
    };
    let method_operations = [
        Operation::Enter {
            parameters: required(2),
        },
        Operation::Move { a: 5, b: 1 },
        Operation::Move { a: 6, b: 2 },
        Operation::SSend { a: 4, b: 0, c: 2 },
        Operation::Return { a: 4 },
    ];
    let method_symbols: [&[u8]; 1] = [b"puts"];
    let method = plain(4, 8, &method_operations, &method_symbols);
    let seen = run(rt.alloc(), &[main, method], b"", 1000)?;
    assert!(rt; seen.out.as_slice() == b"foo\n7\n".as_slice());
    Ok(())
}

#[test]
fn fibers_take_turns(rt: HostRuntime) -> Result<(), AllocError> {
    let main_operations = [
        Operation::GetConst { a: 1, b: 0 },
        Operation::Block { a: 2, b: 0 },
        Operation::SendB { a: 1, b: 1, c: 0 },
        Operation::Move { a: 3, b: 1 },
        Operation::Send { a: 3, b: 2, c: 0 },
        Operation::SSend { a: 2, b: 3, c: 1 },
        Operation::Move { a: 3, b: 1 },
        Operation::Send { a: 3, b: 2, c: 0 },
        Operation::SSend { a: 2, b: 3, c: 1 },
        Operation::Stop,
    ];
    let main_symbols: [&[u8]; 4] = [b"Fiber", b"new", b"resume", b"puts"];
    let main_children: [u32; 1] = [1];
    let main = Plan {
        children: &main_children,
        ..plain(2, 5, &main_operations, &main_symbols)
    };
    let block_operations = [
        Operation::Enter {
            parameters: required(0),
        },
        Operation::GetConst { a: 2, b: 0 },
        Operation::LoadI { a: 3, b: 1 },
        Operation::Send { a: 2, b: 1, c: 1 },
        Operation::LoadI { a: 2, b: 2 },
        Operation::Return { a: 2 },
    ];
    let block_symbols: [&[u8]; 2] = [b"Fiber", b"yield"];
    let block = plain(2, 5, &block_operations, &block_symbols);
    let seen = run(rt.alloc(), &[main, block], b"", 1000)?;
    assert!(rt; seen.out.as_slice() == b"1\n2\n".as_slice());
    // One block of the main program, and one of the fiber.
    assert_eq!(rt; seen.peak, 2);
    Ok(())
}
