//! Programs of one body.
use crate::assembler::{plain, run};
use frame_machine::Ran;
use rite_code::Operation;
use std::alloc::AllocError;

/// A loop of 100 rounds, of nine turns each, between a turn and the last test of four; then `puts`.
const LOOP: [Operation; 13] = [
    Operation::LoadI { a: 1, b: 0 },
    Operation::Move { a: 2, b: 1 },
    Operation::LoadI { a: 3, b: 100 },
    Operation::Lt { a: 2 },
    Operation::JmpNot { a: 2, by: 14 },
    Operation::Move { a: 2, b: 1 },
    Operation::LoadI { a: 3, b: 1 },
    Operation::Add { a: 2 },
    Operation::Move { a: 1, b: 2 },
    Operation::Jmp { by: -26 },
    Operation::Move { a: 3, b: 1 },
    Operation::SSend { a: 2, b: 0, c: 1 },
    Operation::Stop,
];

#[test]
fn loops(rt: HostRuntime) -> Result<(), AllocError> {
    let main_symbols: [&[u8]; 1] = [b"puts"];
    let main = plain(2, 5, &LOOP, &main_symbols);
    let seen = run(rt.alloc(), &[main], b"", 10_000)?;
    assert!(rt; seen.out.as_slice() == b"100\n".as_slice());
    Ok(())
}

#[test]
fn spends_what_is_given(rt: HostRuntime) -> Result<(), AllocError> {
    let main_symbols: [&[u8]; 1] = [b"puts"];
    let main = plain(2, 5, &LOOP, &main_symbols);
    let budgets: [u64; 12] = [0, 1, 2, 3, 4, 5, 6, 7, 8, 9, 904, 905];
    for budget in budgets {
        let seen = run(rt.alloc(), &[main], b"", budget)?;
        let is_spent = matches!(seen.ran, Some(Ran::Spent));
        assert!(rt; is_spent);
        assert!(rt; seen.out.is_empty());
    }
    Ok(())
}

/// Asks nil for a method with nil as the argument.
const ASKING: [Operation; 5] = [
    Operation::LoadNil { a: 3 },
    Operation::LoadNil { a: 4 },
    Operation::Send { a: 3, b: 0, c: 1 },
    Operation::SSend { a: 2, b: 1, c: 1 },
    Operation::Stop,
];

/// The same without an output.
const ASKING_ALONE: [Operation; 4] = [
    Operation::LoadNil { a: 3 },
    Operation::LoadNil { a: 4 },
    Operation::Send { a: 3, b: 0, c: 1 },
    Operation::Stop,
];

/// An iteration that asks for the `==` of every object takes a turn to ask and one to end.
#[test]
fn asks_for_identity_in_two_turns(rt: HostRuntime) -> Result<(), AllocError> {
    let names: [&[u8]; 2] = [b"===", b"!="];
    let told: [&[u8]; 2] = [b"true\n", b"false\n"];
    for place in 0..2 {
        let main_symbols: [&[u8]; 2] = [names[place], b"puts"];
        let asking = plain(1, 7, &ASKING, &main_symbols);
        let seen = run(rt.alloc(), &[asking], b"", 100)?;
        assert!(rt; seen.out.as_slice() == told[place]);
        let alone = plain(1, 7, &ASKING_ALONE, &main_symbols);
        let spent = run(rt.alloc(), &[alone], b"", 5)?;
        assert!(rt; spent.ran == Some(Ran::Spent));
        let ended = run(rt.alloc(), &[alone], b"", 6)?;
        assert!(rt; ended.ran == Some(Ran::Ended(0)));
    }
    Ok(())
}

#[test]
fn echoes_a_line(rt: HostRuntime) -> Result<(), AllocError> {
    let main_operations = [
        Operation::SSend { a: 2, b: 0, c: 0 },
        Operation::SSend { a: 1, b: 1, c: 1 },
        Operation::SSend { a: 2, b: 0, c: 0 },
        Operation::SSend { a: 1, b: 1, c: 1 },
        Operation::Stop,
    ];
    let main_symbols: [&[u8]; 2] = [b"gets", b"puts"];
    let main = plain(1, 5, &main_operations, &main_symbols);
    let seen = run(rt.alloc(), &[main], b"hi\nthere", 1000)?;
    assert!(rt; seen.out.as_slice() == b"hi\nthere\n".as_slice());
    Ok(())
}

#[test]
fn tells_what_nothing_rescued(rt: HostRuntime) -> Result<(), AllocError> {
    let main_operations = [Operation::SSend { a: 1, b: 0, c: 254 }, Operation::Stop];
    let main_symbols: [&[u8]; 1] = [b"nothing"];
    let main = plain(1, 3, &main_operations, &main_symbols);
    let seen = run(rt.alloc(), &[main], b"", 1000)?;
    let is_uncaught = matches!(seen.ran, Some(Ran::Uncaught(_)));
    assert!(rt; is_uncaught);
    Ok(())
}

#[test]
fn peaks_are_in_blocks(rt: HostRuntime) -> Result<(), AllocError> {
    for (registers, peak) in [(1, 1), (64, 1), (65, 2), (256, 4)] {
        let seen = run(
            rt.alloc(),
            &[plain(1, registers, &[Operation::Stop], &[])],
            b"",
            10,
        )?;
        assert!(rt; seen.ran == Some(Ran::Ended(0)));
        assert_eq!(rt; seen.peak, peak);
    }
    Ok(())
}
