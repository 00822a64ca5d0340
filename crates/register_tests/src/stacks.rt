ghost use Rattle.std.specs.Prelude.{ℕ, ◌<◌};
ghost use Rattle.stack_bank.specs.Bank.{IsLive};

use rb_value::{SymId, Value};
use stack_bank::{StackBank, StackId};
use std::alloc::AllocError;
use std::process::Abort;
use std::test::Fail;

// 65 slots need two blocks, 64 one, none no block.
#[test]
fn blocks_are_counted(rt: HostRuntime) -> Result<(), Fail> {
    let mut bank = StackBank::new(rt.alloc());
    let stack = bank.open_stack()?;
    bank.grow(stack, 65)?;
    assert_eq!(rt; bank.blocks(), 2);
    bank.shrink(stack, 1);
    assert_eq!(rt; bank.blocks(), 1);
    bank.close(stack);
    assert_eq!(rt; bank.blocks(), 0);
    Ok(())
}

// A window over two blocks reaches both by their places.
#[test]
fn a_window_reaches_its_slots(rt: HostRuntime) -> Result<(), Fail> {
    let mut bank = StackBank::new(rt.alloc());
    let stack = bank.open_stack()?;
    bank.grow(stack, 70)?;
    let window = bank.window(stack, 60, 10);
    assert_eq!(rt; window.near, 10);
    bank.set_in(window, 9, Value::Int(5));
    assert_eq!(rt; bank.get(stack, 69), Value::Int(5));
    Ok(())
}

/// Grows a stack and its list.
fn grow_both(
    bank: &mut StackBank,
    stack: StackId,
    list: &mut Vec<Value>,
    n: usize,
) -> Result<(), AllocError>
    requires { IsLive bank.old stack.0 }
    ensures { (other : ℕ) → IsLive bank.old other → IsLive bank.new other }
{
    bank.grow(stack, n)?;
    list.resize(list.len().saturating_add(n), Value::Nil)
}

/// Shrinks a stack and its list.
fn shrink_both(bank: &mut StackBank, stack: StackId, list: &mut Vec<Value>, n: usize)
    requires { IsLive bank.old stack.0 }
    ensures { (other : ℕ) → IsLive bank.old other → IsLive bank.new other }
{
    let size = bank.len(stack).min(n);
    bank.shrink(stack, size);
    list.truncate(list.len().saturating_sub(size));
}

/// Writes a slot of a stack, and of its list.
fn write_both(bank: &mut StackBank, stack: StackId, list: &mut [Value], i: usize, value: Value)
    requires { IsLive bank.old stack.0 }
    ensures { (other : ℕ) → IsLive bank.old other → IsLive bank.new other }
{
    if i < bank.len(stack) && i < list.len() {
        bank.set(stack, i, value);
        list[i] = value;
    }
}

/// A call on a stack, and the same on its list.
fn change_both(
    bank: &mut StackBank,
    stack: StackId,
    list: &mut Vec<Value>,
    step: usize,
) -> Result<(), AllocError>
    requires live { IsLive bank.old stack.0 }
    requires few { step < 100 }
    ensures { (other : ℕ) → IsLive bank.old other → IsLive bank.new other }
{
    let size = step * 37 % 90;
    match step % 5 {
        0 | 1 => grow_both(bank, stack, list, size),
        2 => {
            shrink_both(bank, stack, list, size);
            Ok(())
        }
        _ => {
            write_both(bank, stack, list, size, Value::Sym(SymId(7)));
            Ok(())
        }
    }
}

/// A stack has the slots of the list.
fn expect_same(rt: &impl Abort, bank: &StackBank, stack: StackId, list: &[Value])
    requires { IsLive bank.now stack.0 }
{
    assert_eq!(rt; bank.len(stack), list.len());
    for (i, slot) in list.iter().enumerate() {
        assert_eq!(rt; bank.get(stack, i), *slot);
    }
}

// After each of a hundred calls on three stacks, each stack has the slots of its list.
#[test]
fn a_hundred_calls_are_those_on_lists(rt: HostRuntime) -> Result<(), Fail> {
    let mut bank = StackBank::new(rt.alloc());
    let first = bank.open_stack()?;
    let second = bank.open_stack()?;
    let third = bank.open_stack()?;
    let mut one = Vec::new(rt.alloc());
    let mut two = Vec::new(rt.alloc());
    let mut three = Vec::new(rt.alloc());
    for step in 0..100 {
        match step % 3 {
            0 => change_both(&mut bank, first, &mut one, step)?,
            1 => change_both(&mut bank, second, &mut two, step)?,
            _ => change_both(&mut bank, third, &mut three, step)?,
        }
        expect_same(&rt, &bank, first, &one);
        expect_same(&rt, &bank, second, &two);
        expect_same(&rt, &bank, third, &three);
    }
    Ok(())
}
