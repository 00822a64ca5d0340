ghost use Rattle.std.specs.Prelude.{◌≡◌, ◌<◌, ℕ, length};
ghost use Rattle.vm_env.specs.Env.{Lies, contents, env};

use rb_value::{ObjId, Value};
use stack_bank::StackBank;
use std::process::Abort;
use std::test::Fail;
use vm_env::{EnvId, Envs};

// A value of an environment is that of the slot, and the other way round; the values stay after the window is gone.
#[test]
fn an_environment_is_one_list(rt: HostRuntime) -> Result<(), Fail> {
    let mut bank = StackBank::new(rt.alloc());
    let mut envs = Envs::new(rt.alloc());
    let stack = bank.open_stack()?;
    bank.grow(stack, 70)?;
    let env = envs.capture(stack, 60, 10)?;
    bank.set(stack, 63, Value::Int(1));
    assert_eq!(rt; envs.read(&bank, env, 3), Value::Int(1));
    envs.write(&mut bank, env, 4, Value::Int(2));
    assert_eq!(rt; bank.get(stack, 64), Value::Int(2));
    envs.close_env(&bank, env);
    bank.shrink(stack, 10);
    assert_eq!(rt; envs.read(&bank, env, 3), Value::Int(1));
    assert_eq!(rt; envs.read(&bank, env, 4), Value::Int(2));
    Ok(())
}

/// Writes a value of an environment, and of its list.
fn write_both(
    envs: &mut Envs,
    bank: &mut StackBank,
    e: EnvId,
    list: &mut [Value],
    i: usize,
    value: Value,
)
    requires there { e.0 < length envs.old }
    requires lies { Lies bank.old (env envs.old e.0) }
    requires within { i < length (contents bank.old (env envs.old e.0)) }
    requires same_length { length list.old ≡ length (contents bank.old (env envs.old e.0)) }
    ensures count { length envs.new ≡ length envs.old }
    ensures lie { (other : ℕ) → Lies bank.old (env envs.old other) → Lies bank.new (env envs.new other) }
    ensures lengths { (other : ℕ) →
        length (contents bank.new (env envs.new other)) ≡ length (contents bank.old (env envs.old other)) }
{
    envs.write(bank, e, i, value);
    list[i] = value;
}

/// An environment has the values of the list.
fn expect_same(rt: &impl Abort, envs: &Envs, bank: &StackBank, e: EnvId, list: &[Value])
    requires there { e.0 < length envs.now }
    requires lies { Lies bank.now (env envs.now e.0) }
    requires same_length { length list.now ≡ length (contents bank.now (env envs.now e.0)) }
{
    for (i, value) in list.iter().enumerate() {
        assert_eq!(rt; envs.read(bank, e, i), *value);
    }
}

// After each of a hundred writes to three environments, open ones and a closed one, each has the values of its list.
#[test]
fn a_hundred_writes_are_those_on_lists(rt: HostRuntime) -> Result<(), Fail> {
    let mut bank = StackBank::new(rt.alloc());
    let mut envs = Envs::new(rt.alloc());
    let left = bank.open_stack()?;
    let right = bank.open_stack()?;
    bank.grow(left, 150)?;
    bank.grow(right, 100)?;
    let low = envs.capture(left, 60, 10)?;
    let high = envs.capture(left, 70, 10)?;
    let other = envs.capture(right, 60, 10)?;
    envs.close_env(&bank, high);
    let mut one = [Value::Nil; 10];
    let mut two = [Value::Nil; 10];
    let mut three = [Value::Nil; 10];
    for step in 0..100 {
        let value = Value::Obj(ObjId(step as u64));
        let i = step / 3 % 10;
        match step % 3 {
            0 => write_both(&mut envs, &mut bank, low, &mut one, i, value),
            1 => write_both(&mut envs, &mut bank, high, &mut two, i, value),
            _ => write_both(&mut envs, &mut bank, other, &mut three, i, value),
        }
        expect_same(&rt, &envs, &bank, low, &one);
        expect_same(&rt, &envs, &bank, high, &two);
        expect_same(&rt, &envs, &bank, other, &three);
    }
    Ok(())
}
