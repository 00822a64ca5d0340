ghost use Rattle.std.specs.Prelude.{◌≡◌, ◌+◌, ◌^◌, ◌<◌, ◌≤◌, ◌++◌, [], ◌∷◌, ℕ, length, take, drop, OnOk, OnErr, IfOk, Some, slice_get, slice_set, vec_len};
ghost use Rattle.std.specs.Vec.{vec_capacity};
ghost use Rattle.stack_bank.specs.Bank.{IsLive, slots};
ghost use Rattle.vm_env.specs.Env.{Env as Seen, captured, env, contents, Lies, IsOpen, MeetsNone, Writes, WritesOne, closed};

use rb_value::Value;
use stack_bank::{StackBank, StackId};
use std::alloc::{AllocError, Global};
use std::marker::Model;

/// The number of an environment.
#[derive(Clone, Copy, Debug, PartialEq, Eq)]
pub struct EnvId(pub u64);

/// The window of an environment, and its values once it is closed. While it is open there is room for them.
#[derive(Debug, Drop)]
pub struct Env {
    stack: StackId,
    base: usize,
    size: usize,
    open: bool,
    values: Vec<Value>,
}

/// Environments.
#[derive(Debug, Drop)]
pub struct Envs {
    envs: Vec<Env>,
    alloc: Global,
}

impl Model for Envs {
    ghost use Rattle.std.specs.Prelude.{map, List};
    ghost use Rattle.vm_env.specs.Env.{Env as Seen};
    ghost use Rattle.vm_env.specs.Inside.{kept, seen, IsSound};

    ghost Value = { List Seen };

    ghost view = { λ e. map seen (map kept e.envs.items) };

    ghost invariant = { λ e. IsSound (map kept e.envs.items) };
}

impl Envs {
    /// No environments. It takes no memory.
    pub fn new(alloc: Global) -> Envs
        ensures { result ≡ [] }
    {
        Envs {
            envs: Vec::new(alloc),
            alloc,
        }
    }

    /// An environment that is open onto the `n` slots from `base` on of a stack, and room for their values. It has
    /// the next number. Where memory runs out, or the slots can't be numbered, all is as before.
    pub fn capture(&mut self, id: StackId, base: usize, n: usize) -> Result<EnvId, AllocError>
        requires { MeetsNone self.old id.0 base n }
        ensures number { IfOk result (λ e. e.0 ≡ length self.old) }
        ensures ok { OnOk result (self.new ≡ captured self.old id.0 base n) }
        ensures err { OnErr result (self.new ≡ self.old) }
    {
        base.checked_add(n).ok_or(AllocError)?;
        let e = self.envs.len();
        let values = Vec::with_capacity(self.alloc, n)?;
        self.envs.push(Env {
            stack: id,
            base,
            size: n,
            open: true,
            values,
        })?;
        Ok(EnvId(e as u64))
    }

    /// Value `i` of an environment.
    pub fn read(&self, bank: &StackBank, e: EnvId, i: usize) -> Value
        requires there { e.0 < length self.now }
        requires lies { Lies bank.now (env self.now e.0) }
        requires within { i < length (contents bank.now (env self.now e.0)) }
        ensures { slice_get (contents bank.now (env self.now e.0)) i ≡ Some result }
    {
        let env = &self.envs[e.0 as usize];
        if env.open {
            bank.get(env.stack, env.base + i)
        } else {
            env.values[i]
        }
    }

    /// Writes value `i` of an environment. Every other environment and every other slot is as before.
    pub fn write(&mut self, bank: &mut StackBank, e: EnvId, i: usize, v: Value)
        requires there { e.0 < length self.old }
        requires lies { Lies bank.old (env self.old e.0) }
        requires within { i < length (contents bank.old (env self.old e.0)) }
        ensures place { Writes self.old self.new bank.old bank.new e.0 i v }
        ensures one { WritesOne self.old self.new bank.old bank.new e.0 i v }
    {
        let env = &self.envs[e.0 as usize];
        if env.open {
            bank.set(env.stack, env.base + i, v);
        } else {
            self.envs[e.0 as usize].values[i] = v;
        }
    }

    /// Closes an environment: its values stand in room of its own from now on. It takes no memory.
    pub fn close_env(&mut self, bank: &StackBank, e: EnvId)
        requires open { IsOpen (env self.old e.0) }
        requires lies { Lies bank.now (env self.old e.0) }
        ensures closed { self.new ≡ closed self.old bank.now e.0 }
        ensures kept { contents bank.now (env self.new e.0) ≡ contents bank.now (env self.old e.0) }
    {
        let env = &mut self.envs[e.0 as usize];
        copy_window(bank, env.stack, env.base, env.size, &mut env.values);
        env.open = false;
    }
}

/// Puts the slots of a window after the values. There is room for them.
fn copy_window(bank: &StackBank, stack: StackId, base: usize, size: usize, values: &mut Vec<Value>)
    requires live { IsLive bank.now stack.0 }
    requires within { base + size ≤ length (slots bank.now stack.0) }
    requires fits { base + size < 2 ^ 64 }
    requires room { vec_len values.old + size ≤ vec_capacity values.old }
    ensures { values.new.items ≡ values.old.items ++ take size (drop base (slots bank.now stack.0)) }
{
    for i in 0..size {
        values.push_reserved(bank.get(stack, base + i));
    }
}
