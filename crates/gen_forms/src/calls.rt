//! Calls: the receiver, the arguments, the block, and the instruction that sends them.
ghost use Rattle.std.specs.Prelude.{◌≡◌, ◌+◌, true, false, OnOk, IfOk};
ghost use Rattle.ir_core.specs.CoreForm as form;
ghost use Rattle.ir_core.specs.PartsBy as by;
ghost use Rattle.gen_parts.specs.Emission.{with_piece, here};
ghost use Rattle.ir_walk.specs.Width as widths;
ghost use Rattle.gen_forms.specs.Gen as gens;
ghost use Rattle.gen_forms.specs.Gen.{gen};
ghost use Rattle.gen_forms.specs.Open as opened;
ghost use Rattle.gen_forms.specs.Around.{context_of};

use crate::collections::array;
use crate::context::{Context, symbol};
use crate::emits::{Emits, Emitted, emit_optional};
use crate::numbers::{after, count};
use crate::operators::operator;
use gen_parts::{Emitter, Held};
use ir_core::Receiver;
use rb_base::Bytes;
use rb_syntax::Item;
use rite_code::Operation;
use std::alloc::AllocError;

/// How arguments are passed: in registers, or in one Array where one is a splat or where they are more than 253. The
/// Array is made before the items where one is a splat, and of the items otherwise.
#[derive(Clone, Copy, Debug, PartialEq, Eq)]
pub enum Passing {
    InRegisters(u16),
    InArrayOf(u16),
    InArray,
}

/// The count that a call has where its arguments stand in an Array, and that of a name alone.
const IN_ARRAY: u16 = 255;

const BARE: u16 = 254;

/// How these items are passed.
#[tactic(auto, using(gen_parts::proofs::Laws::piece_laws, crate::proofs::Items::item_laws))]
pub fn passing_of<T: Emits>(items: &Vec<Item<Box<T>>>) -> Result<Passing, AllocError>
    ensures { IfOk result (λ p. p ≡ gens.passing (by.items_by T.form items.now.items)) }
{
    if has_splat(items) {
        Ok(Passing::InArray)
    } else if items.len() > 253 {
        Ok(Passing::InArrayOf(count(items.len())?))
    } else {
        Ok(Passing::InRegisters(count(items.len())?))
    }
}

fn is_plain<T: Emits>(item: &Item<Box<T>>) -> bool
    ensures { result ≡ by.is_plain item.now }
{
    match item {
        Item::Plain(_) => true,
        Item::Splat(_) => false,
    }
}

#[tactic(auto, using(gen_parts::proofs::Laws::piece_laws, ir_walk::proofs::Items::item_laws))]
fn has_splat<T: Emits>(items: &Vec<Item<Box<T>>>) -> bool
    ensures { result ≡ widths.has_splat (by.items_by T.form items.now.items) }
{
    for item in items {
        if !is_plain(item) {
            return true;
        }
    }
    false
}

impl Passing {
    /// The operand of a call.
    fn operand(self) -> u16
        ensures { result ≡ gens.count_operand self }
    {
        match self {
            Passing::InRegisters(n) => n,
            Passing::InArrayOf(_) => IN_ARRAY,
            Passing::InArray => IN_ARRAY,
        }
    }

    /// How many registers the arguments take.
    fn registers(self) -> u16
        ensures { result ≡ gens.registers_of self }
    {
        match self {
            Passing::InRegisters(n) => n,
            Passing::InArrayOf(_) => 1,
            Passing::InArray => 1,
        }
    }
}

fn emit_value<'s, T: Emits>(
    code: &mut Emitter,
    context: &Context<'_, 's>,
    a: u16,
    item: &'s Item<Box<T>>,
) -> Emitted
    ensures { OnOk result (code.new ≡ with_piece code.old
        (gen (context_of context.now) (here code.old) a (by.value_by T.form item.now))) }
{
    match item {
        Item::Plain(core) | Item::Splat(core) => core.emit(code, context, a),
    }
}

/// The items are plain, one a register.
#[tactic(auto, using(gen_parts::proofs::Laws::piece_laws, crate::proofs::Items::item_laws))]
fn pass_in_registers<'s, T: Emits>(
    code: &mut Emitter,
    context: &Context<'_, 's>,
    a: u16,
    items: &'s Vec<Item<Box<T>>>,
) -> Emitted
    ensures { OnOk result (code.new ≡ with_piece code.old
        (gens.pass_in_registers (context_of context.now) (here code.old) a (by.items_by T.form items.now.items))) }
{
    let mut register = a;
    for item in items {
        emit_value(code, context, register, item)?;
        register = after(register, 1)?;
    }
    Ok(())
}

/// The arguments of a call whose receiver is in the register.
fn pass<'s, T: Emits>(
    code: &mut Emitter,
    context: &Context<'_, 's>,
    a: u16,
    items: &'s Vec<Item<Box<T>>>,
    passing: Passing,
) -> Emitted
    ensures { OnOk result (code.new ≡ with_piece code.old
        (opened.pass (context_of context.now) (here code.old) a (by.items_by T.form items.now.items) passing)) }
{
    let first = after(a, 1)?;
    match passing {
        Passing::InRegisters(_) => pass_in_registers(code, context, first, items),
        Passing::InArrayOf(b) => {
            pass_in_registers(code, context, first, items)?;
            code.does(Operation::Array { a: first, b })
        }
        Passing::InArray => array(code, context, first, items),
    }
}

/// The register of the block behind the arguments of a call whose receiver is in the register.
fn block_register(a: u16, passing: Passing) -> Result<u16, AllocError>
    ensures { IfOk result (λ n. n ≡ a + 1 + gens.registers_of passing) }
{
    after(after(a, 1)?, passing.registers())
}

fn receive<'s, T: Emits>(
    code: &mut Emitter,
    context: &Context<'_, 's>,
    a: u16,
    receiver: &'s Receiver<Box<T>>,
) -> Emitted
    ensures { OnOk result (code.new ≡ with_piece code.old
        (gens.gen_receiver (context_of context.now) (here code.old) a (by.receiver_by T.form receiver.now))) }
{
    match receiver {
        Receiver::To(core) => core.emit(code, context, a),
        Receiver::OnSelf | Receiver::Bare => Ok(()),
    }
}

/// The instruction of a call without a block.
fn send<T: Emits>(receiver: &Receiver<Box<T>>, passing: Passing, a: u16, b: u16) -> Operation
    ensures { result ≡ gens.send false (by.receiver_by T.form receiver.now) passing a b }
{
    let c = passing.operand();
    match receiver {
        Receiver::To(_) => Operation::Send { a, b, c },
        Receiver::OnSelf => Operation::SSend { a, b, c },
        Receiver::Bare => Operation::SSend { a, b, c: BARE },
    }
}

/// The instruction of a call with a block, whatever the block is.
fn send_block<T: Emits>(receiver: &Receiver<Box<T>>, passing: Passing, a: u16, b: u16) -> Operation
    ensures { result ≡ gens.send true (by.receiver_by T.form receiver.now) passing a b }
{
    let c = passing.operand();
    match receiver {
        Receiver::To(_) => Operation::SendB { a, b, c },
        Receiver::OnSelf => Operation::SSendB { a, b, c },
        Receiver::Bare => Operation::SSendB { a, b, c },
    }
}

/// Whether there is one item, and it is plain.
#[tactic(auto, using(gen_parts::proofs::Laws::piece_laws, crate::proofs::Items::item_laws))]
fn is_one_plain<T: Emits>(items: &[Item<Box<T>>]) -> bool
    ensures { result ≡ gens.is_one_plain (by.items_by T.form items.now) }
{
    match items.split_first() {
        Some((first, others)) => is_plain(first) && others.is_empty(),
        None => false,
    }
}

/// The instruction of an operator with one operand. None for any other call.
fn operates<T: Emits>(
    receiver: &Receiver<Box<T>>,
    name: &Bytes,
    items: &Vec<Item<Box<T>>>,
    a: u16,
) -> Option<Operation>
    ensures { result ≡ gens.operates form.absent (by.receiver_by T.form receiver.now) name.now
        (by.items_by T.form items.now.items) a }
{
    match receiver {
        Receiver::To(_) => {
            if is_one_plain(items.as_slice()) {
                operator(name.as_slice(), a)
            } else {
                None
            }
        }
        Receiver::OnSelf | Receiver::Bare => None,
    }
}

/// A call without a block: by the instruction of an operator, or by a send.
fn called<'s, T: Emits>(
    code: &mut Emitter,
    context: &Context<'_, 's>,
    a: u16,
    operation: Option<Operation>,
    items: &'s Vec<Item<Box<T>>>,
    passing: Passing,
    sending: Operation,
) -> Emitted
    ensures { OnOk result (code.new ≡ with_piece code.old (opened.called (context_of context.now) (here code.old) a
        operation (by.items_by T.form items.now.items) passing sending)) }
{
    match operation {
        Some(operation) => {
            pass_in_registers(code, context, after(a, 1)?, items)?;
            code.does(operation)
        }
        None => {
            pass(code, context, a, items, passing)?;
            code.does(sending)
        }
    }
}

/// A call without a block.
pub fn call<'s, T: Emits>(
    code: &mut Emitter,
    context: &Context<'_, 's>,
    a: u16,
    receiver: &'s Receiver<Box<T>>,
    name: &Bytes,
    items: &'s Vec<Item<Box<T>>>,
) -> Emitted
    ensures { OnOk result (code.new ≡ with_piece code.old (gen (context_of context.now) (here code.old) a
        (form.call (by.receiver_by T.form receiver.now) name.now (by.items_by T.form items.now.items) form.absent))) }
{
    let passing = passing_of(items)?;
    let sending = send(receiver, passing, a, symbol(context, name)?);
    receive(code, context, a, receiver)?;
    let operation = operates(receiver, name, items, a);
    called(code, context, a, operation, items, passing, sending)
}

/// A call with a block.
pub fn block_call<'s, T: Emits>(
    code: &mut Emitter,
    context: &Context<'_, 's>,
    a: u16,
    receiver: &'s Receiver<Box<T>>,
    name: &Bytes,
    items: &'s Vec<Item<Box<T>>>,
    block: &'s Box<T>,
) -> Emitted
    ensures { OnOk result (code.new ≡ with_piece code.old (gen (context_of context.now) (here code.old) a
        (form.call (by.receiver_by T.form receiver.now) name.now (by.items_by T.form items.now.items)
        (form.there (by.core_by T.form block.now))))) }
{
    let passing = passing_of(items)?;
    receive(code, context, a, receiver)?;
    pass(code, context, a, items, passing)?;
    block.emit(code, context, block_register(a, passing)?)?;
    code.does(send_block(receiver, passing, a, symbol(context, name)?))
}

/// A call of the block of the method around.
pub fn yield_to<'s, T: Emits>(
    code: &mut Emitter,
    context: &Context<'_, 's>,
    a: u16,
    items: &'s Vec<Item<Box<T>>>,
) -> Emitted
    ensures { OnOk result (code.new ≡ with_piece code.old
        (gen (context_of context.now) (here code.old) a (form.yield_form (by.items_by T.form items.now.items)))) }
{
    let passing = passing_of(items)?;
    code.does(Operation::BlkPush { a })?;
    pass(code, context, a, items, passing)?;
    code.does(Operation::Call {
        a,
        b: passing.operand(),
    })
}

/// The block of a call of super: without one that of the method, or nil.
fn super_block<'s, T: Emits>(
    code: &mut Emitter,
    context: &Context<'_, 's>,
    a: u16,
    block: &'s Option<Box<T>>,
) -> Emitted
    ensures { OnOk result (code.new ≡ with_piece code.old
        (gens.super_block (context_of context.now) (here code.old) a (by.boxed_by T.form block.now))) }
{
    match block {
        Some(core) => core.emit(code, context, a),
        None => own_block(code, a),
    }
}

/// The block of the method around, or nil.
fn own_block(code: &mut Emitter, a: u16) -> Emitted
    ensures { OnOk result (code.new ≡ with_piece code.old (gens.own_block (here code.old) a)) }
{
    code.does(Operation::Defined { a, b: 6, c: 0 })?;
    let over = code.hold(Held::JumpNot(a))?;
    code.does(Operation::BlkPush { a })?;
    code.land(over, Held::JumpNot(a))
}

/// A call of the method above.
pub fn call_super<'s, T: Emits>(
    code: &mut Emitter,
    context: &Context<'_, 's>,
    a: u16,
    items: &'s Vec<Item<Box<T>>>,
    block: &'s Option<Box<T>>,
) -> Emitted
    ensures { OnOk result (code.new ≡ with_piece code.old (gen (context_of context.now) (here code.old) a
        (form.super_form (by.items_by T.form items.now.items) (by.boxed_by T.form block.now)))) }
{
    let passing = passing_of(items)?;
    pass(code, context, a, items, passing)?;
    super_block(code, context, block_register(a, passing)?, block)?;
    code.does(Operation::Super {
        a,
        b: passing.operand(),
    })
}
