//! One turn of a body over its registers.
ghost use Rattle.std.specs.Prelude.{◌≡◌, ◌<◌, ◌^◌, List, [], get_or, set, IfSome};
ghost use Rattle.path_turns.specs.Turn as turns;
ghost use Rattle.path_machine.specs.Course.{value_of, gets, operated, sent, executed, stepped};
ghost use Rattle.rite_code.specs.Spelling as spelling;

use path_number::{Outcome, call};
use path_value::{Failure, Value};
use rb_base::Bytes;
use rb_syntax::Operator;
use rite_code::{Instr, Irep, Operation, decode_wide_at};

/// What a turn leads to.
#[derive(Clone, Copy, Debug, PartialEq, Eq)]
pub enum Next {
    /// The next instruction stands there.
    To(usize),
    /// `puts` of the value, and the next instruction stands there.
    Puts(usize, Value),
    Ended(u8),
    Uncaught(Failure),
}

/// What a register holds; past the end nil.
#[inline(always)]
fn read(registers: &[Value], index: usize) -> Value
    ensures { result ≡ value_of registers.now index }
{
    match registers.get(index) {
        Some(value) => *value,
        None => Value::Nil,
    }
}

/// Sets a register; past the end there is none.
#[inline(always)]
#[tactic(auto, using(std::proofs::lemmas::List::set_past))]
fn write(registers: &mut [Value], index: usize, value: Value)
    ensures { registers.new ≡ set registers.old index value }
{
    if index < registers.len() {
        registers[index] = value;
    }
}

/// Where a jump leads, by its distance from the next instruction.
#[inline(always)]
#[tactic(auto, unfolding(path_turns::specs::Turn::target))]
fn target(next: usize, by: i32) -> usize
    requires { next < 2 ^ 63 }
    ensures { result ≡ turns.target next by }
{
    if by < 0 {
        next.saturating_sub(by.unsigned_abs() as usize)
    } else {
        next + by as usize
    }
}

/// Whether the call of the method of this symbol with so many arguments is one of `puts` with one.
#[inline(always)]
#[tactic(auto, unfolding(path_turns::specs::Turn::is_puts))]
fn is_puts(symbols: &[Bytes], symbol: u16, count: u16) -> bool
    ensures { result ≡ turns.is_puts (get_or symbols.now symbol []) count }
{
    match symbols.get(usize::from(symbol)) {
        Some(name) => name.as_slice() == b"puts".as_slice() && count == 1,
        None => false,
    }
}

/// The call of an operator on register `a` with the register after it.
#[inline(always)]
fn operate(operator: Operator, registers: &mut [Value], a: u16, next: usize) -> Next
    ensures { (registers.new, result) ≡ operated operator registers.old a next }
{
    let a = usize::from(a);
    match call(operator, read(registers, a), read(registers, a + 1)) {
        Outcome::Gives(value) => {
            write(registers, a, value);
            Next::To(next)
        }
        Outcome::Raises(failure) => Next::Uncaught(failure),
    }
}

/// The call of a method on self.
#[inline(always)]
fn send(registers: &mut [Value], a: u16, is_puts: bool, next: usize) -> Next
    ensures { (registers.new, result) ≡ sent is_puts registers.old a next }
{
    if !is_puts {
        return Next::Ended(0);
    }
    let a = usize::from(a);
    let argument = read(registers, a + 1);
    write(registers, a, Value::Nil);
    Next::Puts(next, argument)
}

/// Sets register `a` and goes on.
#[inline(always)]
fn load(registers: &mut [Value], a: u16, value: Value, next: usize) -> Next
    ensures { (registers.new, result) ≡ gets registers.old a value next }
{
    write(registers, usize::from(a), value);
    Next::To(next)
}

/// One operation, with the place after it.
#[inline(always)]
fn execute(symbols: &[Bytes], operation: Operation, next: usize, registers: &mut [Value]) -> Next
    requires { next < 2 ^ 63 }
    ensures { (registers.new, result) ≡ executed symbols.now operation next registers.old }
{
    match operation {
        Operation::Move { a, b } => {
            let value = read(registers, usize::from(b));
            load(registers, a, value, next)
        }
        Operation::LoadI { a, b } => load(registers, a, Value::Int(i64::from(b)), next),
        Operation::LoadI16 { a, b } => load(registers, a, Value::Int(i64::from(b)), next),
        Operation::LoadI32 { a, b } => load(registers, a, Value::Int(i64::from(b)), next),
        Operation::LoadNil { a } => load(registers, a, Value::Nil, next),
        Operation::LoadT { a } => load(registers, a, Value::True, next),
        Operation::Jmp { by } => Next::To(target(next, by)),
        Operation::JmpIf { a, by } => {
            let test = read(registers, usize::from(a)).is_true();
            Next::To(if test { target(next, by) } else { next })
        }
        Operation::JmpNot { a, by } => {
            let test = read(registers, usize::from(a)).is_true();
            Next::To(if test { next } else { target(next, by) })
        }
        Operation::SSend { a, b, c } => send(registers, a, is_puts(symbols, b, c), next),
        Operation::Add { a } => operate(Operator::Plus, registers, a, next),
        Operation::Sub { a } => operate(Operator::Minus, registers, a, next),
        Operation::Mul { a } => operate(Operator::Times, registers, a, next),
        Operation::Eq { a } => operate(Operator::Equal, registers, a, next),
        Operation::Lt { a } => operate(Operator::Less, registers, a, next),
        Operation::Le { a } => operate(Operator::LessEqual, registers, a, next),
        Operation::Gt { a } => operate(Operator::Greater, registers, a, next),
        Operation::Ge { a } => operate(Operator::GreaterEqual, registers, a, next),
        _ => Next::Ended(0),
    }
}

/// The instruction that stands at a place, and the place after it.
#[inline(always)]
fn fetch(code: &[u8], place: usize) -> Option<(Instr, usize)>
    ensures same { result ≡ spelling.decode_wide_at code.now place }
    ensures fits { IfSome result (λ fetched. fetched.1 < 2 ^ 63) }
{
    decode_wide_at(code, place)
}

/// One turn: the instruction that stands at the place, over the registers. A place without one ends the
/// program.
#[inline(always)]
#[tactic(auto, unfolding(crate::specs::Course::stepped))]
pub fn step(body: &Irep, place: usize, registers: &mut [Value]) -> Next
    ensures { (registers.new, result) ≡ stepped body.now place registers.old }
{
    match fetch(body.code.as_slice(), place) {
        Some((instruction, next)) => {
            execute(
                body.symbols.as_slice(),
                instruction.operation(),
                next,
                registers,
            )
        }
        None => Next::Ended(0),
    }
}
