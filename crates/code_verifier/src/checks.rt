//! The checks of one instruction, and of a catch entry.
ghost use Rattle.std.specs.Prelude.{◌≡◌, ◌<◌, ◌^◌, ℕ, drop, length, map};
ghost use Rattle.std.specs.Prelude as prelude;
ghost use Rattle.code_outline.specs.Layout as laid;
ghost use Rattle.code_outline.specs.Makers.{child_made, use_in};
ghost use Rattle.code_outline.specs.Outlined.{LaysOut, Outlines, seen};
ghost use Rattle.code_verifier.specs.Checks as checks;
ghost use Rattle.code_verifier.specs.Known.{KnowsMakers};
ghost use Rattle.code_verifier.specs.Needs as needs;

use crate::needs::{count_of, distance_of, is_jump, parameters_of};
use code_outline::{Layout, Maker, Outline, Purpose, Standing, use_in};
use rite_code::{CatchEntry, Code, Instr, Irep, Operation, Parameters, PoolItem};

/// A count of arguments above 255 means nothing.
#[inline(always)]
pub fn count_holds(instr: &Instr) -> bool
    ensures { result ≡ checks.count_holds instr.now }
{
    count_of(instr.operation()) <= 255
}

/// The entry of the pool that it names is there, and of its kind.
pub fn entry_holds(pool: &[PoolItem], operation: Operation) -> bool
    ensures { result ≡ checks.entry_holds pool.now (needs.entry_of operation) }
{
    match operation {
        Operation::LoadL { b, .. } => matches!(pool.get(usize::from(b)), Some(PoolItem::Int(_))),
        Operation::String { b, .. } => matches!(pool.get(usize::from(b)), Some(PoolItem::Text(_))),
        _ => true,
    }
}

/// The child that it uses is there.
pub fn child_holds(body: &Irep, operation: Operation) -> bool
    ensures { result ≡ checks.child_holds body.now (use_in operation) }
{
    match use_in(operation) {
        None => true,
        Some((index, _)) => usize::from(index) < body.children.len(),
    }
}

/// A jump from before the place `next` leads to the start of an instruction.
pub fn jump_holds(layout: &Layout, next: u32, operation: Operation) -> bool
    ensures { (version : ℕ) (code : prelude.List ℕ) → length code < 2 ^ 32 → LaysOut version code layout.now
        → result ≡ checks.jump_holds (laid.layout version code) next (needs.distance_of operation) }
{
    match distance_of(operation) {
        None => true,
        Some(by) => leads_to_start(layout, i64::from(next) + i64::from(by)),
    }
}

fn leads_to_start(layout: &Layout, target: i64) -> bool
    ensures { (version : ℕ) (code : prelude.List ℕ) → length code < 2 ^ 32 → LaysOut version code layout.now
        → result ≡ checks.leads_to_start (laid.layout version code) target }
{
    match u32::try_from(target) {
        Ok(at) => layout.is_start(at),
        Err(_) => false,
    }
}

/// The register is a parameter or a named local of this body.
fn is_local(code: &Code, scope: Option<u32>, register: u16) -> bool
    ensures { result ≡ checks.is_local (checks.body_number code.now scope) register }
{
    let Some(number) = scope else {
        return false;
    };
    match code.bodies().get(number as usize) {
        None => false,
        Some(body) => 0 < register && register < body.locals,
    }
}

/// The variable that it names is one of a body further out.
pub fn variable_holds(code: &Code, outline: &Outline, number: u32, operation: Operation) -> bool
    requires outlined { Outlines code.now outline.now }
    requires number { number < length code.now.bodies }
    ensures { result ≡ checks.variable_holds code.now number (needs.variable_of operation) }
{
    match operation {
        Operation::GetUpVar { b, c, .. } | Operation::SetUpVar { b, c, .. } => {
            is_local(code, outline.scope_out(c, number), b)
        }
        _ => true,
    }
}

/// Whether the body begins with ENTER.
pub fn takes_arguments(maker: Option<Maker>) -> bool
    ensures { result ≡ checks.takes_arguments maker }
{
    match maker {
        None => false,
        Some(maker) => maker.purpose != Purpose::ClassBody,
    }
}

fn are_jumps(list: &[Standing]) -> bool
    ensures { result ≡ checks.are_jumps (map seen list.now) }
{
    for standing in list {
        if !is_jump(standing.instr.operation()) {
            return false;
        }
    }
    true
}

/// After ENTER with optional parameters stands a jump for each number of them that may be given.
fn jumps_follow(optional: u8, others: &[Standing]) -> bool
    ensures { result ≡ checks.jumps_follow optional (map seen others.now) }
{
    if optional == 0 {
        return true;
    }
    match others.get(..usize::from(optional) + 1) {
        None => false,
        Some(jumps) => are_jumps(jumps),
    }
}

fn parameter_count(parameters: Parameters) -> u32
    ensures value { result ≡ checks.parameter_count parameters }
    ensures small { result < 1000 }
{
    u32::from(parameters.required)
        + u32::from(parameters.optional)
        + u32::from(parameters.rest)
        + u32::from(parameters.post)
}

fn parameters_hold(body: &Irep, others: &[Standing], parameters: Parameters) -> bool
    ensures { result ≡ checks.parameters_hold body.now (map seen others.now) parameters }
{
    parameter_count(parameters) + 2 <= u32::from(body.locals)
        && !parameters.spare
        && jumps_follow(parameters.optional, others)
}

/// The instructions after the first.
fn after_first(list: &[Standing]) -> &[Standing]
    ensures { map seen result.now ≡ drop 1 (map seen list.now) }
{
    match list {
        [] => list,
        [_, others @ ..] => others,
    }
}

/// ENTER stands at the start of a body that takes arguments, and nowhere else.
pub fn enter_holds(
    takes: bool,
    at: u32,
    body: &Irep,
    list: &[Standing],
    operation: Operation,
) -> bool
    ensures { result
        ≡ checks.enter_holds takes at body.now (drop 1 (map seen list.now)) (needs.parameters_of operation) }
{
    match parameters_of(operation) {
        None => !(takes && at == 0),
        Some(parameters) => takes
            && at == 0
            && parameters_hold(body, after_first(list), parameters),
    }
}

fn in_function(maker: Option<Maker>) -> bool
    ensures { result ≡ checks.in_function maker }
{
    match maker {
        None => false,
        Some(maker) => maker.purpose.is_function(),
    }
}

/// The instruction may stand in body `number`, which has this maker.
pub fn place_holds(number: u32, maker: Option<Maker>, operation: Operation) -> bool
    ensures { result ≡ checks.place_holds number maker operation }
{
    match operation {
        Operation::ReturnBlk { .. } | Operation::Break { .. } => in_function(maker),
        Operation::OClass { b, .. } => b < 2,
        Operation::Defined { b, .. } => b < 8,
        Operation::Stop => number == 0,
        _ => true,
    }
}

fn is_maker(number: u32, at: u32, maker: Option<Maker>) -> bool
    ensures { result ≡ checks.is_maker number at maker }
{
    match maker {
        None => false,
        Some(maker) => maker.body == number && maker.at == at,
    }
}

/// The instruction is the first that uses the child that it uses.
pub fn makes_once(
    code: &Code,
    outline: &Outline,
    number: u32,
    body: &Irep,
    at: u32,
    operation: Operation,
) -> bool
    requires { KnowsMakers code.now outline.now }
    ensures { result ≡ checks.makes_once code.now number at (child_made number body.now at (use_in operation)) }
{
    let Some((index, _)) = use_in(operation) else {
        return true;
    };
    match body.children.as_slice().get(usize::from(index)) {
        None => true,
        Some(child) => is_maker(number, at, outline.maker(*child)),
    }
}

/// Every body but the main program is used, which its first instruction answers for.
pub fn is_used(code: &Code, outline: &Outline, number: u32, at: u32) -> bool
    requires { KnowsMakers code.now outline.now }
    ensures { result ≡ checks.is_used code.now number at }
{
    number == 0 || at != 0 || outline.maker(number).is_some()
}

/// The entry covers something, and begins, ends and leads to where an instruction starts or, as to its end, where
/// the code ends.
pub fn catch_holds(size: usize, layout: &Layout, entry: &CatchEntry) -> bool
    ensures { (version : ℕ) (code : prelude.List ℕ) → LaysOut version code layout.now
        → result ≡ checks.catch_holds size (laid.layout version code) entry.now }
{
    entry.begin < entry.end
        && layout.is_start(entry.begin)
        && layout.is_start(entry.target)
        && (layout.is_start(entry.end) || entry.end as usize == size)
}
