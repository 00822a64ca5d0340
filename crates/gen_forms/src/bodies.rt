//! The code of bodies.
ghost use Rattle.std.specs.Prelude.{◌≡◌, ◌-◌, ◌<◌, ◌++◌, replicate, OnOk, IfOk};
ghost use Rattle.ir_core.specs.PartsBy as by;
ghost use Rattle.ir_core.specs.View.{parameters_of, maybe_local};
ghost use Rattle.ir_walk.specs.Width.{width};
ghost use Rattle.ir_counts.specs.Counts as counts;
ghost use Rattle.rite_code.specs.declared.operation.Operation.TheVariants as op;
ghost use Rattle.scope_resolver.specs.declared.body_kind.BodyKind.TheVariants as kinds;
ghost use Rattle.scope_resolver.specs.Layout.{slots_of};
ghost use Rattle.gen_parts.specs.Pieces.{does};
ghost use Rattle.gen_parts.specs.Emission.{with_piece, here};
ghost use Rattle.gen_parts.specs.Assembly.{assembled};
ghost use Rattle.gen_forms.specs.Gen as gens;
ghost use Rattle.gen_forms.specs.Open as opened;
ghost use Rattle.gen_forms.specs.Marks.{mark};
ghost use Rattle.gen_forms.specs.Around.{context_of};

use crate::context::{Context, symbol};
use crate::emits::{Emits, Emitted};
use crate::layout::{Layout, constant_pool, layout_of, symbol_list};
use crate::numbers::{line_after, one_more};
use gen_parts::{Bodies, Emitter, Head, Line, assemble};
use ir_core::{Body, Local, Parameters};
use ir_counts::Tally;
use rb_base::Bytes;
use rite_code::{Operation, Parameters as Entering};
use scope_resolver::{BodyKind, Scope, SlotTable, scopes_within};
use std::alloc::{AllocError, Global};

/// The instruction that makes a body.
#[derive(Clone, Copy, Debug, PartialEq, Eq)]
pub enum Maker {
    Block,
    Lambda,
    /// A method of this name.
    Method(u16),
    /// The body of the class in the register.
    Class,
}

impl Maker {
    fn kind(self) -> BodyKind
        ensures { result ≡ opened.kind_of self }
    {
        match self {
            Maker::Block => BodyKind::Block,
            Maker::Lambda => BodyKind::Block,
            Maker::Method(_) => BodyKind::Method,
            Maker::Class => BodyKind::Class,
        }
    }

    fn operation(self, a: u16, child: u16) -> Operation
        ensures { result ≡ opened.maker_of self a child }
    {
        match self {
            Maker::Block => Operation::Block { a, b: child },
            Maker::Lambda => Operation::Lambda { a, b: child },
            Maker::Method(b) => Operation::Def { a, b, c: child },
            Maker::Class => Operation::Exec { a, b: child },
        }
    }
}

/// An instruction that makes a body, and the body.
fn make_body<'s, T: Emits>(
    code: &mut Emitter,
    context: &Context<'_, 's>,
    a: u16,
    maker: Maker,
    body: &'s Body<Box<T>>,
) -> Emitted
    ensures { OnOk result (code.new ≡ with_piece code.old
        (opened.made maker (context_of context.now) (here code.old) a (by.body_by T.form body.now))) }
{
    let spot = code.here()?;
    let bodies = bodies_of(context.alloc, context.scopes, maker.kind(), spot.body, body)?;
    bodies.put_into(code, maker.operation(a, spot.child), spot.body)
}

/// The same for a body that stands behind a pointer.
pub fn make<'s, T: Emits>(
    code: &mut Emitter,
    context: &Context<'_, 's>,
    a: u16,
    maker: Maker,
    body: &'s Box<Body<Box<T>>>,
) -> Emitted
    ensures { OnOk result (code.new ≡ with_piece code.old
        (opened.made maker (context_of context.now) (here code.old) a (by.body_by T.form body.now.value))) }
{
    make_body(code, context, a, maker, &**body)
}

/// A method definition, in the class that the register gets.
pub fn define<'s, T: Emits>(
    code: &mut Emitter,
    context: &Context<'_, 's>,
    a: u16,
    name: &Bytes,
    body: &'s Box<Body<Box<T>>>,
) -> Emitted
    ensures { OnOk result (code.new ≡ with_piece code.old
        (opened.defines (context_of context.now) (here code.old) a name.now (by.body_by T.form body.now.value))) }
{
    let method = symbol(context, name)?;
    make(code, context, a, Maker::Method(method), body)
}

fn small(number: usize) -> Result<u8, AllocError>
    ensures { IfOk result (λ n. n ≡ number) }
{
    match u8::try_from(number) {
        Ok(n) => Ok(n),
        Err(_) => Err(AllocError),
    }
}

fn is_there(local: &Option<Local>) -> bool
    ensures { result ≡ gens.is_there (maybe_local local.now) }
{
    match local {
        Some(_) => true,
        None => false,
    }
}

/// What ENTER says of the parameters.
fn entering(parameters: &Parameters) -> Result<Entering, AllocError>
    ensures { IfOk result (λ p. p ≡ gens.parameters (parameters_of parameters.now)) }
{
    Ok(Entering {
        required: small(parameters.required.len())?,
        optional: small(parameters.optional.len())?,
        rest: is_there(&parameters.rest),
        post: small(parameters.post.len())?,
        block: is_there(&parameters.block),
        spare: false,
    })
}

/// So many jumps that lead to line 0 yet.
#[tactic(auto, using(gen_parts::proofs::Laws::piece_laws, crate::proofs::Starts::start_laws))]
fn hold_jumps(code: &mut Emitter, jumps: usize) -> Emitted
    ensures { OnOk result (code.new ≡ with_piece code.old (opened.held_jumps jumps)) }
{
    let mut left = jumps;
    while left > 0 {
        code.put(Line::Jump { to: 0 })?;
        left -= 1;
    }
    Ok(())
}

/// The next line, so many times more.
#[tactic(auto, using(gen_parts::proofs::Laws::piece_laws, crate::proofs::Starts::start_laws))]
pub fn add_ends(code: &Emitter, count: usize, starts: &mut Vec<u32>) -> Emitted
    ensures { OnOk result (starts.new.items ≡ starts.old.items ++ replicate count (here code.now).line) }
{
    let line = code.next_line()?;
    let mut left = count;
    while left > 0 {
        starts.push(line)?;
        left -= 1;
    }
    Ok(())
}

/// The next line is put behind others, where lines are wanted yet. Gives how many are wanted then.
#[tactic(auto, using(crate::proofs::Marking::mark_laws))]
fn mark_start(code: &Emitter, left: usize, starts: &mut Vec<u32>) -> Result<usize, AllocError>
    ensures wanted { IfOk result (λ n. n ≡ left - 1) }
    ensures marked { OnOk result (starts.new.items ≡ starts.old.items ++ mark left (here code.now).line) }
{
    if left == 0 {
        return Ok(0);
    }
    starts.push(code.next_line()?)?;
    Ok(left - 1)
}

/// Forms in turn, with the lines where the first so many of them begin.
fn others_started<'s, T: Emits>(
    code: &mut Emitter,
    context: &Context<'_, 's>,
    a: u16,
    list: &'s Vec<Box<T>>,
    count: usize,
    starts: &mut Vec<u32>,
) -> Emitted
    ensures code { OnOk result (code.new ≡ with_piece code.old
        (gens.others_in_turn (context_of context.now) (here code.old) a (by.cores_by T.form list.now.items))) }
    ensures starts { OnOk result (starts.new.items ≡ starts.old.items
        ++ gens.starts (context_of context.now) (here code.old) a count (by.cores_by T.form list.now.items)) }
{
    let mut left = count;
    for core in list {
        left = mark_start(code, left, starts)?;
        core.emit(code, context, a)?;
    }
    add_ends(code, left, starts)
}

/// No forms: nil, where all begin and end.
#[tactic(auto, using(gen_parts::proofs::Laws::piece_laws, crate::proofs::Starts::start_laws))]
pub fn none_started(code: &mut Emitter, a: u16, count: usize, starts: &mut Vec<u32>) -> Emitted
    ensures code { OnOk result (code.new ≡ with_piece code.old (does (op.LoadNil a))) }
    ensures starts { OnOk result (starts.new.items ≡ starts.old.items ++ replicate count (here code.old).line) }
{
    add_ends(code, count, starts)?;
    code.does(Operation::LoadNil { a })
}

/// Forms in turn, and nil where there is none, with the lines where the first so many of them begin.
#[tactic(auto, using(gen_parts::proofs::Laws::piece_laws, crate::proofs::Items::list_laws))]
pub fn started<'s, T: Emits>(
    code: &mut Emitter,
    context: &Context<'_, 's>,
    a: u16,
    list: &'s Vec<Box<T>>,
    count: usize,
    starts: &mut Vec<u32>,
) -> Emitted
    ensures code { OnOk result (code.new ≡ with_piece code.old
        (gens.in_turn (context_of context.now) (here code.old) a (by.cores_by T.form list.now.items))) }
    ensures starts { OnOk result (starts.new.items ≡ starts.old.items
        ++ gens.starts (context_of context.now) (here code.old) a count (by.cores_by T.form list.now.items)) }
{
    if list.is_empty() {
        none_started(code, a, count, starts)
    } else {
        others_started(code, context, a, list, count, starts)
    }
}

/// A form that begins with so many defaults of optional parameters: the jumps to them, and the form.
fn with_jumps<'s, T: Emits>(
    code: &mut Emitter,
    context: &Context<'_, 's>,
    a: u16,
    optional: usize,
    core: &'s Box<T>,
) -> Emitted
    requires { 0 < optional }
    ensures { OnOk result (code.new ≡ with_piece code.old
        (opened.with_defaults (context_of context.now) (here code.old) a optional (by.core_by T.form core.now))) }
{
    let jumps = one_more(optional)?;
    let first = code.next_line()?;
    hold_jumps(code, jumps)?;
    let mut starts = Vec::new(context.alloc);
    core.emit_started(code, context, a, jumps, &mut starts)?;
    code.lead(first, starts.as_slice())
}

/// The form of a body with so many optional parameters.
#[tactic(auto, using(gen_parts::proofs::Laws::piece_laws, crate::proofs::Starts::start_laws))]
fn with_defaults<'s, T: Emits>(
    code: &mut Emitter,
    context: &Context<'_, 's>,
    a: u16,
    optional: usize,
    core: &'s Box<T>,
) -> Emitted
    ensures { OnOk result (code.new ≡ with_piece code.old
        (opened.with_defaults (context_of context.now) (here code.old) a optional (by.core_by T.form core.now))) }
{
    if optional == 0 {
        core.emit(code, context, a)
    } else {
        with_jumps(code, context, a, optional, core)
    }
}

/// The form of a body that has parameters, after what ENTER says of them.
fn with_parameters<'s, T: Emits>(
    code: &mut Emitter,
    context: &Context<'_, 's>,
    a: u16,
    body: &'s Body<Box<T>>,
) -> Emitted
    ensures { OnOk result (code.new ≡ with_piece code.old (opened.entered (context_of context.now) (here code.old) a
        kinds.Method (by.body_by T.form body.now))) }
{
    let parameters = entering(&body.parameters)?;
    code.does(Operation::Enter { parameters })?;
    let optional = body.parameters.optional.len();
    with_defaults(code, context, a, optional, &body.form)
}

/// What stands before the form of a body, and the form.
fn enter<'s, T: Emits>(
    code: &mut Emitter,
    context: &Context<'_, 's>,
    a: u16,
    kind: BodyKind,
    body: &'s Body<Box<T>>,
) -> Emitted
    ensures { OnOk result (code.new ≡ with_piece code.old (opened.entered (context_of context.now) (here code.old) a
        kind (by.body_by T.form body.now))) }
{
    match kind {
        BodyKind::Main => body.form.emit(code, context, a),
        BodyKind::Class => body.form.emit(code, context, a),
        BodyKind::Method => with_parameters(code, context, a, body),
        BodyKind::Block => with_parameters(code, context, a, body),
    }
}

/// The instruction that ends a body with the value in the register.
fn end(kind: BodyKind, a: u16) -> Operation
    ensures { result ≡ gens.ends kind a }
{
    match kind {
        BodyKind::Main => Operation::Stop,
        BodyKind::Method | BodyKind::Block | BodyKind::Class => Operation::Return { a },
    }
}

/// The code of a body with that number.
fn emit_body<'s, T: Emits>(
    context: &Context<'_, 's>,
    a: u16,
    kind: BodyKind,
    number: u32,
    body: &'s Body<Box<T>>,
) -> Result<Emitter, AllocError>
    ensures { IfOk result (λ code. code.piece ≡ opened.whole (context_of context.now) a kind number
        (by.body_by T.form body.now)) }
{
    let first = line_after(number, 1)?;
    let mut code = Emitter::new(context.alloc, first);
    enter(&mut code, context, a, kind, body)?;
    code.does(end(kind, a))?;
    Ok(code)
}

/// A body as the forms in it see it.
fn scope_of<'s, T: Emits>(kind: BodyKind, body: &'s Body<Box<T>>) -> Scope<'s>
    ensures kind { result.kind ≡ kind }
    ensures parameters { result.parameters.now ≡ body.now.parameters }
    ensures locals { result.locals.now ≡ body.now.locals.items }
{
    Scope {
        kind,
        parameters: &body.parameters,
        locals: body.locals.as_slice(),
    }
}

/// What stands around the form of a body that sees these scopes.
fn opening<'l, 's>(
    alloc: Global,
    kind: BodyKind,
    scopes: &'l [SlotTable<'s>],
    tally: &'l Tally<'s>,
) -> Context<'l, 's>
    ensures { context_of result ≡ gens.seeing kind scopes.now tally.now }
{
    Context {
        alloc,
        kind,
        scopes,
        tally,
        around: None,
        caught: 0,
        body_start: 0,
    }
}

/// The tally of a body.
fn body_tally<'s, T: Emits>(alloc: Global, body: &'s Body<Box<T>>) -> Result<Tally<'s>, AllocError>
    ensures { IfOk result (λ t. t ≡ counts.form_tally (by.core_by T.form body.now.form)) }
{
    body.form.tally(alloc)
}

/// How many registers the form of a body takes.
fn form_width<T: Emits>(alloc: Global, body: &Body<Box<T>>) -> Result<u64, AllocError>
    ensures { IfOk result (λ w. w ≡ width (by.core_by T.form body.now.form)) }
{
    body.form.width(alloc)
}

/// The layout of a body with that tally.
fn body_layout<T: Emits>(
    alloc: Global,
    kind: BodyKind,
    body: &Body<Box<T>>,
    tally: &Tally,
) -> Result<Layout, AllocError>
    ensures { IfOk result (λ l. l ≡ gens.layout kind (by.body_by T.form body.now) tally.now) }
{
    let scope = scope_of(kind, body);
    let registers = form_width(alloc, body)?;
    layout_of(&scope, tally, registers)
}

/// The slots of a body.
fn slots_of_body<'s, T: Emits>(
    alloc: Global,
    kind: BodyKind,
    body: &'s Body<Box<T>>,
) -> Result<SlotTable<'s>, AllocError>
    ensures { IfOk result (λ slots. slots ≡ slots_of kind (by.body_by T.form body.now)) }
{
    let scope = scope_of(kind, body);
    SlotTable::new(alloc, scope)
}

/// The body of a file from the code of a body, and those in it.
fn finished(alloc: Global, head: Head, tally: &Tally, code: Emitter) -> Result<Bodies, AllocError>
    ensures { IfOk result (λ bodies. bodies ≡
        assembled head (gens.pool_of tally.now) tally.now.symbols code.piece) }
{
    let pool = constant_pool(alloc, tally)?;
    let symbols = symbol_list(alloc, tally)?;
    assemble(alloc, head, pool, symbols, code)
}

/// A body with that number, and those in it.
pub fn bodies_of<'s, T: Emits>(
    alloc: Global,
    scopes: &[SlotTable<'s>],
    kind: BodyKind,
    number: u32,
    body: &'s Body<Box<T>>,
) -> Result<Bodies, AllocError>
    ensures { IfOk result (λ bodies. bodies ≡
        opened.coded kind scopes.now number (by.body_by T.form body.now)) }
{
    let own = slots_of_body(alloc, kind, body)?;
    let seen = scopes_within(alloc, kind, own, scopes)?;
    let tally = body_tally(alloc, body)?;
    let layout = body_layout(alloc, kind, body, &tally)?;
    let context = opening(alloc, kind, seen.as_slice(), &tally);
    let code = emit_body(&context, layout.first, kind, number, body)?;
    finished(alloc, layout.head, &tally, code)
}
