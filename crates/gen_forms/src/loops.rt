//! Loops.
ghost use Rattle.std.specs.Prelude.{◌≡◌, true, false, OnOk};
ghost use Rattle.ir_core.specs.PartsBy as by;
ghost use Rattle.ir_core.specs.CoreForm as form;
ghost use Rattle.gen_parts.specs.Emission.{with_piece, here};
ghost use Rattle.gen_forms.specs.Open as opened;
ghost use Rattle.gen_forms.specs.Gen.{gen};
ghost use Rattle.gen_forms.specs.Around.{context_of};

use crate::context::{Context, Loop};
use crate::emits::{Emits, Emitted};
use crate::numbers::line_after;
use gen_parts::{Emitter, Held, Line};
use rite_code::Operation;

/// A test, and where it is true a body and a jump to the line.
fn test_and_body<'s, T: Emits>(
    code: &mut Emitter,
    context: &Context<'_, 's>,
    a: u16,
    test: &'s Box<T>,
    body: &'s Box<T>,
    to: u32,
) -> Emitted
    ensures { OnOk result (code.new ≡ with_piece code.old
        (opened.test_and_body (context_of context.now) (here code.old) a
        (by.core_by T.form test.now) (by.core_by T.form body.now) to)) }
{
    test.emit(code, context, a)?;
    let over = code.hold(Held::JumpNot(a))?;
    body.emit(code, context, a)?;
    code.put(Line::Jump { to })?;
    code.land(over, Held::JumpNot(a))
}

/// A loop whose test comes before its body. The jump after the first leads out of the loop; a break leads to it.
pub fn test_first<'s, T: Emits>(
    code: &mut Emitter,
    context: &Context<'_, 's>,
    a: u16,
    test: &'s Box<T>,
    body: &'s Box<T>,
) -> Emitted
    ensures { OnOk result (code.new ≡ with_piece code.old
        (gen (context_of context.now) (here code.old) a
        (form.while_form false (by.core_by T.form test.now) (by.core_by T.form body.now)))) }
{
    let first = code.hold(Held::Jump)?;
    let out = code.hold(Held::Jump)?;
    code.land(first, Held::Jump)?;
    let round = code.next_line()?;
    let inside = context.within_loop(Loop {
        value: a,
        out,
        round,
    });
    test_and_body(code, &inside, a, test, body, round)?;
    code.does(Operation::LoadNil { a })?;
    code.land(out, Held::Jump)
}

/// A body, and the test behind it, to which the jump at the line leads: where it is true a jump to the body.
fn body_and_test<'s, T: Emits>(
    code: &mut Emitter,
    context: &Context<'_, 's>,
    a: u16,
    test: &'s Box<T>,
    body: &'s Box<T>,
) -> Emitted
    ensures { OnOk result (code.new ≡ with_piece code.old
        (opened.body_and_test (context_of context.now) (here code.old) a
        (by.core_by T.form test.now) (by.core_by T.form body.now))) }
{
    let round = code.hold(Held::Jump)?;
    let to = code.next_line()?;
    body.emit(code, context, a)?;
    code.land(round, Held::Jump)?;
    test.emit(code, context, a)?;
    code.put(Line::JumpIf { register: a, to })
}

/// A loop whose body comes before its test. The two jumps after the first lead out of the loop and to its test; a break
/// and a next lead to them.
#[tactic(auto, using(gen_parts::proofs::Laws::piece_laws, crate::proofs::LoopLines::loop_laws))]
pub fn body_first<'s, T: Emits>(
    code: &mut Emitter,
    context: &Context<'_, 's>,
    a: u16,
    test: &'s Box<T>,
    body: &'s Box<T>,
) -> Emitted
    ensures { OnOk result (code.new ≡ with_piece code.old
        (gen (context_of context.now) (here code.old) a
        (form.while_form true (by.core_by T.form test.now) (by.core_by T.form body.now)))) }
{
    let first = code.next_line()?;
    let start = line_after(first, 3)?;
    code.put(Line::Jump { to: start })?;
    let out = code.hold(Held::Jump)?;
    let round = code.next_line()?;
    let inside = context.within_loop(Loop {
        value: a,
        out,
        round,
    });
    body_and_test(code, &inside, a, test, body)?;
    code.does(Operation::LoadNil { a })?;
    code.land(out, Held::Jump)
}
