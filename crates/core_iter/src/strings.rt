//! `each_char`, `each_byte` and `each_line` of a String. Characters and lines are those of the text at the start, bytes
//! are read anew at each turn.
ghost use Rattle.std.specs.Prelude.{◌≡◌, drop, Ok, IfOk};
ghost use Rattle.def_plans.specs.Plan.{Plans};
ghost use Rattle.core_iter.specs.Sending.{IsBeat};
ghost use Rattle.core_iter.specs.Stage.{stage_of};
ghost use Rattle.core_iter.specs.Strings as strings;

use crate::iteration::Iteration;
use crate::sending::{call_beat, refuse, with_one};
use rb_base::List;
use rb_value::{CoreClass, ObjId, Value};
use run_rows::VisitRow;
use run_rows::core_calls::{Beat, Plan};
use run_rows::heap::Heap;
use std::alloc::AllocError;

/// A place of a text, the block that is called with what stands there, and the String that is given.
#[derive(Drop)]
pub struct TextWalk {
    pub text: List<u8>,
    pub place: usize,
    pub block: ObjId,
    pub string: ObjId,
}

/// A place of a String, and the block that is called with the byte there.
#[derive(Clone, Copy, Debug)]
pub struct ByteWalk {
    pub string: ObjId,
    pub place: usize,
    pub block: ObjId,
}

/// The call of the block with a new String of the bytes up to an end, which are passed; nothing where there are none.
fn part_beat(heap: &mut Heap, walk: &mut TextWalk, end: usize) -> Result<Option<Beat>, AllocError>
    ensures { IsBeat (strings.part heap.old walk.old end) result walk.new heap.new }
{
    match walk.text.as_slice().get(walk.place..end) {
        Some(bytes) => {
            let part = heap.make_text(bytes)?;
            walk.place = end;
            Ok(Some(with_one(walk.block, part)))
        }
        None => Ok(None),
    }
}

/// The call of the block with the next character.
pub(crate) fn character_beat(
    heap: &mut Heap,
    walk: &mut TextWalk,
) -> Result<Option<Beat>, AllocError>
    ensures { IsBeat (strings.character_beat heap.old walk.old) result walk.new heap.new }
{
    let end = walk.place.saturating_add(1);
    part_beat(heap, walk, end)
}

/// The next character; behind the last one the String is given.
pub(crate) fn character_next(heap: &mut Heap, walk: TextWalk) -> Result<Plan<Iteration>, AllocError>
    ensures { Plans stage_of heap.new result (strings.character_next heap.old walk) }
{
    let mut walk = walk;
    match character_beat(heap, &mut walk)? {
        Some(beat) => call_beat(heap, Iteration::Characters(walk), beat),
        None => Ok(Plan::Finishes(Value::Obj(walk.string))),
    }
}

/// Where the line ends that begins at a place: behind its newline, and at the end of the text where it has none.
#[tactic(auto, unfolding(crate::specs::Strings::line_end))]
fn line_end(text: &[u8], place: usize) -> usize
    ensures { result ≡ strings.line_end place (drop place text.now) }
{
    let mut at = place;
    'bytes: while at < text.len() {
        if text[at] == b'\n' {
            return at + 1;
        }
        at += 1;
    }
    at
}

/// The call of the block with the next line, with its newline.
pub(crate) fn line_beat(heap: &mut Heap, walk: &mut TextWalk) -> Result<Option<Beat>, AllocError>
    ensures { IsBeat (strings.line_beat heap.old walk.old) result walk.new heap.new }
{
    if walk.place >= walk.text.len() {
        return Ok(None);
    }
    let end = line_end(walk.text.as_slice(), walk.place);
    part_beat(heap, walk, end)
}

/// The next line; behind the last one the String is given.
pub(crate) fn line_next(heap: &mut Heap, walk: TextWalk) -> Result<Plan<Iteration>, AllocError>
    ensures { Plans stage_of heap.new result (strings.line_next heap.old walk) }
{
    let mut walk = walk;
    match line_beat(heap, &mut walk)? {
        Some(beat) => call_beat(heap, Iteration::Lines(walk), beat),
        None => Ok(Plan::Finishes(Value::Obj(walk.string))),
    }
}

/// The call of the block with the next byte, as a number.
pub(crate) fn byte_beat(heap: &Heap, walk: &mut ByteWalk) -> Option<Beat>
    ensures { IsBeat (strings.byte_beat heap.now walk.old) (Ok result) walk.new heap.now }
{
    let byte = heap.text(walk.string).get(walk.place).copied()?;
    walk.place = walk.place.saturating_add(1);
    Some(with_one(walk.block, Value::Int(i64::from(byte))))
}

/// The next byte; behind the last one the String is given.
pub(crate) fn byte_next(heap: &Heap, walk: ByteWalk) -> Result<Plan<Iteration>, AllocError>
    ensures { Plans stage_of heap.now result (strings.byte_next heap.now walk) }
{
    let mut walk = walk;
    match byte_beat(heap, &mut walk) {
        Some(beat) => call_beat(heap, Iteration::Bytes(walk), beat),
        None => Ok(Plan::Finishes(Value::Obj(walk.string))),
    }
}

/// A walk over the text of a String, at its beginning.
fn text_walk(heap: &Heap, string: ObjId, block: ObjId) -> Result<TextWalk, AllocError>
    ensures { IfOk result (λ walk. walk ≡ strings.text_walk heap.now.store string block) }
{
    Ok(TextWalk {
        text: List::from_vec(Vec::from_slice(heap.alloc(), heap.text(string))?),
        place: 0,
        block,
        string,
    })
}

/// Begins to walk over a String.
pub(crate) fn begin_string(
    heap: &mut Heap,
    row: VisitRow,
    receiver: Value,
    block: ObjId,
) -> Result<Plan<Iteration>, AllocError>
    ensures { Plans stage_of heap.new result (strings.begin row heap.old receiver block) }
{
    let Some(string) = heap.a_string(receiver) else {
        return Ok(refuse(heap, CoreClass::String, receiver));
    };
    match row {
        VisitRow::EachByte => {
            let walk = ByteWalk {
                string,
                place: 0,
                block,
            };
            byte_next(heap, walk)
        }
        VisitRow::EachLine => {
            let walk = text_walk(heap, string, block)?;
            line_next(heap, walk)
        }
        _ => {
            let walk = text_walk(heap, string, block)?;
            character_next(heap, walk)
        }
    }
}
