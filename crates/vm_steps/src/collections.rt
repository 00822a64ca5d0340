//! Arrays, Strings, Hashes, Ranges and Symbols.
ghost use Rattle.std.specs.Prelude.{◌≡◌, IfOk, codes};
ghost use Rattle.vm_parts.specs.Answering as answering;
ghost use Rattle.vm_parts.specs.Below.changes.{appended};
ghost use Rattle.vm_parts.specs.Beside as beside;
ghost use Rattle.vm_parts.specs.Code.{pool_item};
ghost use Rattle.vm_steps.specs.Collections as collections;

use def_core::Cause;
use rb_value::{ObjId, Value};
use rite_code::PoolItem;
use std::alloc::AllocError;
use vm_parts::exits::after;
use vm_parts::flow::Flow;
use vm_parts::heap::{Given, Heap};
use vm_parts::loaded::Loaded;
use vm_parts::parts::{Parts, behind, put};
use vm_parts::run_rows::iter_items::rows_items::{RowError, put_pair};
use vm_parts::vm_frames::Frame;

/// ARRAY: a new Array of `n` registers from `a` on.
pub fn new_array(
    code: &Loaded,
    hot: &mut Frame,
    parts: &mut Parts,
    a: u16,
    n: u16,
) -> Result<Flow, AllocError>
    ensures { IfOk result (λ flow. collections.ArrayMade (beside.of parts.old) hot.old
        (collections.row (beside.of parts.old) hot.old a n) a flow hot.new (beside.of parts.new)) }
{
    let values = parts.frames.row(hot, a, n)?;
    let array = parts.heap.make_array(values)?;
    put(hot, parts, a, array);
    Ok(Flow::Stays)
}

/// Puts values after the elements of a value that is an Array.
fn append(heap: &mut Heap, array: Option<ObjId>, values: &[Value]) -> Result<Given, AllocError>
    ensures { IfOk result (λ given. answering.ChangesOr array (codes "ARYPUSH")
        (λ id. appended heap.old id values.now) heap.old given heap.new) }
{
    match array {
        Some(id) => {
            heap.append(id, values)?;
            Ok(Given::Gives(Value::Obj(id)))
        }
        None => heap.wrong_value(b"ARYPUSH"),
    }
}

/// ARYPUSH: the Array in register `a` gets the values of the next `n`.
pub fn push_row(
    code: &Loaded,
    hot: &mut Frame,
    parts: &mut Parts,
    a: u16,
    n: u16,
) -> Result<Flow, AllocError>
    ensures { IfOk result (λ flow. answering.Gets code.now (beside.of parts.old) hot.old
        (collections.Appended parts.old.heap (beside.value_at (beside.of parts.old) hot.old a)
        (collections.row (beside.of parts.old) hot.old (beside.next_register a) n)) a flow hot.new
        (beside.of parts.new)) }
{
    let value = parts.get(hot, a);
    let array = parts.heap.an_array(value);
    let first = behind(a);
    let given = append(&mut parts.heap, array, parts.frames.window(hot, first, n))?;
    after(code, hot, parts, given, a)
}

/// ARYCAT: the Array in register `a` gets what a splat of the next one stands for.
pub fn push_splatted(
    code: &Loaded,
    hot: &mut Frame,
    parts: &mut Parts,
    a: u16,
) -> Result<Flow, AllocError>
    ensures { IfOk result (λ flow. answering.Gets code.now (beside.of parts.old) hot.old
        (collections.Splatted parts.old.heap (beside.value_at (beside.of parts.old) hot.old a)
        (beside.value_at (beside.of parts.old) hot.old (beside.next_register a))) a flow hot.new
        (beside.of parts.new)) }
{
    let value = parts.get(hot, behind(a));
    let given = match parts.heap.an_array(parts.get(hot, a)) {
        Some(id) => {
            parts.heap.push_splat(id, value)?;
            Given::Gives(Value::Obj(id))
        }
        None => parts.heap.wrong_value(b"ARYCAT")?,
    };
    after(code, hot, parts, given, a)
}

/// APOST: the elements of register `a` between so many at the front and so many at the end, or the last ones.
pub fn get_rest(
    code: &Loaded,
    hot: &mut Frame,
    parts: &mut Parts,
    a: u16,
    front: u16,
    end: i32,
) -> Result<Flow, AllocError>
    ensures { IfOk result (λ flow. answering.AnswersBy code.now (beside.of parts.old) hot.old
        (collections.rest_of parts.old.heap (beside.value_at (beside.of parts.old) hot.old a) front end) a flow hot.new
        (beside.of parts.new)) }
{
    let value = parts.get(hot, a);
    let front = usize::from(front);
    let count = end.unsigned_abs() as usize;
    let given = if end >= 0 {
        parts.heap.elements_between(value, front, count)?
    } else {
        parts.heap.last_elements(value, front, count)?
    };
    after(code, hot, parts, given, a)
}

/// INTERN: the Symbol whose name the String in register `a` is.
pub fn intern(code: &Loaded, hot: &mut Frame, parts: &mut Parts, a: u16) -> Result<Flow, AllocError>
    ensures { IfOk result (λ flow. answering.AnswersBy code.now (beside.of parts.old) hot.old
        (collections.symbol_of parts.old.heap (beside.value_at (beside.of parts.old) hot.old a)) a flow hot.new
        (beside.of parts.new)) }
{
    let value = parts.get(hot, a);
    let given = parts.heap.make_symbol(value)?;
    after(code, hot, parts, given, a)
}

/// STRING: a new String with a text of the pool.
pub fn new_text(
    code: &Loaded,
    hot: &mut Frame,
    parts: &mut Parts,
    a: u16,
    place: u16,
) -> Result<Flow, AllocError>
    ensures { IfOk result (λ flow. collections.TextMade (pool_item code.now hot.old.body place) (beside.of parts.old)
        hot.old a flow hot.new (beside.of parts.new)) }
{
    match code.pool_item(hot.body, place) {
        Some(PoolItem::Text(text)) => {
            let text = parts.heap.make_text(text.as_slice())?;
            put(hot, parts, a, text);
            Ok(Flow::Stays)
        }
        _ => Ok(Flow::Ends),
    }
}

/// STRCAT: the String in register `a` gets the text of the next one.
pub fn push_text(
    code: &Loaded,
    hot: &mut Frame,
    parts: &mut Parts,
    a: u16,
) -> Result<Flow, AllocError>
    ensures { IfOk result (λ flow. answering.Gets code.now (beside.of parts.old) hot.old
        (collections.TextAppended parts.old.heap (beside.value_at (beside.of parts.old) hot.old a)
        (beside.value_at (beside.of parts.old) hot.old (beside.next_register a))) a flow hot.new
        (beside.of parts.new)) }
{
    let value = parts.get(hot, behind(a));
    let given = match parts.heap.a_string(parts.get(hot, a)) {
        Some(id) => {
            parts.heap.append_text(id, value)?;
            Given::Gives(Value::Obj(id))
        }
        None => parts.heap.wrong_value(b"STRCAT")?,
    };
    after(code, hot, parts, given, a)
}

/// Puts a pair into a Hash; why its key is refused, and then all is as before.
fn add_pair(
    heap: &mut Heap,
    id: ObjId,
    key: Value,
    value: Value,
) -> Result<Option<Cause>, AllocError>
    ensures { IfOk result (λ refused. collections.pair_put id heap.old key value ≡ (refused, heap.new)) }
{
    match put_pair(heap, id, key, value) {
        Ok(()) => Ok(None),
        Err(RowError::Fails(cause)) => Ok(Some(cause)),
        Err(RowError::NoMemory) => Err(AllocError),
    }
}

/// Puts pairs of keys and values, which follow one another, into a Hash; why the first key that is refused is.
fn add_pairs(heap: &mut Heap, id: ObjId, values: &[Value]) -> Result<Option<Cause>, AllocError>
    ensures { IfOk result (λ refused. collections.pairs_put id heap.old values.now ≡ (refused, heap.new)) }
{
    let mut key = None;
    'values: for value in values {
        match key {
            Some(shown) => match add_pair(heap, id, shown, *value)? {
                None => key = None,
                Some(cause) => return Ok(Some(cause)),
            },
            None => key = Some(*value),
        }
    }
    Ok(None)
}

/// Puts pairs into a Hash, which is given, or raises why a key is refused.
fn fill(heap: &mut Heap, id: ObjId, values: &[Value]) -> Result<Given, AllocError>
    ensures { IfOk result (λ given. collections.Filled id (collections.pairs_put id heap.old values.now) given heap.new) }
{
    match add_pairs(heap, id, values)? {
        Some(cause) => heap.fail(cause),
        None => Ok(Given::Gives(Value::Obj(id))),
    }
}

/// A new Hash with pairs.
fn fill_new(heap: &mut Heap, values: &[Value]) -> Result<Given, AllocError>
    ensures { IfOk result (λ given. collections.HashMade heap.old values.now given heap.new) }
{
    match heap.make_hash()? {
        Value::Obj(id) => fill(heap, id, values),
        other => Ok(Given::Gives(other)),
    }
}

/// HASH: a new Hash of `n` pairs of registers from `a` on.
pub fn new_hash(
    code: &Loaded,
    hot: &mut Frame,
    parts: &mut Parts,
    a: u16,
    n: u16,
) -> Result<Flow, AllocError>
    ensures { IfOk result (λ flow. answering.Gets code.now (beside.of parts.old) hot.old (collections.HashMade
        parts.old.heap (collections.row (beside.of parts.old) hot.old a (collections.twice n))) a flow hot.new
        (beside.of parts.new)) }
{
    let count = n.saturating_add(n);
    let given = fill_new(&mut parts.heap, parts.frames.window(hot, a, count))?;
    after(code, hot, parts, given, a)
}

/// HASHADD: the Hash in register `a` gets `n` pairs of the registers behind it.
pub fn push_pairs(
    code: &Loaded,
    hot: &mut Frame,
    parts: &mut Parts,
    a: u16,
    n: u16,
) -> Result<Flow, AllocError>
    ensures { IfOk result (λ flow. answering.Gets code.now (beside.of parts.old) hot.old (collections.PairsAdded
        parts.old.heap (beside.value_at (beside.of parts.old) hot.old a) (collections.row (beside.of parts.old) hot.old
        (beside.next_register a) (collections.twice n))) a flow hot.new (beside.of parts.new)) }
{
    let value = parts.get(hot, a);
    let hash = parts.heap.a_hash(value);
    let first = behind(a);
    let count = n.saturating_add(n);
    let given = match hash {
        Some(id) => fill(&mut parts.heap, id, parts.frames.window(hot, first, count))?,
        None => parts.heap.wrong_value(b"HASHADD")?,
    };
    after(code, hot, parts, given, a)
}

/// RANGE_INC and RANGE_EXC: a Range between registers `a` and `a + 1`.
pub fn new_range(
    code: &Loaded,
    hot: &mut Frame,
    parts: &mut Parts,
    a: u16,
    exclusive: bool,
) -> Result<Flow, AllocError>
    ensures { IfOk result (λ flow. answering.AnswersBy code.now (beside.of parts.old) hot.old
        (collections.range (beside.value_at (beside.of parts.old) hot.old a)
        (beside.value_at (beside.of parts.old) hot.old (beside.next_register a)) exclusive) a flow hot.new
        (beside.of parts.new)) }
{
    let first = parts.get(hot, a);
    let last = parts.get(hot, behind(a));
    let given = parts.heap.make_range(first, last, exclusive)?;
    after(code, hot, parts, given, a)
}
