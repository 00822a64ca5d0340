//! Values as texts: Integers in decimal, `n`, `t` and `f`, Strings in single quotes, Arrays in brackets, the keys and
//! values of a Hash in turn in braces, and the ends of a Range in parentheses, or in angles where the last is left out.
use heap::{Given, Heap};
use rb_value::{ObjId, RangeEnds, Sort, Value};
use std::alloc::AllocError;
use std::mem;

/// What was read: the values of the lists that are open, the innermost in a place of its own, and the Integer or String
/// that is being read.
#[derive(Drop)]
struct Reader {
    outer: Vec<Vec<Value>>,
    values: Vec<Value>,
    number: Option<i64>,
    negative: bool,
    text: Option<Vec<u8>>,
}

/// The value at a place; nil outside.
fn at(values: &[Value], place: usize) -> Value {
    values.get(place).copied().unwrap_or(Value::Nil)
}

/// A new Hash of keys and values in turn.
fn hash_of(heap: &mut Heap, values: &[Value]) -> Result<Value, AllocError> {
    let hash = heap.make_hash()?;
    if let Value::Obj(id) = hash {
        for pair in values.chunks(2) {
            heap.put_pair(id, at(pair, 0), at(pair, 1))?;
        }
    }
    Ok(hash)
}

/// A new Range of two ends.
fn range_of(heap: &mut Heap, values: &[Value], exclusive: bool) -> Result<Value, AllocError> {
    match heap.make_range(at(values, 0), at(values, 1), exclusive)? {
        Given::Gives(value) => Ok(value),
        Given::Raises(_) => Ok(Value::Nil),
    }
}

/// What a list becomes at the byte that ends it.
fn closed(heap: &mut Heap, end: u8, values: Vec<Value>) -> Result<Value, AllocError> {
    match end {
        b'}' => hash_of(heap, &values),
        b')' => range_of(heap, &values, false),
        b'>' => range_of(heap, &values, true),
        _ => heap.make_array(values),
    }
}

impl Reader {
    /// Ends an Integer that is being read.
    fn end_number(&mut self) -> Result<(), AllocError> {
        if let Some(number) = self.number {
            let number = if self.negative {
                number.wrapping_neg()
            } else {
                number
            };
            self.values.push(Value::Int(number))?;
        }
        self.number = None;
        self.negative = false;
        Ok(())
    }

    /// Starts a list.
    fn start(&mut self, heap: &Heap) -> Result<(), AllocError> {
        let before = mem::replace(&mut self.values, Vec::new(heap.alloc()));
        self.outer.push(before)?;
        Ok(())
    }

    /// Ends a list.
    fn end(&mut self, heap: &mut Heap, byte: u8) -> Result<(), AllocError> {
        let before = self.outer.pop().unwrap_or(Vec::new(heap.alloc()));
        let values = mem::replace(&mut self.values, before);
        let value = closed(heap, byte, values)?;
        self.values.push(value)?;
        Ok(())
    }

    /// Reads a byte outside a String.
    fn plain(&mut self, heap: &mut Heap, byte: u8) -> Result<(), AllocError> {
        if byte.is_ascii_digit() {
            let digit = i64::from(byte).saturating_sub(48);
            let before = self.number.unwrap_or(0);
            self.number = Some(before.saturating_mul(10).saturating_add(digit));
            return Ok(());
        }
        self.end_number()?;
        match byte {
            b'-' => self.negative = true,
            b'n' => self.values.push(Value::Nil)?,
            b't' => self.values.push(Value::True)?,
            b'f' => self.values.push(Value::False)?,
            b'\'' => self.text = Some(Vec::new(heap.alloc())),
            b'[' | b'{' | b'(' | b'<' => self.start(heap)?,
            b']' | b'}' | b')' | b'>' => self.end(heap, byte)?,
            _ => {}
        }
        Ok(())
    }

    /// Reads a byte.
    fn byte(&mut self, heap: &mut Heap, byte: u8) -> Result<(), AllocError> {
        match self.text.take() {
            Some(text) if byte == b'\'' => {
                let value = heap.make_string(text)?;
                self.values.push(value)?;
            }
            Some(mut text) => {
                text.push(byte)?;
                self.text = Some(text);
            }
            None => self.plain(heap, byte)?,
        }
        Ok(())
    }
}

/// The values of a text.
pub(super) fn read(heap: &mut Heap, text: &[u8]) -> Result<Vec<Value>, AllocError> {
    let mut reader = Reader {
        outer: Vec::new(heap.alloc()),
        values: Vec::new(heap.alloc()),
        number: None,
        negative: false,
        text: None,
    };
    for byte in text {
        reader.byte(heap, *byte)?;
    }
    reader.end_number()?;
    Ok(reader.values)
}

/// What is still to be written: a byte, or a value.
#[derive(Clone, Copy)]
enum Piece {
    Byte(u8),
    Value(Value),
}

/// Puts the pieces of a list before those that are still to be written, the last first.
fn put_list(
    pieces: &mut Vec<Piece>,
    values: &[Value],
    start: u8,
    end: u8,
) -> Result<(), AllocError> {
    pieces.push(Piece::Byte(end))?;
    for (place, value) in values.iter().enumerate().rev() {
        pieces.push(Piece::Value(*value))?;
        if place > 0 {
            pieces.push(Piece::Byte(b' '))?;
        }
    }
    pieces.push(Piece::Byte(start))?;
    Ok(())
}

/// Keys and values of a Hash in turn.
fn pairs_of(heap: &Heap, id: ObjId) -> Result<Vec<Value>, AllocError> {
    let mut values = Vec::new(heap.alloc());
    for place in 0..heap.pair_count(id) {
        if let Some(pair) = heap.pair_at(id, place) {
            values.push(pair.shown)?;
            values.push(pair.value)?;
        }
    }
    Ok(values)
}

/// Puts the pieces of an object before those that are still to be written.
fn put_object(
    heap: &Heap,
    pieces: &mut Vec<Piece>,
    text: &mut Vec<u8>,
    id: ObjId,
) -> Result<(), AllocError> {
    match heap.sort(Value::Obj(id)) {
        Some(Sort::Array) => put_list(pieces, heap.elements(id), b'[', b']'),
        Some(Sort::Hash) => {
            let values = pairs_of(heap, id)?;
            put_list(pieces, &values, b'{', b'}')
        }
        Some(Sort::String) => {
            text.push(b'\'')?;
            text.extend_from_slice(heap.text(id))?;
            Ok(text.push(b'\'')?)
        }
        Some(Sort::Range) => put_ends(heap, pieces, text, id),
        _ => Ok(text.push(b'?')?),
    }
}

/// Writes the ends of a Range of Strings.
fn put_letters(text: &mut Vec<u8>, first: u8, last: u8, ends: [u8; 2]) -> Result<(), AllocError> {
    text.extend_from_slice(&[
        ends[0], b'\'', first, b'\'', b' ', b'\'', last, b'\'', ends[1],
    ])
}

/// Writes a Range, or puts its ends before the pieces that are still to be written.
fn put_ends(
    heap: &Heap,
    pieces: &mut Vec<Piece>,
    text: &mut Vec<u8>,
    id: ObjId,
) -> Result<(), AllocError> {
    let Some(contents) = heap.range_of(Value::Obj(id)) else {
        return Ok(());
    };
    let ends = if contents.exclusive { *b"<>" } else { *b"()" };
    match contents.ends {
        RangeEnds::Integers { first, last } => {
            put_list(
                pieces,
                &[Value::Int(first), Value::Int(last)],
                ends[0],
                ends[1],
            )
        }
        RangeEnds::Bytes { first, last } => put_letters(text, first, last, ends),
    }
}

/// Writes a value, or puts its pieces before those that are still to be written.
fn put_value(
    heap: &Heap,
    pieces: &mut Vec<Piece>,
    text: &mut Vec<u8>,
    value: Value,
) -> Result<(), AllocError> {
    match value {
        Value::Nil => Ok(text.push(b'n')?),
        Value::True => Ok(text.push(b't')?),
        Value::False => Ok(text.push(b'f')?),
        Value::Sym(name) => text.extend_from_slice(heap.symbol_name(name)),
        Value::Int(number) => {
            let digits = format!(in heap.alloc(); "{number}")?;
            text.extend_from_slice(digits.as_bytes())
        }
        Value::Obj(id) => put_object(heap, pieces, text, id),
    }
}

/// The text of a value.
pub(super) fn shown(heap: &Heap, value: Value) -> Result<Vec<u8>, AllocError> {
    let mut text = Vec::new(heap.alloc());
    let mut pieces = Vec::new(heap.alloc());
    pieces.push(Piece::Value(value))?;
    for _ in 0..1_000_000 {
        match pieces.pop() {
            Some(Piece::Byte(byte)) => text.push(byte)?,
            Some(Piece::Value(value)) => put_value(heap, &mut pieces, &mut text, value)?,
            None => return Ok(text),
        }
    }
    Ok(text)
}
