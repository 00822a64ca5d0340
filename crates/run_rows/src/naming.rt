//! The methods that iterations of the language give to classes, by their names.

ghost use Rattle.std.specs.Prelude.{◌≡◌, map};
ghost use Rattle.run_rows.specs.Named as named;

use crate::row::{KernelRow, VisitRow};

const KERNEL: [(&[u8], KernelRow); 11] = [
    (b"puts", KernelRow::Puts),
    (b"print", KernelRow::Print),
    (b"p", KernelRow::Inspect),
    (b"gets", KernelRow::Gets),
    (b"raise", KernelRow::Raise),
    (b"loop", KernelRow::Loop),
    (b"send", KernelRow::Send),
    (b"__send__", KernelRow::Send),
    (b"public_send", KernelRow::PublicSend),
    (b"tap", KernelRow::Tap),
    (b"then", KernelRow::Then),
];

const CLASS: [(&[u8], KernelRow); 1] = [(b"new", KernelRow::NewObject)];

const PROC: [(&[u8], KernelRow); 4] = [
    (b"call", KernelRow::CallProc),
    (b"[]", KernelRow::CallProc),
    (b"yield", KernelRow::CallProc),
    (b"===", KernelRow::CallProc),
];

const FIBER: [(&[u8], KernelRow); 1] = [(b"resume", KernelRow::Resume)];

const FIBER_CLASS: [(&[u8], KernelRow); 1] = [(b"yield", KernelRow::Yield)];

const EXCEPTION: [(&[u8], KernelRow); 2] = [
    (b"message", KernelRow::Message),
    (b"inspect", KernelRow::InspectException),
];

const INTEGER: [(&[u8], VisitRow); 4] = [
    (b"times", VisitRow::Times),
    (b"upto", VisitRow::Upto),
    (b"downto", VisitRow::Downto),
    (b"step", VisitRow::Step),
];

const STRING: [(&[u8], VisitRow); 3] = [
    (b"each_char", VisitRow::EachCharacter),
    (b"each_byte", VisitRow::EachByte),
    (b"each_line", VisitRow::EachLine),
];

const ARRAY: [(&[u8], VisitRow); 5] = [
    (b"initialize", VisitRow::InitializeArray),
    (b"each", VisitRow::EachElement),
    (b"each_index", VisitRow::EachIndex),
    (b"map!", VisitRow::MapInPlace),
    (b"delete_if", VisitRow::DeleteElements),
];

const HASH: [(&[u8], VisitRow); 6] = [
    (b"initialize", VisitRow::InitializeHash),
    (b"each", VisitRow::EachPair),
    (b"each_pair", VisitRow::EachPair),
    (b"each_key", VisitRow::EachKey),
    (b"each_value", VisitRow::EachValue),
    (b"delete_if", VisitRow::DeletePairs),
];

const RANGE: [(&[u8], VisitRow); 2] = [
    (b"each", VisitRow::EachOfRange),
    (b"step", VisitRow::StepOfRange),
];

/// The methods of a segment that write, read, send, make objects, call Procs, move between fibers and ask exceptions.
#[tactic(auto, unfolding(crate::specs::Named::kernel_rows, crate::specs::Named::class_rows, crate::specs::Named::proc_rows, crate::specs::Named::fiber_rows, crate::specs::Named::fiber_class_rows, crate::specs::Named::exception_rows))]
pub fn kernel_rows(segment: u16) -> &'static [(&'static [u8], KernelRow)]
    ensures { map (λ r. (r.0.now, r.1)) result.now ≡ named.kernel segment }
{
    match segment {
        2 => &KERNEL,
        6 => &CLASS,
        32 => &PROC,
        34 => &FIBER,
        35 => &FIBER_CLASS,
        40 => &EXCEPTION,
        _ => &[],
    }
}

/// The methods of a segment that call a block for each item, and those that fill a new object.
#[tactic(auto, unfolding(crate::specs::Named::integer_rows, crate::specs::Named::string_rows, crate::specs::Named::array_rows, crate::specs::Named::hash_rows, crate::specs::Named::range_rows))]
pub fn visit_rows(segment: u16) -> &'static [(&'static [u8], VisitRow)]
    ensures { map (λ r. (r.0.now, r.1)) result.now ≡ named.visits segment }
{
    match segment {
        14 => &INTEGER,
        22 => &STRING,
        26 => &ARRAY,
        28 => &HASH,
        30 => &RANGE,
        _ => &[],
    }
}
