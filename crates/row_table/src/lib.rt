//! The table of the core methods: of each row the method, its name and what it takes. Nothing here says what a method
//! gives.
//!
//! The rows stand in segments, one for the methods of a class and one for those of its class object. The number of a
//! row is that of its segment times 256 and its place there, so a further segment changes no number.
//!
//! Types: [`Line`] with [`CoreRow`] and [`Signature`]; one enum of methods for each segment. Calls: [`line_at`], [`names`], of the
//! [`SEGMENTS`].
#![tactic(auto)]

// The rows of a segment: the method, its name, at least and at most so many arguments, where none stands for no bound,
// whether it needs a block and opens an activation, and what is wanted of the first, the second and each further one.
macro_rules! lines {
    ($segment:ident $methods:ident $receiver:expr; $($method:ident $name:literal $least:literal $most:expr, $marks:expr, $first:expr, $second:expr;)*) => {
        [$(Line {
            row: CoreRow::$segment($methods::$method),
            signature: Signature {
                least: $least,
                most: $most,
                marks: $marks,
                receiver: $receiver,
                first: $first,
                second: $second,
            },
        }),*]
    };
}

macro_rules! names {
    ($segment:ident $methods:ident $receiver:expr; $($method:ident $name:literal $least:literal $most:expr, $marks:expr, $first:expr, $second:expr;)*) => {
        [$($name),*]
    };
}

pub mod integer;
pub mod line;
pub mod range;
pub mod signature;
pub mod string;
pub mod symbol;
pub mod table;
pub mod truth;

pub use integer::IntegerMethod;
pub use line::{CoreRow, Line};
pub use range::{RangeClassMethod, RangeMethod};
pub use signature::{Marks, Signature, Wanted};
pub use string::{StringClassMethod, StringMethod};
pub use symbol::SymbolMethod;
pub use table::{SEGMENTS, line_at, names};
pub use truth::{NilMethod, TruthMethod};
