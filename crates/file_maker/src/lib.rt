//! From a source to its file, through the generator of all forms; and from the bytes of a file to verified code.
//!
//! What becomes of a text, why bytes are refused, and that the code of a program of plain forms implements its source for
//! every input, stands in specs/Making.antt. What is stored and loaded stands in specs/Storing.antt.
//!
//! Types: [`Made`], [`NotMade`]; trait [`OfFiles`]. Calls: [`make_file`], [`check_file`]; [`store_file`], [`load_file`].
#![tactic(auto)]

mod checking;
pub mod disk;
mod made;
mod making;
mod storing;

pub use checking::check_file;
pub use disk::OfFiles;
pub use made::Made;
pub use making::make_file;
pub use storing::{FILE_LIMIT, NotMade, SOURCE_LIMIT, load_file, store_file};
