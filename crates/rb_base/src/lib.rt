//! What every other crate stands on: the outside of the program (a source, a sink and files) as traits with
//! counts of faults, their implementations in memory and over the real streams and files, the lists and texts
//! that public types hold, and a counter of steps.
//!
//! Types: [`Source`], [`Sink`], [`Files`], [`Failed`], [`FileError`]; in memory [`MemorySource`], [`MemorySink`],
//! [`MemoryFiles`]; over another sink [`Buffered`]; of the system [`StdSource`], [`StdSink`], [`DiskFiles`]; [`Bytes`], [`List`], [`Steps`].
//! Calls: [`write_all`], and those of the types.
#![tactic(auto)]

pub mod buffered;
mod calls;
pub mod disk_files;
pub mod list;
pub mod memory;
pub mod memory_files;
pub mod outside;
pub mod steps;
pub mod streams;
pub mod writing;

pub use buffered::{Buffered, CAPACITY};
pub use disk_files::DiskFiles;
pub use list::{Bytes, List};
pub use memory::{MemorySink, MemorySource};
pub use memory_files::MemoryFiles;
pub use outside::{Failed, FileError, Files, Sink, Source};
pub use steps::Steps;
pub use streams::{StdSink, StdSource};
pub use writing::write_all;

#[cfg(test)]
mod tests;
