//! The outside of the refactorer: files by name, and a sink for the report.
#![tactic(auto)]

mod calls;
mod entries;
mod file_shelf;
mod memory_shelf;
mod memory_sink;
mod outside;
mod ready_names;
mod replacing;
mod seen;
mod std_sink;
mod stream;

pub use file_shelf::FileShelf;
pub use memory_shelf::MemoryShelf;
pub use memory_sink::MemorySink;
pub use outside::{Failed, ReadError, Shelf, Sink};
pub use std_sink::StdSink;

#[cfg(test)]
mod tests;
