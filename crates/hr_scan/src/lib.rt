//! What stands at which place of a text: its characters in UTF-8, its lines, the columns of a line,
//! and runs of bytes of one class.
#![tactic(auto)]

mod character;
mod column;
mod lines;
mod runs;

pub use character::{Character, cell_len, character_at};
pub use column::columns;
pub use lines::{ends_newline, line_starts};
pub use runs::{ByteClass, run_of};

#[cfg(test)]
mod tests;
