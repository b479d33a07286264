//! Tables of cases as data. A program of rows reads one case a line from its standard input and writes each
//! line again with its answer behind ` => `; the file `stdout` beside it, written by hand, is what must come.
//! An empty line, or one that begins with `#`, is written again as it is.
//!
//! A case is one or more fields, parted by `;;`. Blanks at both ends of a field do not count. In a field `\n`,
//! `\r`, `\t`, `\f`, `\v`, `\s` (a blank) and `\\` are one byte each, `\xHH` is the byte of that hexadecimal
//! number, and `\N{TEXT}` is TEXT, which has no such repetition and no `}` in it, N times over.
#![tactic(auto)]

mod fields;
mod notation;
mod table;

pub use fields::fields_of;
pub use notation::{decoded, escaped};
pub use table::answer_all;

#[cfg(test)]
mod tests;
