//! How answers are shown.

use hr_base::Pos;
use hr_layout::Opened;
use std::alloc::{AllocError, Global};

/// Writes the word, behind a blank where others stand before it, and each newline as a blank.
pub fn push_word(said: &mut String, word: &[u8]) -> Result<(), AllocError> {
    if !said.is_empty() {
        said.push(' ')?;
    }
    for byte in word {
        said.push(if *byte == b'\n' {
            ' '
        } else {
            char::from(*byte)
        })?;
    }
    Ok(())
}

pub fn yes(alloc: Global, answer: bool) -> Result<String, AllocError> {
    String::from_str(alloc, if answer { "yes" } else { "no" })
}

pub fn opened(alloc: Global, how: Opened) -> Result<String, AllocError> {
    match how {
        Opened::Implicit { col } => format!(in alloc; "implicit {col}"),
        Opened::Explicit => String::from_str(alloc, "explicit"),
        Opened::Empty => String::from_str(alloc, "empty"),
    }
}

pub fn place(alloc: Global, pos: Pos) -> Result<String, AllocError> {
    let Pos { line, col } = pos;
    format!(in alloc; "{line}:{col}")
}
