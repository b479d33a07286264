use crate::{Notes, Stop};
use hr_base::{Class, Lexeme, Pos, Text};
use hr_layout::Cursor;
use std::alloc::{AllocError, Global};
use thiserror::Error;

/// Why the items of a text have no tree. The position is that of the first lexeme with which no tree can go on, or
/// the end directly behind the last lexeme.
#[derive(Debug, Drop, Error)]
pub enum ParseError {
    #[error("no tree goes on here")]
    Syntax { pos: Pos },
    #[error("the tree nests deeper than 256")]
    TooDeep { pos: Pos },
    /// A lexeme of a construct that is left out of the language.
    #[error("a construct that is left out begins here")]
    OutOfProfile { construct: Text, pos: Pos },
    #[error("out of memory")]
    Memory(AllocError),
}

/// The refusal at the cursor, which stands at the lexeme that is refused.
pub fn refusal(alloc: Global, cursor: &Cursor, notes: &Notes, stop: Stop) -> ParseError {
    let pos = cursor.pos();
    match stop {
        Stop::TooDeep => ParseError::TooDeep { pos },
        Stop::Memory(error) => ParseError::Memory(error),
        Stop::Syntax => match cursor.peek() {
            Some(lexeme) if is_left_out(lexeme) || notes.leave_out(lexeme, pos) => {
                out_of_profile(alloc, lexeme, pos)
            }
            _ => ParseError::Syntax { pos },
        },
        Stop::LeftOut => match cursor.peek() {
            Some(lexeme) => out_of_profile(alloc, lexeme, pos),
            None => ParseError::Syntax { pos },
        },
    }
}

fn out_of_profile(alloc: Global, lexeme: &Lexeme, pos: Pos) -> ParseError {
    match Text::from_slice(alloc, lexeme.text.as_slice()) {
        Ok(construct) => ParseError::OutOfProfile { construct, pos },
        Err(error) => ParseError::Memory(error),
    }
}

/// Whether the lexeme belongs to a construct that is left out, wherever it stands: classes, instances, defaults,
/// `deriving`, `do`, contexts and floats.
fn is_left_out(lexeme: &Lexeme) -> bool {
    let text = lexeme.text.as_slice();
    match lexeme.class {
        Class::ReservedId => is_word_left_out(text),
        Class::ReservedOp => matches!(text, b"=>"),
        Class::Float => true,
        _ => false,
    }
}

fn is_word_left_out(text: &[u8]) -> bool {
    matches!(
        text,
        b"class" | b"instance" | b"default" | b"deriving" | b"do"
    )
}
