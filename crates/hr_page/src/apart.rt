//! Whether a lexeme is read as it is before what follows.

use hr_base::Lexeme;
use hr_lexer::{LexError, lex};
use std::alloc::{AllocError, Global};

/// As many bytes behind a lexeme decide whether it is read: it is longer than the exponent of a float or
/// the dot and the letter of a qualified name, in characters of four bytes.
pub const WINDOW: usize = 16;

/// Whether the first thing that is read in the lexeme's text, followed by the rest, is the lexeme.
pub fn separated(alloc: Global, lexeme: &Lexeme, rest: &[u8]) -> Result<bool, AllocError> {
    if let [b' ' | b'\n' | b'\t', ..] | [] = rest {
        return Ok(true);
    }
    let text = lexeme.text.as_slice();
    let mut bytes = Vec::from_slice(alloc, text)?;
    bytes.extend_from_slice(&rest[..WINDOW.min(rest.len())])?;
    begins_with(alloc, bytes.as_slice(), text)
}

/// Whether the first thing that is read in the bytes is this text.
fn begins_with(alloc: Global, bytes: &[u8], text: &[u8]) -> Result<bool, AllocError> {
    match lex(alloc, bytes) {
        Ok(items) => Ok(match items.list.as_slice() {
            [first, ..] => first.trivia.is_empty() && first.lexeme.text.is(text),
            [] => false,
        }),
        Err(LexError::Memory(error)) => Err(error),
        // What stands before the place has been read.
        Err(error) => match error.place() {
            Some(place) if text.len() <= place && place < bytes.len() => {
                begins_with_items(alloc, &bytes[..place], text)
            }
            _ => Ok(false),
        },
    }
}

/// The same of bytes that have items.
fn begins_with_items(alloc: Global, bytes: &[u8], text: &[u8]) -> Result<bool, AllocError> {
    match lex(alloc, bytes) {
        Ok(items) => Ok(match items.list.as_slice() {
            [first, ..] => first.trivia.is_empty() && first.lexeme.text.is(text),
            [] => false,
        }),
        Err(LexError::Memory(error)) => Err(error),
        Err(_) => Ok(false),
    }
}
