ghost use Rattle.std.specs.Prelude.{◌≡◌};
ghost use Rattle.hr_lexer.specs.Shown.{refusal_place, refusal_number};

use std::alloc::AllocError;
use thiserror::Error;

/// Why a text has no items. A place is a number of bytes from the text's start.
#[derive(Debug, Drop, Error)]
pub enum LexError {
    /// The text is longer than 1,048,576 bytes.
    #[error("the text is too long")]
    TooLong,
    /// The first byte that begins no character of UTF-8.
    #[error("byte {place} begins no character")]
    BadUtf8 { place: usize },
    /// Nothing fits at the place, where a nested comment begins that never closes.
    #[error("the comment at byte {place} is not closed")]
    OpenComment { place: usize },
    /// Nothing fits at the place, where an integer above 2^63 - 1 begins.
    #[error("the integer at byte {place} is too great")]
    LiteralTooWide { place: usize },
    /// Nothing else fits at the place.
    #[error("no lexeme begins at byte {place}")]
    BadLexeme { place: usize },
    /// There was no memory.
    #[error("out of memory")]
    Memory(AllocError),
}

impl LexError {
    /// The number by which the refusal is shown; none for want of memory.
    pub fn number(&self) -> Option<u32>
        ensures { result ≡ refusal_number self.now }
    {
        match self {
            LexError::BadUtf8 { .. } => Some(1),
            LexError::BadLexeme { .. } => Some(2),
            LexError::OpenComment { .. } => Some(3),
            LexError::LiteralTooWide { .. } => Some(4),
            LexError::TooLong => Some(5),
            LexError::Memory(_) => None,
        }
    }

    /// Its place; none where the whole text is refused, and for want of memory.
    pub fn place(&self) -> Option<usize>
        ensures { result ≡ refusal_place self.now }
    {
        match self {
            LexError::BadUtf8 { place } => Some(*place),
            LexError::BadLexeme { place } => Some(*place),
            LexError::OpenComment { place } => Some(*place),
            LexError::LiteralTooWide { place } => Some(*place),
            LexError::TooLong => None,
            LexError::Memory(_) => None,
        }
    }
}
