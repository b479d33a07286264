//! Trivia whose lexeme goes to another column of its line.

use hr_rules::{Kind, Reached, kind_of};
use std::str;

/// The number of bytes of blanks and comments before the blanks that they end with, the newlines not among
/// these.
pub fn front_len(trivia: &[u8]) -> usize {
    let Ok(text) = str::from_utf8(trivia) else {
        return trivia.len();
    };
    let mut front = 0usize;
    let mut place = 0usize;
    for character in text.chars() {
        place = place.saturating_add(character.len_utf8());
        if kind_of(character) != Kind::Blank {
            front = place;
        }
    }
    front
}

/// How a lexeme comes to a column: behind so many bytes of its trivia, on a new line or not, behind so many
/// spaces.
#[derive(Clone, Copy, Debug, PartialEq, Eq)]
pub struct Indent {
    pub front: usize,
    pub breaks: bool,
    pub spaces: u64,
}

/// The indent for trivia that stands behind `reached`, before a lexeme that goes to the column. A comment that ends at
/// the column or right of it gets a line of its own.
pub fn indent_to(reached: Reached, trivia: &[u8], column: u64) -> Indent {
    let front = front_len(trivia).min(trivia.len());
    let behind = reached.behind(&trivia[..front]).col;
    if behind <= column {
        Indent {
            front,
            breaks: false,
            spaces: column - behind,
        }
    } else {
        Indent {
            front,
            breaks: true,
            spaces: column.saturating_sub(1),
        }
    }
}
