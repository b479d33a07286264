//! Words before a block: the block behind an `of` has alternatives, and that behind any other word declarations.

use hr_base::Item;
use hr_layout::Cursor;
use hr_parse_lexeme::{Mark, Stop, is_next};
use hr_parse_pattern::past;

/// Takes the word before a block of declarations.
pub fn before_block(cursor: &mut Cursor, mark: Mark) -> Result<Item, Stop> {
    if !is_next(cursor, mark) {
        return Err(Stop::Syntax);
    }
    past(cursor)
}

/// Takes the word before a block of declarations, if it is there.
pub fn accept_before_block(cursor: &mut Cursor, mark: Mark) -> Option<Item> {
    if is_next(cursor, mark) {
        cursor.take()
    } else {
        None
    }
}

/// Takes the `of` before a block of alternatives.
pub fn before_alternatives(cursor: &mut Cursor) -> Result<Item, Stop> {
    if !is_next(cursor, Mark::Of) {
        return Err(Stop::Syntax);
    }
    past(cursor)
}
