//! Single lexemes.
ghost use Rattle.std.specs.Prelude.{◌≡◌, true, IfOk};
ghost use Rattle.hr_parse_lexeme.specs.Marks.{IsMark};
ghost use Rattle.hr_parse_lexeme.specs.Sorts.{IsSort};
ghost use Rattle.hr_parse_lexeme.specs.Reads.{Accepts, IsAhead, Takes};

use crate::{Mark, Sort, Stop};
use hr_base::Item;
use hr_layout::Cursor;

/// Whether the next lexeme goes on and is the mark.
pub fn is_next(cursor: &Cursor, mark: Mark) -> bool
    ensures { result ≡ true → IsAhead (IsMark mark) cursor.now.blocks cursor.now.rest }
{
    match cursor.ahead() {
        None => false,
        Some(lexeme) => mark.is(lexeme),
    }
}

/// Whether the next lexeme goes on and is of the sort.
pub fn is_sort_next(cursor: &Cursor, sort: Sort) -> bool
    ensures { result ≡ true → IsAhead (IsSort sort) cursor.now.blocks cursor.now.rest }
{
    match cursor.ahead() {
        None => false,
        Some(lexeme) => sort.has(lexeme),
    }
}

/// Takes the next lexeme, if it goes on and is the mark.
pub fn accept(cursor: &mut Cursor, mark: Mark) -> Option<Item>
    ensures { Accepts (IsMark mark) result cursor.old cursor.new }
{
    if is_next(cursor, mark) {
        cursor.take()
    } else {
        None
    }
}

/// Takes the next lexeme, if it goes on and is of the sort.
pub fn accept_sort(cursor: &mut Cursor, sort: Sort) -> Option<Item>
    ensures { Accepts (IsSort sort) result cursor.old cursor.new }
{
    if is_sort_next(cursor, sort) {
        cursor.take()
    } else {
        None
    }
}

/// Takes the next lexeme, which has to go on and to be the mark.
pub fn expect(cursor: &mut Cursor, mark: Mark) -> Result<Item, Stop>
    ensures { IfOk result (λ item. Takes (IsMark mark) item cursor.old cursor.new) }
{
    match accept(cursor, mark) {
        None => Err(Stop::Syntax),
        Some(item) => Ok(item),
    }
}

/// Takes the next lexeme, which has to go on and to be of the sort.
pub fn expect_sort(cursor: &mut Cursor, sort: Sort) -> Result<Item, Stop>
    ensures { IfOk result (λ item. Takes (IsSort sort) item cursor.old cursor.new) }
{
    match accept_sort(cursor, sort) {
        None => Err(Stop::Syntax),
        Some(item) => Ok(item),
    }
}
