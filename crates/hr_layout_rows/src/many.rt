//! Many lexemes, and many blocks that are open at once.

use crate::shown;
use hr_base::Ending;
use hr_layout::{Cursor, Opened};
use std::alloc::{AllocError, Global};

/// More items than a text of the greatest size has.
const MOST: u32 = 2_000_000;

const APPLIED: Ending = Ending::Applied {
    where_free: true,
    guarded: false,
};

/// Takes all items and opens a block behind each `let`; then closes what ends at the end.
pub fn answer(alloc: Global, mut cursor: Cursor) -> Result<Option<String>, AllocError> {
    let mut taken = 0_u32;
    let mut opened = 0_u32;
    for _ in 0..MOST {
        let Some(item) = cursor.take() else {
            break;
        };
        taken = taken.saturating_add(1);
        if item.lexeme.text.is(b"let") {
            if let Opened::Implicit { .. } = cursor.open()? {
                opened = opened.saturating_add(1);
            }
            cursor.begin();
        }
    }
    let place = shown::place(alloc, cursor.pos())?;
    let closed = close_all(&mut cursor);
    let said = format!(in alloc; "{taken} items to {place}, {opened} opened, {closed} closed")?;
    Ok(Some(said))
}

/// How many blocks end at the end of the items.
fn close_all(cursor: &mut Cursor) -> u32 {
    let mut closed = 0_u32;
    for _ in 0..MOST {
        if !cursor.close(APPLIED) {
            break;
        }
        closed = closed.saturating_add(1);
    }
    closed
}
