//! Calls of a cursor, by words.

use crate::{endings, shown};
use hr_base::Ending;
use hr_layout::Cursor;
use std::alloc::{AllocError, Global};

/// The answers of the calls, or none where a word is no call.
pub fn answers(
    alloc: Global,
    mut cursor: Cursor,
    calls: &[u8],
) -> Result<Option<String>, AllocError> {
    let Ok(calls) = str::from_utf8(calls) else {
        return Ok(None);
    };
    let mut said = String::new(alloc);
    for call in calls.split(' ') {
        let answer = match call.parse::<u32>() {
            Ok(count) => taken(alloc, &mut cursor, count)?,
            Err(_) => match called(alloc, &mut cursor, call)? {
                Some(answer) => answer,
                None => return Ok(None),
            },
        };
        if !said.is_empty() && !answer.is_empty() {
            said.push_str(", ")?;
        }
        said.push_str(answer.as_str())?;
    }
    Ok(Some(said))
}

/// The next lexemes, which are taken; `torn` for one that was seen ahead and isn't taken.
fn taken(alloc: Global, cursor: &mut Cursor, count: u32) -> Result<String, AllocError> {
    let mut said = String::new(alloc);
    for _ in 0..count {
        let is_next = cursor.peek().is_some();
        match cursor.take() {
            Some(item) => shown::push_word(&mut said, item.lexeme.text.as_slice())?,
            None => shown::push_word(&mut said, if is_next { b"torn" } else { b"end" })?,
        }
    }
    Ok(said)
}

fn called(alloc: Global, cursor: &mut Cursor, call: &str) -> Result<Option<String>, AllocError> {
    let (name, ending) = call.split_once(':').unwrap_or((call, "nothing"));
    let Some(ending) = endings::named(ending) else {
        return Ok(None);
    };
    Ok(Some(match name {
        "body" => shown::opened(alloc, cursor.open_body()?)?,
        "open" => shown::opened(alloc, cursor.open()?)?,
        "at_item" => shown::yes(alloc, cursor.at_item())?,
        "starts" => shown::yes(alloc, cursor.starts_part(ending))?,
        "goes_on" => goes_on(alloc, cursor)?,
        "close" => close(alloc, cursor, ending)?,
        "pos" => shown::place(alloc, cursor.pos())?,
        "begin" => {
            cursor.begin();
            String::new(alloc)
        }
        "leave" => {
            cursor.leave();
            String::new(alloc)
        }
        _ => return Ok(None),
    }))
}

/// Whether the next lexeme goes on; `torn` where `ahead` says otherwise.
fn goes_on(alloc: Global, cursor: &Cursor) -> Result<String, AllocError> {
    let answer = cursor.goes_on();
    if cursor.ahead().is_some() == answer {
        shown::yes(alloc, answer)
    } else {
        String::from_str(alloc, "torn")
    }
}

/// Whether the block ends, which is then left; `torn` where `ends` says otherwise.
fn close(alloc: Global, cursor: &mut Cursor, ending: Ending) -> Result<String, AllocError> {
    let ends = cursor.ends(ending);
    if cursor.close(ending) == ends {
        shown::yes(alloc, ends)
    } else {
        String::from_str(alloc, "torn")
    }
}
