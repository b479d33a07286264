//! Edits as a case writes them.

use hr_base::{Item, Lexeme, Pos, Seq, Spot};
use hr_draft::Manner;
use hr_edit::Edit;
use hr_lexer::lex;
use hr_rules::Reached;
use std::alloc::{AllocError, Global};

/// The edits of the fields, or none where one isn't in the notation.
pub fn edits_of(
    alloc: Global,
    items: &[Item],
    fields: &[Vec<u8>],
) -> Result<Option<Vec<Edit>>, AllocError> {
    let mut edits = Vec::new(alloc);
    for field in fields {
        let Ok(field) = str::from_utf8(field.as_slice()) else {
            return Ok(None);
        };
        if !add_edits(alloc, &mut edits, items, field)? {
            return Ok(None);
        }
    }
    Ok(Some(edits))
}

/// Adds the edits of a field, if it is in the notation.
fn add_edits(
    alloc: Global,
    edits: &mut Vec<Edit>,
    items: &[Item],
    field: &str,
) -> Result<bool, AllocError> {
    let Some((word, rest)) = field.split_once(' ') else {
        return Ok(false);
    };
    match word {
        "all" => add_respelled(alloc, edits, items, rest),
        "at" => add_respelling(alloc, edits, items, rest),
        "remove" => add_removed(edits, items, rest),
        "before" => add_inserted(alloc, edits, items, rest, false),
        "wrap" => add_inserted(alloc, edits, items, rest, true),
        "replace" => add_replaced(alloc, edits, items, rest),
        _ => Ok(false),
    }
}

/// The lexeme that begins at the position, and what is behind the position.
fn spot_of<'a>(items: &[Item], text: &'a str) -> Option<(Spot, &'a str)> {
    let (place, rest) = text.split_once(' ').unwrap_or((text, ""));
    let (line, col) = place.split_once(':')?;
    let line = line.parse().ok()?;
    let col = col.parse().ok()?;
    let item = number_at(items, Pos { line, col })?;
    Some((Spot { module: 0, item }, rest))
}

/// The number of the lexeme that begins at the position.
fn number_at(items: &[Item], pos: Pos) -> Option<usize> {
    let mut reached = Reached::origin();
    for (number, item) in items.iter().enumerate() {
        reached = reached.behind(item.trivia.as_slice());
        if reached.is_at(pos) {
            return Some(number);
        }
        reached = reached.behind(item.lexeme.text.as_slice());
    }
    None
}

/// The lexemes of a text.
fn lexemes_of(alloc: Global, text: &[u8]) -> Result<Vec<Lexeme>, AllocError> {
    let mut list = Vec::new(alloc);
    if let Ok(items) = lex(alloc, text) {
        for item in items.list.as_slice() {
            list.push(item.lexeme.clone()?)?;
        }
    }
    Ok(list)
}

/// The first lexeme of a text.
pub fn lexeme_of(alloc: Global, text: &[u8]) -> Result<Option<Lexeme>, AllocError> {
    let mut list = lexemes_of(alloc, text)?;
    Ok(list.pop())
}

fn add_respelled(
    alloc: Global,
    edits: &mut Vec<Edit>,
    items: &[Item],
    rest: &str,
) -> Result<bool, AllocError> {
    let Some((old, new)) = rest.split_once(' ') else {
        return Ok(false);
    };
    for (item, found) in items.iter().enumerate() {
        if found.lexeme.text.is(old.as_bytes()) {
            let Some(lexeme) = lexeme_of(alloc, new.as_bytes())? else {
                return Ok(false);
            };
            let spot = Spot { module: 0, item };
            edits.push(Edit::Respell { spot, lexeme })?;
        }
    }
    Ok(true)
}

fn add_respelling(
    alloc: Global,
    edits: &mut Vec<Edit>,
    items: &[Item],
    rest: &str,
) -> Result<bool, AllocError> {
    let Some((spot, new)) = spot_of(items, rest) else {
        return Ok(false);
    };
    let Some(lexeme) = lexeme_of(alloc, new.as_bytes())? else {
        return Ok(false);
    };
    edits.push(Edit::Respell { spot, lexeme })?;
    Ok(true)
}

fn add_removed(edits: &mut Vec<Edit>, items: &[Item], rest: &str) -> Result<bool, AllocError> {
    let Some((from, rest)) = spot_of(items, rest) else {
        return Ok(false);
    };
    let Some((to, _)) = spot_of(items, rest) else {
        return Ok(false);
    };
    edits.push(Edit::Remove { from, to })?;
    Ok(true)
}

fn add_inserted(
    alloc: Global,
    edits: &mut Vec<Edit>,
    items: &[Item],
    rest: &str,
    wraps: bool,
) -> Result<bool, AllocError> {
    let Some((before, rest)) = spot_of(items, rest) else {
        return Ok(false);
    };
    let manner = if wraps {
        Manner::Wrap
    } else {
        Manner::Run { place_of: None }
    };
    let list = lexemes_of(alloc, rest.as_bytes())?;
    edits.push(Edit::Insert {
        before,
        lexemes: Seq { list },
        manner,
    })?;
    Ok(true)
}

fn add_replaced(
    alloc: Global,
    edits: &mut Vec<Edit>,
    items: &[Item],
    rest: &str,
) -> Result<bool, AllocError> {
    let Some((from, rest)) = spot_of(items, rest) else {
        return Ok(false);
    };
    let Some((to, rest)) = spot_of(items, rest) else {
        return Ok(false);
    };
    let list = lexemes_of(alloc, rest.as_bytes())?;
    edits.push(Edit::Insert {
        before: from,
        lexemes: Seq { list },
        manner: Manner::Run {
            place_of: Some(from),
        },
    })?;
    edits.push(Edit::Remove { from, to })?;
    Ok(true)
}
