//! Blocks as a case writes them.

use hr_draft::BlockSpan;
use std::alloc::{AllocError, Global};

/// The blocks of a field, or none where one isn't in the notation.
pub fn spans_of(alloc: Global, field: &[u8]) -> Result<Option<Vec<BlockSpan>>, AllocError> {
    let mut spans = Vec::new(alloc);
    let Ok(field) = str::from_utf8(field) else {
        return Ok(None);
    };
    for word in field.split(' ') {
        match span_of(word) {
            Some(span) => spans.push(span)?,
            None => return Ok(None),
        }
    }
    Ok(Some(spans))
}

/// `opening:column:from:to`
fn span_of(word: &str) -> Option<BlockSpan> {
    let (opening, rest) = word.split_once(':')?;
    let (col, rest) = rest.split_once(':')?;
    let (from, to) = rest.split_once(':')?;
    let opening = match opening {
        "-" => None,
        number => Some(number.parse().ok()?),
    };
    let explicit = col == "{";
    let col = if explicit { 0 } else { col.parse().ok()? };
    let from = from.parse().ok()?;
    let to = to.parse().ok()?;
    Some(BlockSpan {
        opening,
        explicit,
        col,
        from,
        to,
    })
}
