//! Words, numbers and ranges.

/// A text's words, parted by blanks; none where the bytes are no text.
pub fn words(field: &[u8]) -> Option<std::str::Split<'_, char>> {
    let text = std::str::from_utf8(field).ok()?;
    Some(text.split(' '))
}

/// The edges of a word: from each node of one range to those that stand as far behind it as the other one says.
#[derive(Clone, Copy)]
pub struct Fan {
    pub from: Range,
    pub behind: Range,
}

/// The numbers from the first to the last.
#[derive(Clone, Copy)]
pub struct Range {
    pub first: usize,
    pub last: usize,
}

/// A number, or two with `..` between them.
pub fn range_of(text: &str) -> Option<Range> {
    let (first, last) = match text.split_once("..") {
        Some((first, last)) => (first, last),
        None => (text, text),
    };
    Some(Range {
        first: first.parse().ok()?,
        last: last.parse().ok()?,
    })
}

/// Two ranges with `>` between them.
pub fn fan_of(word: &str) -> Option<Fan> {
    let (from, behind) = word.split_once('>')?;
    Some(Fan {
        from: range_of(from)?,
        behind: range_of(behind)?,
    })
}
