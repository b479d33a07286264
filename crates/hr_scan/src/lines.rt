//! Where the lines of a text start.
ghost use Rattle.std.specs.Prelude.{◌≡◌, IfOk};
ghost use Rattle.hr_scan.specs.Lines.{ends_newline, starts_of_lines};

use std::alloc::{AllocError, Global};

pub(crate) const FORM_FEED: u8 = 0x0C;

/// The place of each line's first byte: 0, and each place behind a newline.
pub fn line_starts(alloc: Global, bytes: &[u8]) -> Result<Vec<usize>, AllocError>
    ensures { IfOk result (λ starts. starts.items ≡ starts_of_lines bytes.now) }
{
    let mut starts = vec![in alloc; 0]?;
    for place in 0..bytes.len() {
        let (_, rest) = bytes.split_at(place);
        if ends_newline(rest) {
            starts.push(place + 1)?;
        }
    }
    Ok(starts)
}

/// Whether a newline ends with the first byte.
pub fn ends_newline(bytes: &[u8]) -> bool
    ensures { result ≡ ends_newline bytes.now }
{
    match bytes {
        [b'\r', b'\n', ..] => false,
        [b'\r', ..] => true,
        [b'\n', ..] => true,
        [FORM_FEED, ..] => true,
        _ => false,
    }
}
