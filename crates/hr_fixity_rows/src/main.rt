//! Rows of hr_fixity: sequences in short, with their trees, or with the columns of the two operators that no
//! grade joins.
//!
//!     x6lx7lx             a sequence (the notation is said in `sequence`)
//!     x6lx7lx ;; 3        the same where the part of this number has to stand at the root
//!     edges ;; x6lx ;; 1  how many operators stand on the left edge of the tree, and how many on the right one
//!     enumerate ;; 3      of the sequences with up to so many operators, how many are answered as their
//!                         trees say, which are found by trying all derivations
#![tactic(auto)]

mod compared;
mod found;
mod sequence;
mod trees;
mod written;

use hr_rows::answer_all;
use std::alloc::{AllocError, Global};
use std::io;

/// The answer of a case.
fn answer(alloc: Global, fields: &[Vec<u8>]) -> Result<String, AllocError> {
    match fields {
        [word, count] if word.as_slice() == b"enumerate".as_slice() => {
            compared::answer(alloc, number(count))
        }
        [word, text, root] if word.as_slice() == b"edges".as_slice() => {
            let seq = sequence::of(alloc, text, number(root))?;
            written::edges_of(alloc, &seq)
        }
        [text] => written::answer(alloc, &sequence::of(alloc, text, None)?),
        [text, root] => written::answer(alloc, &sequence::of(alloc, text, number(root))?),
        _ => String::from_str(alloc, "no case"),
    }
}

/// The number that a field is.
fn number(field: &[u8]) -> Option<u32> {
    std::str::from_utf8(field).ok()?.parse().ok()
}

fn main(rt: HostRuntime) -> io::Result<()> {
    answer_all(&rt, rt.alloc(), answer)
}
