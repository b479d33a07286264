//! Rows of hr_gen: what is generated of a seed, a number of modules and a size.
//!
//!     counts ;; 1 ;; 100 ;; 2        how many texts and how many commands
//!     lengths ;; 1 ;; 1 ;; 20        the texts' lengths in bytes
//!     text ;; 1 ;; 1 ;; 2 ;; 0       the text of this number
//!     line ;; 1 ;; 1 ;; 2 ;; 0 ;; 3  the line of this number of it, from 1
//!     script ;; 1 ;; 1 ;; 2          the commands as a script
#![tactic(auto)]

mod shown;

use hr_gen::{Generated, project};
use hr_rows::answer_all;
use std::alloc::{AllocError, Global};
use std::io;

/// The answer of a case.
fn answer(alloc: Global, fields: &[Vec<u8>]) -> Result<String, AllocError> {
    let [kind, seed, modules, size, rest @ ..] = fields else {
        return String::from_str(alloc, "no case");
    };
    let (Some(seed), Some(modules), Some(size)) = (number(seed), number(modules), number(size))
    else {
        return String::from_str(alloc, "no case");
    };
    if modules < 1 || modules > 100 || size < 2 || size > 50 {
        return String::from_str(alloc, "no case");
    }
    answer_of(alloc, kind, &project(alloc, seed, modules, size)?, rest)
}

fn answer_of(
    alloc: Global,
    kind: &[u8],
    made: &Generated,
    rest: &[Vec<u8>],
) -> Result<String, AllocError> {
    if kind == b"counts".as_slice() {
        return shown::counts(alloc, made);
    }
    if kind == b"lengths".as_slice() {
        return shown::lengths(alloc, made);
    }
    if kind == b"script".as_slice() {
        return shown::script(alloc, made);
    }
    match rest {
        [text] if kind == b"text".as_slice() => shown::text(alloc, made, number(text)),
        [text, line] if kind == b"line".as_slice() => {
            shown::line(alloc, made, number(text), number(line))
        }
        _ => String::from_str(alloc, "no case"),
    }
}

/// The number that a field is.
fn number(field: &[u8]) -> Option<u32> {
    std::str::from_utf8(field).ok()?.parse().ok()
}

fn main(rt: HostRuntime) -> io::Result<()> {
    answer_all(&rt, rt.alloc(), answer)
}
