//! Rows of hr_script: scripts with their commands, and scripts as they are written.
//!
//!     read ;; rename Main 3:1 t\nundo     the commands, or the refusal's number and the line that it shows
//!     written ;; undo\r\n                 the script that is written of the commands
//!
//! A command is shown by its word, and its fields in brackets with a bar between; of more than four commands
//! their number is shown. Texts are spelled as in the cases.
#![tactic(auto)]

mod shown;

use hr_rows::{answer_all, escaped};
use hr_script::{parse_script, write_script};
use std::alloc::{AllocError, Global};
use std::io;

/// The answer of a case.
fn answer(alloc: Global, fields: &[Vec<u8>]) -> Result<String, AllocError> {
    match fields {
        [kind, bytes] if kind.as_slice() == b"read".as_slice() => read(alloc, bytes.as_slice()),
        [kind, bytes] if kind.as_slice() == b"written".as_slice() => {
            written(alloc, bytes.as_slice())
        }
        _ => String::from_str(alloc, "no case"),
    }
}

fn read(alloc: Global, bytes: &[u8]) -> Result<String, AllocError> {
    match parse_script(alloc, bytes) {
        Ok(commands) => shown::commands(alloc, commands.as_slice()),
        Err(error) => shown::refusal(alloc, error),
    }
}

fn written(alloc: Global, bytes: &[u8]) -> Result<String, AllocError> {
    match parse_script(alloc, bytes) {
        Ok(commands) => {
            let bytes = write_script(alloc, commands.as_slice())?;
            escaped(alloc, bytes.as_slice())
        }
        Err(error) => shown::refusal(alloc, error),
    }
}

fn main(rt: HostRuntime) -> io::Result<()> {
    answer_all(&rt, rt.alloc(), answer)
}
