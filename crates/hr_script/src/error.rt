use std::alloc::AllocError;
use thiserror::Error;

/// Why bytes are no script that is run.
#[derive(Debug, Drop, Error)]
pub enum ScriptError {
    /// The first line that is not of the language, counted from 1.
    #[error("line {number} is no command")]
    BadLine { number: u32 },
    /// Each line is of the language, and more than 1,000 are commands.
    #[error("more than 1,000 commands")]
    TooManySteps,
    #[error("out of memory")]
    Memory(AllocError),
}
