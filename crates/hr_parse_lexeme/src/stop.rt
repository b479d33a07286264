use std::alloc::{AllocError, AllocFailed};

/// Why no tree is read. The cursor stands at the lexeme that is refused.
#[derive(Debug, Drop)]
pub enum Stop {
    /// No tree goes on with the lexeme.
    Syntax,
    /// Every tree that goes on nests too deep.
    TooDeep,
    /// The lexeme belongs to a construct that is left out of the language, wherever it stands.
    LeftOut,
    /// There was no memory.
    Memory(AllocError),
}

impl From<AllocError> for Stop {
    fn from(error: AllocError) -> Stop {
        Stop::Memory(error)
    }
}

impl<T: Drop> From<AllocFailed<T>> for Stop {
    fn from(failed: AllocFailed<T>) -> Stop {
        Stop::Memory(AllocError::from(failed))
    }
}
