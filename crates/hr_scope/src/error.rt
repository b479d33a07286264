use hr_base::{Entity, Place, Text};
use std::alloc::AllocError;
use thiserror::Error;

/// Why the names of a project can't be bound.
#[derive(Debug, Drop, Error)]
pub enum ScopeError {
    #[error("a name stands for nothing")]
    Unbound {
        place: Place,
        name: Text,
    },
    #[error("a name stands for two things")]
    Ambiguous {
        place: Place,
        first: Entity,
        second: Entity,
    },
    #[error("something is declared twice")]
    DoubleDeclared {
        first: Place,
        second: Place,
    },
    #[error(transparent)]
    Memory(AllocError),
}

impl From<AllocError> for ScopeError {
    fn from(error: AllocError) -> ScopeError {
        ScopeError::Memory(error)
    }
}
