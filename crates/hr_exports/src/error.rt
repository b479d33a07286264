use hr_base::{Entity, Place, Text};
use std::alloc::AllocError;
use thiserror::Error;

/// Why the exports and imports of modules are refused.
#[derive(Debug, Drop, Error)]
pub enum ExportError {
    #[error("an import names what the module doesn't export")]
    NotExported {
        name: Text,
        place: Place,
    },
    #[error("an export names nothing in scope")]
    UnknownExport {
        module: Text,
        name: Text,
    },
    #[error("a module exports two things of one name")]
    ExportClash {
        module: Text,
        name: Text,
        first: Entity,
        second: Entity,
    },
    #[error(transparent)]
    Memory(AllocError),
}

impl From<AllocError> for ExportError {
    fn from(error: AllocError) -> ExportError {
        ExportError::Memory(error)
    }
}
