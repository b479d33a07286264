use hr_base::{Place, Text};
use std::alloc::AllocError;
use thiserror::Error;

/// Why a project isn't typed.
#[derive(Debug, Error)]
pub enum TypeError {
    #[error("a group of definitions has no types")]
    IllTyped { module: Text, group: Text },
    #[error("a signature is too general")]
    SignatureTooGeneral { place: Place, name: Text },
    #[error("there is no main from text to text")]
    NoMain,
    #[error(transparent)]
    Memory(AllocError),
}

/// By hand, so that who lets a refusal go calls this, and does not take all its variants apart.
impl Drop for TypeError {
    fn drop(self) {
        match self {
            TypeError::IllTyped { module, group } => {
                drop(module);
                drop(group);
            }
            TypeError::SignatureTooGeneral { place, name } => {
                drop(place);
                drop(name);
            }
            TypeError::NoMain => {}
            TypeError::Memory(error) => drop(error),
        }
    }
}

impl From<AllocError> for TypeError {
    fn from(error: AllocError) -> TypeError {
        TypeError::Memory(error)
    }
}
