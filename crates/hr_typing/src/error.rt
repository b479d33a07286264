ghost use Rattle.std.specs.Prelude.{◌≡◌};
ghost use Rattle.hr_typing.specs.Numbers as spec;

use hr_infer::TypeError;
use hr_tydecl::DeclError;
use std::alloc::AllocError;
use thiserror::Error;

/// Why a project has no types: what its modules say of types, or its definitions.
#[derive(Debug, Error)]
pub enum TypingError {
    #[error(transparent)]
    Declared(DeclError),
    #[error(transparent)]
    Defined(TypeError),
    /// There was no memory, for whichever layer.
    #[error(transparent)]
    Memory(AllocError),
}

/// By hand, so that who lets a refusal go calls this, and does not take all its variants apart.
impl Drop for TypingError {
    fn drop(self) {
        match self {
            TypingError::Declared(error) => drop(error),
            TypingError::Defined(error) => drop(error),
            TypingError::Memory(error) => drop(error),
        }
    }
}

impl From<AllocError> for TypingError {
    fn from(error: AllocError) -> TypingError {
        TypingError::Memory(error)
    }
}

impl TypingError {
    /// The number by which the refusal is shown; none for want of memory.
    pub fn number(&self) -> Option<u32>
        ensures { result ≡ spec.typing_number self.now }
    {
        match self {
            TypingError::Declared(error) => declared_number(error),
            TypingError::Defined(error) => defined_number(error),
            TypingError::Memory(_) => None,
        }
    }
}

fn declared_number(error: &DeclError) -> Option<u32>
    ensures { result ≡ spec.declared_number error.now }
{
    match error {
        DeclError::SynonymCycle { .. } => Some(19),
        DeclError::WrongArity { .. } => Some(20),
        DeclError::UnboundTypeVariable { .. } => Some(21),
        DeclError::Memory(_) => None,
    }
}

fn defined_number(error: &TypeError) -> Option<u32>
    ensures { result ≡ spec.defined_number error.now }
{
    match error {
        TypeError::IllTyped { .. } => Some(22),
        TypeError::SignatureTooGeneral { .. } => Some(23),
        TypeError::NoMain => Some(24),
        TypeError::Memory(_) => None,
    }
}
