use hr_unify::UnifyError;
use std::alloc::AllocError;

/// Why the typing of a group ends: it has no types, or memory is wanted. What a rule asks for and a tree can't lack is
/// want of memory too, and never a refusal.
#[derive(Debug, Drop)]
pub enum Halt {
    Refused,
    Memory(AllocError),
}

impl From<AllocError> for Halt {
    fn from(error: AllocError) -> Halt {
        Halt::Memory(error)
    }
}

impl From<UnifyError> for Halt {
    fn from(error: UnifyError) -> Halt {
        match error {
            UnifyError::Memory(error) => Halt::Memory(error),
            UnifyError::Mismatch { .. } => Halt::Refused,
            UnifyError::Occurs { .. } => Halt::Refused,
        }
    }
}

/// What can't be lacking is.
pub fn lost<T>() -> Result<T, Halt> {
    Err(Halt::Memory(AllocError))
}
