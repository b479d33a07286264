use hr_base::Place;
use std::alloc::AllocError;
use thiserror::Error;

/// Why a sequence has no answer.
#[derive(Debug, Drop, Error)]
pub enum FixityError {
    /// No grade joins the two operators.
    #[error("no grade joins the operators at {left:?} and {right:?}")]
    FixityConflict { left: Place, right: Place },
    #[error("out of memory")]
    Memory(AllocError),
}
