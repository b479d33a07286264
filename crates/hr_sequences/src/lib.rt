//! The infix sequences of a module, as flat lists of operands and of the numbers of their operators: what fixities
//! are resolved on.
#![tactic(auto)]

mod reading;
mod sequence;

pub use reading::{sequences_in, sequences_of};
pub use sequence::{Sequence, SequencePart};
