//! Fixities of the operators of a project, and the graded trees of its infix sequences.
#![tactic(auto)]

mod fixities;
mod grading;

pub use fixities::Fixities;
pub use grading::{grade, positions};
