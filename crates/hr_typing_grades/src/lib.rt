//! The graded trees of a module's infix sequences as steps, one behind another, by the operator that asks for them.
#![tactic(auto)]

mod grades;
mod steps;

pub use grades::Grades;
pub use steps::Step;
