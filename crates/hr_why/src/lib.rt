//! Why a step is refused: the numbers and fields of every refusal of a refactoring, in the order in which they are
//! tried.
#![tactic(auto)]

mod fields;
mod sought;
mod why;

pub use fields::shown;
pub use sought::Sought;
pub use why::Why;
