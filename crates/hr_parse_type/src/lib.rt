//! The parser of types.
#![tactic(auto)]

mod arguments;
mod nodes;
mod opened;
mod reading;

pub use arguments::{ends_in_variable, is_argument_next, last_is_variable, refuse_argument};
pub use nodes::applied;
pub use opened::opened_type;
pub use reading::{applied_type, atomic_type, ty, whole_type};

#[cfg(test)]
mod tests;
