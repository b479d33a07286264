//! The nodes of expressions, and the parts that hold expressions, with their heights.
#![tactic(auto)]

pub mod bodies;
pub mod nodes;
