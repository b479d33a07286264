//! The graph of imports and the graph of uses: in which order modules are read, and which
//! definitions form one group.
#![tactic(auto)]

mod cycle;
mod groups;
mod laws;
mod levels;
mod module_names;
mod module_order;
mod ready;
mod rows;
mod strong;

pub use groups::components;
pub use laws::{components_are_strong, components_are_unique, order_is_unique};
pub use module_order::{GraphError, ImportEdge, order};

#[cfg(test)]
mod tests;
