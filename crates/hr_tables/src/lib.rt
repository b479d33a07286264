//! What the layers above the tree say of names: what is in scope and what is exported, and what each name of a
//! project is bound to.
#![tactic(auto)]

mod bindings;
mod same;
mod seen;

pub use bindings::Bindings;
pub use same::{is_same_binder, is_same_entity};
pub use seen::{Interfaces, Seen};

#[cfg(test)]
mod tests;
