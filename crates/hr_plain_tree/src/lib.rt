//! The lossless tree of a module of the plain form.
#![tactic(auto)]

mod search;
mod tree;
mod yields;

pub use search::at;
pub use tree::{Equation, Exp, Module};
pub use yields::items;

#[cfg(test)]
mod tests;
