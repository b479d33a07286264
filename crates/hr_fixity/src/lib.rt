//! Fixities: a flat sequence of operands, operators and prefix minus has at most one tree that the
//! Haskell 98 Report's productions of expressions and patterns allow, and `resolve` finds it.
#![tactic(auto)]

mod blame;
mod error;
mod laws;
mod resolving;
mod sequence;
mod stack;
#[cfg(test)]
mod tests;
mod tree;

pub use error::FixityError;
pub use laws::one_tree;
pub use resolving::resolve;
pub use sequence::{Direction, Fixity, Infix, Part};
pub use tree::Graded;
