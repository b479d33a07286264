//! The most general unifier of types.
#![tactic(auto)]

mod find;
mod known;
mod leads;
mod resolve;
mod solve;
mod solver;
mod split;
mod step;
#[cfg(test)]
mod tests;
mod unifier;
mod work;

pub use solve::{Subst, UnifyError};
pub use solver::Solver;
pub use unifier::unify;
