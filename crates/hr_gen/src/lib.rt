//! The generated project: modules in a row, each of which calls the one before it, and a script of
//! two commands a module.
#![tactic(auto)]

mod generated;
mod modules;
mod script;

pub use generated::{Generated, project};

#[cfg(test)]
mod tests;
