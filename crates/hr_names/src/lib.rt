//! Which top-level things names stand for: what is in scope in a module, or what it exports.
#![tactic(auto)]

mod key;
mod names;

pub use key::{Key, key_of};
pub use names::Names;
