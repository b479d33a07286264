//! The target of a rename, and whether modules are that target.
#![tactic(auto)]

mod comparing;
mod target;

pub use comparing::are_renamed;
pub use target::Renamed;
