//! Whether a tree yields the items that a text was lexed to.
#![tactic(auto)]

mod comparing;

pub use comparing::yields;
