//! What a session can take back: a stack whose `push` can't fail.
#![tactic(auto)]

mod history;
#[cfg(test)]
mod tests;

pub use history::History;
