//! The words of a command line: a script, the files of a project, and how to run the one on the other.
#![tactic(auto)]

mod words;

pub use words::{Request, request_of};

#[cfg(test)]
mod tests;
