//! The files of a run: read in the order of their names, and replaced.
#![tactic(auto)]

mod reading;
mod replacing;
mod rolling;

pub use reading::{PROJECT_LIMIT, Unread, read_file, read_files};
pub use replacing::{Change, changes, replace_files};
pub use rolling::{backs, roll_back};
