//! Laws of how types are written: nothing runs.
#![tactic(auto)]

mod laws;

pub use laws::{blanks_between, one_type, scopes_tell_apart, spelled_reads_back, written_is_lexed};
