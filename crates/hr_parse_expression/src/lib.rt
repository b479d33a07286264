//! Expressions, declarations with them, and blocks: the Haskell 98 Report, chapters 3 and 4. A loop over the steps of their
//! readers.
#![tactic(auto)]

mod machine;
mod stack;

pub use hr_parse_parts::Blocked;
pub use machine::declarations;
