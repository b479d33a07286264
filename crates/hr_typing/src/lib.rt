//! The types of a project whose names are bound and whose infix sequences are resolved, or the first refusal.
#![tactic(auto)]

mod error;
mod modules;

pub use error::TypingError;
pub use modules::type_modules;
