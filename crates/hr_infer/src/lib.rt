//! The types of all definitions of a project, or why it has none.
#![tactic(auto)]

mod error;
mod groups;
mod main_type;
mod modules;
mod resolved;
mod typing;

pub use error::TypeError;
pub use modules::infer;
pub use resolved::Resolved;
pub use typing::Typing;
