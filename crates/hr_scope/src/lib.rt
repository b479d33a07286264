//! What each name of a project is bound to.
#![tactic(auto)]

mod binding;
mod double;
mod error;
mod found;
mod lists;
mod locals;
mod project;

pub use binding::{bind, look_up, look_up_all};
pub use error::ScopeError;
pub use found::Found;
