//! The rules of modules and scopes as definitions on trees. Nothing here
//! runs.
#![tactic(auto)]

mod joint;
mod naming;
mod role;

pub use joint::Joint;
pub use naming::Naming;
pub use role::Role;
