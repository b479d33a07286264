//! The machine that runs the rules of one top-level group over equations of types.
#![tactic(auto)]

mod applying;
mod context;
mod error;
mod extract;
mod machine;
mod naming;
mod pushing;
mod running;
mod scopes;
mod sequences;

pub use context::{Context, Sign, Signs};
pub use error::Halt;
pub use machine::Machine;
