//! Renaming: what is respelled, and when it is refused before anything is written.
#![tactic(auto)]

mod edits;
mod plan;
mod scene;
mod spelling;
mod thing;

pub use plan::{Renaming, plan_rename};
pub use scene::Scene;
pub use spelling::respelled;
