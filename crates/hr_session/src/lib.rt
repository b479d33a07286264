//! A session: commands one after another over projects, and what can be taken back.
#![tactic(auto)]

mod line;
mod session;
mod stepper;

pub use line::{Line, Ran, Report};
pub use session::Session;
pub use stepper::Stepper;

#[cfg(test)]
mod tests;
