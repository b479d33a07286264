//! How a report shows why a project or a step is refused.
#![tactic(auto)]

mod fields;
mod places;
mod projects;
mod steps;

pub use fields::{add_fields, add_texts};
pub use places::{entity_text, place_at, place_text};
pub use projects::project_refusal;
pub use steps::step_refusal;
