//! Edits of lexemes, the drafts that they make, and the lexemes that they touch.
#![tactic(auto)]

mod drafts;
mod edit;
mod footprints;
mod plan;

pub use drafts::{apply, draft_of};
pub use edit::Edit;
pub use footprints::{footprint, touched};
