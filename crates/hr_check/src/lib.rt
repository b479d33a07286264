//! Projects: texts that are read, whose names are bound and whose infix sequences are resolved.
#![tactic(auto)]

mod checking;
mod error;
mod imports;
mod project;
mod reading;

pub use checking::check;
pub use error::LoadError;
pub use imports::{edges, names};
pub use project::Project;
pub use reading::read_all;
