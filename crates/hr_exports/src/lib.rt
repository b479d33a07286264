//! What the modules of a project export, and what is in scope in each.
#![tactic(auto)]

mod access;
mod brought;
mod budget;
mod chosen;
mod clash;
mod closing;
mod error;
mod known;
mod settling;
mod unit;

pub use closing::close;
pub use error::ExportError;
pub use settling::tables;
