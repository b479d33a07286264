//! Types with other types in the places of their variables, and the equations between types that typing solves.
#![tactic(auto)]

mod builtin;
mod copies;
mod entities;
mod equations;
mod fixed;
mod limits;
mod replacing;

pub use builtin::{list_entity, prelude_type, tuple_entity};
pub use copies::{FreshCopy, Which, copied, next_number, type_behind, variables_from};
pub use entities::{Entities, function};
pub use equations::Equations;
pub use fixed::{fixed_entity, fixed_type, is_fixed};
pub use limits::{DECLARED_LIMIT, GROUP_LIMIT, TYPE_LIMIT};
pub use replacing::replaced;
