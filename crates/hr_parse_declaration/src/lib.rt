//! Declarations without expressions in them, imports and a module's header: the Haskell 98 Report, sections 4.2, 4.4.1,
//! 4.4.2, 5.1 to 5.3.
#![tactic(auto)]

mod closing;
mod constructions;
mod exports;
mod fixities;
mod imports;
mod lists;
mod members;
mod names;
mod next;
mod signatures;
mod stated;
mod types;

pub use closing::closes_in_variable;
pub use exports::header;
pub use fixities::fixity;
pub use imports::import;
pub use names::operator_name;
pub use signatures::signature;
pub use stated::{Stated, state};
pub use types::type_declaration;
