//! What a project declares of types: the numbers of arguments of its types, what its synonyms stand for, the types of
//! its constructors, and the types that signatures and annotated expressions give.
#![tactic(auto)]

mod building;
mod checking;
mod constructors;
mod cycles;
mod declared;
mod known;
mod project;
mod shown;
mod synonyms;

pub use declared::{DeclError, Declared};
pub use known::entity_at;
pub use project::declarations;
pub use shown::{lexeme_text, place_at};
