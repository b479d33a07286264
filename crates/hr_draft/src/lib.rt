//! What a refactoring writes, before it is bytes: the lexemes of a module's target, each with its origin; and where the
//! blocks of a module stand among its lexemes.
#![tactic(auto)]

mod blocks;
mod draft;
mod same;

pub use blocks::{BlockSpan, Blocks, PartSpan};
pub use draft::{Draft, Drafted, Manner, Origin};
pub use same::is_same_lexeme;
