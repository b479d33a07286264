//! Atoms in brackets, and names as atoms: the Haskell 98 Report, sections 3.2 and 3.5 to 3.11. What the next lexeme can
//! begin decides, so each choice leaves one production.
#![tactic(auto)]

mod brackets;
mod lists;
mod names;
mod qualifiers;

pub use brackets::{behind_bracketed, parenthesized, squared};
pub use names::{constructor, used, variable, whole};
