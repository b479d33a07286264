//! Declarations with their right sides, and blocks: the Haskell 98 Report, chapters 3 and 4. What the next lexeme can begin
//! decides, so each choice leaves one production; where two have a beginning in common, it is read once.
#![tactic(auto)]

mod blocks;
mod heads;
mod sides;

pub use blocks::{
    alternatives, behind_alternative, behind_declaration, next_alternative, next_declaration,
    open_declarations,
};
pub use sides::{behind_siding, right_side};
