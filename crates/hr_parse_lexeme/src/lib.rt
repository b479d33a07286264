//! What the parser's crates share: lexemes and names taken from a cursor, the nesting of trees, and why a
//! text has no tree.
#![tactic(auto)]

mod error;
mod held;
mod kind;
mod mark;
mod names;
mod nesting;
mod notes;
mod sort;
mod stop;
mod take;

pub use error::{ParseError, refusal};
pub use held::Held;
pub use kind::{Kind, kind_ahead};
pub use mark::Mark;
pub use names::{Bracket, MOST_COMMAS, commas, parenthesis, square};
pub use nesting::{LIMIT, Measured, nest};
pub use notes::Notes;
pub use sort::Sort;
pub use stop::Stop;
pub use take::{accept, accept_sort, expect, expect_sort, is_next};
