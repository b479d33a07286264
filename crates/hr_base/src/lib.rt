//! The plain types that every layer of the refactorer speaks of: texts and lists that contracts
//! see as lists, places in a text, lexemes and items, names and what they are bound to; and the limit
//! on a module's length.
#![tactic(auto)]

mod bind;
mod lexeme;
mod limits;
mod place;
mod seq;
mod text;

pub use bind::{Binder, Bound, Entity, Name, Space};
pub use lexeme::{Class, Ending, Item, Items, Lexeme};
pub use limits::MODULE_LIMIT;
pub use place::{Place, Pos, Spot};
pub use seq::Seq;
pub use text::Text;
