//! The layout rule: a cursor over the items of a text that opens and closes blocks. It is the one
//! place where columns decide.
#![tactic(auto)]

mod blocks;
mod cursor;
mod follow;
mod margin;
mod place;

pub use cursor::Cursor;
pub use follow::can_follow;
pub use hr_rules::Opened;
