//! Definitions that several layers share, with their laws: what it is for bytes to be lexed as
//! items, and the text that items make.
#![tactic(auto)]

mod block;
mod block_laws;
mod character;
mod items;
mod laws;
mod position_laws;
mod positions;
mod role;
mod words;

pub use block::{BlockKind, OpenBlock, Opened, Placed};
pub use block_laws::{
    columns_from_one, items_are_placed, margins_divide, nothing_goes_on_behind_ends,
    parts_do_not_end, semicolons_do_not_end,
};
pub use character::{
    Kind, continues_name, is_blank_char, is_in_name, is_newline, is_symbol, kind_of,
};
pub use items::join;
pub use laws::{
    lexings_join, one_lexing, one_reading, one_stop, readings_join, rules_keep_apart,
    stopped_has_none, stops_have_none,
};
pub use position_laws::{behind_goes_on, behind_is_pos_at, positions_go_on};
pub use positions::{Reached, has_newline};
pub use role::{Role, role_of};
pub use words::{is_one_of, is_spelled};
