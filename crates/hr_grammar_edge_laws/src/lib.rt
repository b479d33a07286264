//! Where the blocks of trees begin, and with which lexemes trees end: laws of the grammar's definitions,
//! which the proof of the parser goes by. Nothing here runs.
#![tactic(auto)]

mod laws;

pub use laws::{
    alternatives_end, blocks_begin, declarations_end, expressions_end, patterns_end,
    patterns_have_no_bar, types_end,
};
