//! The relation by cases, grammar and layout together, that the parser's proof goes by. Nothing here runs.
#![tactic(auto)]

mod laws;

pub use laws::{
    fronts_close, imports_give, levels_are, levels_give, levels_widen, modules_are, modules_give,
    modules_stand, modules_widen, modules_yield, parts_end, patterns_give, pieces_stop,
    places_widen, readings_shrink, types_give, worked_texts,
};
