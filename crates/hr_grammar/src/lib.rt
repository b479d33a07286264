//! The grammar and the layout rule as definitions on trees, with their laws. Nothing here runs.
#![tactic(auto)]

mod laws;

pub use laws::{
    alternatives_begin, declarations_begin, expressions_begin, guards_are_unannotated,
    left_out_stands_nowhere, one_annotation, one_yield, open_is_last, open_is_unannotated,
    parts_stand, patterns_begin, read_is_joined, same_is_equality, semicolons_in_braces,
    stuck_at_one_place, types_begin, within_is_deep, worked_trees, yields_join,
};
