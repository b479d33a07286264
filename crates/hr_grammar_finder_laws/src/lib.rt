//! The plain reader: a slow function that finds all trees of a list of lexemes. Nothing here runs.
#![tactic(auto)]

mod laws;

pub use laws::{
    derived_are_found, found_are_derived, found_are_read, read_are_found,
    short_texts_have_one_tree, worked_texts_are_found, worked_texts_are_read,
};
