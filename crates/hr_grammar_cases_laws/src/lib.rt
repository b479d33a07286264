//! The relation by cases and the promise agree: a tree of the grammar whose blocks stand as the layout rule says is
//! read of its own items, level by level. Nothing here runs.
#![tactic(auto)]

mod laws;

pub use laws::relation_is_promise;
