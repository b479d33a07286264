//! What is exported, what is in scope and what names are bound to, as lists by plain functions, and the laws that
//! these lists are the relations of the rules. Nothing here runs.
#![tactic(auto)]

mod laws;

pub use laws::{binders_agree, candidates_agree, doubles_agree, exports_agree, scopes_agree};
