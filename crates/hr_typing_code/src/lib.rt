//! The rules of typing that a module's tree calls for, as flat lists: each rule works on the types that the rules
//! before it left, so that what types a module walks no tree.
#![tactic(auto)]

mod block;
mod declarations;
mod edges;
mod expressions;
mod groups;
mod modules;
mod patterns;

pub use edges::within;
pub use groups::Group;
pub use modules::{ModuleRules, module_rules};
