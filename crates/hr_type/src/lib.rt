//! Types and type schemes: equality, measures, instances, and their spelling in a scope.
#![tactic(auto)]

mod arity;
mod copy;
mod general;
mod measure;
mod mono;
mod parts;
mod print;
mod same;
mod spell;
#[cfg(test)]
mod tests;
mod write;

pub use arity::has_arities;
pub use copy::{copies_of, rebuilt};
pub use general::{Bindings, add, instance, look_up};
pub use measure::{depth_of_type, size_of_type};
pub use mono::{Mono, Scheme, entity_copied, is_same_entity};
pub use parts::{have_same_head, is_variable, push_parts};
pub use print::print_in;
pub use spell::TypeScope;
