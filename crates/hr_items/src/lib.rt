//! A list and a box that contracts see as their values. What they hold can be exchanged in place, so
//! that a deep value is taken apart by a loop and without memory.
#![tactic(auto)]

mod boxed;
mod items;
#[cfg(test)]
mod tests;

pub use boxed::Boxed;
pub use items::Items;
