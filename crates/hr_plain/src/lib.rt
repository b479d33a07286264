//! The plain form of a module, until the whole language is read: equations over variables, integers,
//! applications and parentheses; which variable binds which name; and the renaming of one.
#![tactic(auto)]

mod binding;
mod equations;
mod expressions;
mod laws;
mod lexemes;
mod loading;
mod renaming;
mod scoping;
mod trivia;
mod writing;

pub use laws::{plain_or_refused, renamed_or_refused};
pub use loading::{LoadError, load};
pub use renaming::{Sought, Why, rename};

#[cfg(test)]
mod tests;
