//! The lexer: the items of a text by the lexical rules, or the first place where they fail.
#![tactic(auto)]

mod apart;
mod comments;
mod error;
mod escapes;
mod laws;
mod lexing;
mod names;
mod numbers;
mod quotes;
mod source;
mod spans;
mod tables;
mod taken;

pub use apart::{are_apart, is_varid};
pub use error::LexError;
pub use laws::read_or_refused;
pub use lexing::lex;
