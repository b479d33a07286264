//! The parser: the one tree of a text's items, or the place where none goes on.
#![tactic(auto)]

mod parsing;

pub use hr_parse_lexeme::ParseError;
pub use parsing::parse;
