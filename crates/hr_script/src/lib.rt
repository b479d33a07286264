//! The script language: one command a line, read and written.
#![tactic(auto)]

mod command;
mod error;
mod laws;
mod lines;
mod numbers;
mod reading;
mod texts;
mod words;
mod writing;

pub use command::{Command, Verb};
pub use error::ScriptError;
pub use laws::{one_script, written_parses_back};
pub use numbers::pos_of;
pub use reading::parse_script;
pub use texts::{is_module_name, is_word};
pub use writing::write_script;

#[cfg(test)]
mod tests;
