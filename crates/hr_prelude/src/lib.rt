//! The modules that stand behind every project, Prelude and Char, as texts of the language itself, and which of
//! their names are primitives.
#![tactic(auto)]

ghost use Rattle.std.specs.Prelude.{◌≡◌};
ghost use Rattle.hr_prelude.specs.Texts.{text_of};

mod characters;
mod prelude;
mod primitives;

pub use primitives::{Prim, primitive};

#[cfg(test)]
mod tests;

/// A module that stands behind every project.
#[derive(Clone, Copy, Debug, PartialEq, Eq)]
pub enum Builtin {
    Prelude,
    Char,
}

/// The text of the module.
pub fn source(which: Builtin) -> &'static str
    ensures { result.now ≡ text_of which }
{
    match which {
        Builtin::Prelude => prelude::PRELUDE_TEXT,
        Builtin::Char => characters::CHAR_TEXT,
    }
}
