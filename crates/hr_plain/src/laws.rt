//! What is so of every text, and of every renaming in a text of the plain form: laws about the
//! definitions, which no call needs to run. By them one of the clauses of `load` and one of those of
//! `rename` applies always.
ghost use Rattle.hr_plain.specs.Laws.{PlainOrRefused, RenamedOrRefused};

/// A text has a tree of the form, or is refused by the lexer, or has items and no tree.
pub fn plain_or_refused()
    ensures { PlainOrRefused }
{}

/// A renaming has a text that it writes, or a numbered reason why it is refused.
pub fn renamed_or_refused()
    ensures { RenamedOrRefused }
{}
