use crate::Text;

/// A position in a text: a line from 1 and a column from 1, in characters with a tab going to the
/// next column of the form 8k + 1.
#[derive(Clone, Copy, Debug, PartialEq, Eq, PartialOrd, Ord, Hash)]
pub struct Pos {
    pub line: u32,
    pub col: u32,
}

/// A position in the text of a module.
#[derive(Clone, Debug, Drop, PartialEq, Eq, PartialOrd, Ord, Hash)]
pub struct Place {
    pub module: Text,
    pub pos: Pos,
}

/// A lexeme: the module's number in the order of the words, from 0, and the lexeme's number in
/// that module, from 0.
#[derive(Clone, Copy, Debug, PartialEq, Eq, PartialOrd, Ord, Hash)]
pub struct Spot {
    pub module: usize,
    pub item: usize,
}
