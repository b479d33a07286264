//! The blocks of the layout rule, and the items that it looks at.

use hr_base::{Item, Pos};

/// What the parts of a block are.
#[derive(Clone, Copy, Debug, PartialEq, Eq)]
pub enum BlockKind {
    /// The top level of a module.
    Body,
    /// Declarations behind `let` or `where`.
    Declarations,
    /// Alternatives behind `of`.
    Alternatives,
}

/// A block that is open.
#[derive(Clone, Copy, Debug, Default, PartialEq, Eq)]
pub enum OpenBlock {
    /// One without braces, by the column of its first lexeme.
    Implicit { col: u32, kind: BlockKind },
    /// One between braces.
    #[default]
    Explicit,
}

/// How a block opens.
#[derive(Clone, Copy, Debug, PartialEq, Eq)]
pub enum Opened {
    /// Without braces, at the column of its first lexeme.
    Implicit { col: u32 },
    /// With a brace, which is the next lexeme.
    Explicit,
    /// Without a lexeme.
    Empty,
}

/// An item with the position of its lexeme, and whether the lexeme counts as the first one on its
/// line.
#[derive(Clone, Debug, Drop, PartialEq, Eq)]
pub struct Placed {
    pub item: Item,
    pub pos: Pos,
    pub first: bool,
}
