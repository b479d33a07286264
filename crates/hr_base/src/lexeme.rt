use crate::{Seq, Text};

/// The kinds of lexeme of the Haskell 98 Report, section 2.2 and the sections after it.
#[derive(Clone, Copy, Debug, PartialEq, Eq, Hash)]
pub enum Class {
    VarId,
    ConId,
    QVarId,
    QConId,
    VarSym,
    ConSym,
    QVarSym,
    QConSym,
    Integer,
    Float,
    Char,
    Str,
    ReservedId,
    ReservedOp,
    Special,
}

/// A lexeme, spelled as in the source.
#[derive(Clone, Debug, Drop, PartialEq, Eq, Hash)]
pub struct Lexeme {
    pub class: Class,
    pub text: Text,
}

/// A lexeme with the blanks and comments directly before it.
#[derive(Clone, Debug, Drop, PartialEq, Eq, Hash)]
pub struct Item {
    pub trivia: Text,
    pub lexeme: Lexeme,
}

/// The items of a text, and the blanks and comments behind the last one.
#[derive(Clone, Debug, Drop, PartialEq, Eq, Hash)]
pub struct Items {
    pub list: Seq<Item>,
    pub tail: Text,
}

/// How the last part of a layout block ends, by which it is decided what can follow.
/// `where_free` says that the part has no `where` of its own yet, `guarded` that it has guards.
#[derive(Clone, Copy, Debug, PartialEq, Eq)]
pub enum Ending {
    /// An empty part.
    Nothing,
    /// An expression that ends in an atom.
    Applied { where_free: bool, guarded: bool },
    /// An expression that ends in a closed block.
    Closed { where_free: bool, guarded: bool },
    /// An expression that ends in `::` and a type.
    Annotated { where_free: bool, guarded: bool },
    /// A type signature.
    Signature,
    /// A part that ends in its own `where` block.
    WhereBlock,
    /// A fixity declaration.
    Fixity,
}
