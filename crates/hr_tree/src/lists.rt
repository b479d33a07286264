use crate::{Operator, Variable};
use hr_base::Item;
use sqlite_items::Items as Children;

/// One part of a list, with the separator behind it. The last part has none.
#[derive(Drop)]
pub struct Listed<T> {
    pub part: T,
    pub separator: Option<Item>,
}

/// One operand of an infix sequence, with the minus before it and the operator behind it. The last
/// operand has no operator.
#[derive(Drop)]
pub struct Operand<T> {
    pub minus: Option<Item>,
    pub part: T,
    pub operator: Option<Operator>,
}

/// A labelled field with its `=` and what stands behind it.
#[derive(Drop)]
pub struct Field<T> {
    pub name: Variable,
    pub equals: Item,
    pub part: T,
}

/// What stands in a block: a `;`, or a part.
#[derive(Drop)]
pub enum Piece<T> {
    Semicolon(Item),
    Part(T),
}

/// A block of declarations or alternatives, in braces or by layout.
#[derive(Drop)]
pub struct Block<T> {
    pub layout: Layout,
    pub pieces: Children<Piece<T>>,
}

/// How a block is set apart. An implicit one has the column of its first lexeme; one without lexemes
/// has that of the lexeme behind its opening, or 0 where none follows.
#[derive(Drop)]
pub enum Layout {
    Implicit { col: u32 },
    Explicit(Item, Item),
}
