//! Sequences, applications, lambdas, `let`, `if` and `case` of which a part is read.

use crate::pieces::Blocked;
use crate::place::Place;
use crate::twins::Applied;
use hr_base::Item;
use hr_parse_pattern::{Many, Operands, Part};
use hr_tree::{Decl, Exp, Pat};

/// A sequence whose next operand is read.
#[derive(Drop)]
pub struct Sequence {
    pub place: Place,
    pub operands: Operands<Exp>,
    /// The same operands as patterns.
    pub twins: Option<Operands<Pat>>,
    /// The minus before the next operand.
    pub minus: Option<Item>,
}

/// An application whose next argument is read, with the nesting of the application.
#[derive(Drop)]
pub struct Arguments {
    pub depth: u32,
    pub atoms: Many<Exp>,
    /// The same atoms as a constructor and patterns.
    pub twins: Option<Applied>,
}

/// A lambda, `let`, `if` or `case`, and what was read of it.
#[derive(Drop)]
pub enum Form {
    /// A lambda, behind its arrow.
    Lambda(Item, Many<Pat>, Item),
    /// Behind `let`.
    Let(Place, Item),
    /// Behind `in`.
    Body(LetBody),
    /// Behind `if`.
    Test(Place, Item),
    /// Behind `then`.
    Then(Place, Condition),
    /// Behind `else`.
    Else(Condition, Part<Exp>, Item),
    /// Behind `case`, with the nesting of the node.
    Case(u32, Item),
    /// Behind `of`.
    Of(Item, Part<Exp>, Item),
}

/// A `let` with its block and its `in`.
#[derive(Drop)]
pub struct LetBody {
    pub word: Item,
    pub block: Blocked<Decl>,
    pub in_word: Item,
}

/// An `if` with its test and its `then`.
#[derive(Drop)]
pub struct Condition {
    pub word: Item,
    pub test: Part<Exp>,
    pub then_word: Item,
}
