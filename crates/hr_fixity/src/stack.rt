ghost use Rattle.std.specs.Prelude.{◌≡◌, [], ◌∷◌, IfOk, IfSome, IsTrue, MatchOption, OnOk, None, Some, if◌then◌else◌};
ghost use Rattle.hr_fixity.specs.Reader as reader;

use crate::{Direction, Fixity, Graded};
use sqlite_items::Boxed;
use std::alloc::{AllocError, Global};
use std::marker::Model;

/// The grade in which a prefix minus stands.
const MINUS: Fixity = Fixity {
    level: 6,
    direction: Direction::Left,
};

/// What the next operator does to an open one.
#[derive(Clone, Copy, Debug, PartialEq, Eq)]
pub enum Turn {
    /// The open operator binds tighter: its right operand ends.
    Closes,
    /// The next operator stands within the right operand of the open one.
    Opens,
    /// Neither: no grade joins the two.
    Clashes,
}

/// An operator whose right operand may go on.
#[derive(Drop)]
pub enum Open {
    Operator {
        number: u32,
        fixity: Fixity,
        left: Graded,
    },
    Minus {
        number: u32,
    },
    PatternMinus {
        number: u32,
    },
}

/// What an operator does to an open one, by their levels and at one level by their directions.
fn turn_between(before: Fixity, next: Fixity) -> Turn
    ensures { result ≡ reader.turn_between before next }
{
    if next.level < before.level {
        Turn::Closes
    } else if before.level < next.level {
        Turn::Opens
    } else {
        match (before.direction, next.direction) {
            (Direction::Left, Direction::Left) => Turn::Closes,
            (Direction::Right, Direction::Right) => Turn::Opens,
            _ => Turn::Clashes,
        }
    }
}

impl Open {
    /// What the next operator does to this one.
    fn turn(&self, next: Fixity) -> Turn
        ensures { result ≡ reader.turn_of self.now next }
    {
        match self {
            Open::Operator { fixity, .. } => turn_between(*fixity, next),
            Open::Minus { .. } => turn_between(MINUS, next),
            Open::PatternMinus { .. } => match turn_between(MINUS, next) {
                Turn::Closes => Turn::Closes,
                Turn::Opens => Turn::Clashes,
                Turn::Clashes => Turn::Clashes,
            },
        }
    }

    /// The operator with its right operand.
    fn close(self, alloc: Global, right: Graded) -> Result<Graded, AllocError>
        ensures { IfOk result (λ tree. tree ≡ reader.close self right) }
    {
        let right = Boxed::new(alloc, right)?;
        match self {
            Open::Operator { number, left, .. } => Ok(Graded::Binary {
                operator: number,
                left: Boxed::new(alloc, left)?,
                right,
            }),
            Open::Minus { number } => Ok(Graded::Negated {
                minus: number,
                operand: right,
            }),
            Open::PatternMinus { number } => Ok(Graded::Negated {
                minus: number,
                operand: right,
            }),
        }
    }
}

/// The open operators, which contracts see from the innermost to the outermost.
#[derive(Drop)]
pub struct Stack {
    open: Vec<Open>,
}

impl Model for Stack {
    ghost use Rattle.std.specs.Prelude.{List, reverse};
    ghost use Rattle.std.specs.Coded.{codes};
    ghost use Rattle.hr_fixity.specs.contracts.tree.Graded as graded;
    ghost use Rattle.hr_fixity.specs.declared.stack.Open.{Open};

    ghost Value = { List Open };

    ghost coded = { Prim.hlevel (codes, graded.the_row.coded) };

    ghost view = { λ s. reverse s.open.items };
}

impl Stack {
    pub fn new(alloc: Global) -> Stack
        ensures { result ≡ [] }
    {
        Stack {
            open: Vec::new(alloc),
        }
    }

    /// Whether no operator is open.
    pub fn is_empty(&self) -> bool
        ensures { result ≡ reader.nothing_open self.now }
    {
        self.open.is_empty()
    }

    /// What the next operator does to the innermost one.
    pub fn turn(&self, next: Fixity) -> Turn
        ensures { result ≡ reader.turn_at self.now next }
    {
        match self.open.last() {
            Some(open) => open.turn(next),
            None => Turn::Opens,
        }
    }

    /// Opens an operator.
    pub fn push(&mut self, operator: Open) -> Result<(), AllocError>
        ensures { OnOk result (self.new ≡ operator ∷ self.old) }
    {
        self.open.push(operator)?;
        Ok(())
    }

    /// Takes the innermost operator.
    fn pop(&mut self) -> Option<Open>
        ensures { MatchOption result (self.old ≡ []) (λ operator. self.old ≡ operator ∷ self.new) }
    {
        self.open.pop()
    }

    /// Opens a prefix minus, if it may stand here.
    pub fn open_minus(&mut self, minus: Open) -> Result<bool, AllocError>
        ensures { IfOk result (λ opened. reader.open_minus self.old minus ≡ if opened then Some self.new else None) }
    {
        match self.turn(MINUS) {
            Turn::Opens => {
                self.push(minus)?;
                Ok(true)
            }
            Turn::Closes => Ok(false),
            Turn::Clashes => Ok(false),
        }
    }

    /// Closes each operator that binds tighter than the next one. What they make is the next one's
    /// left operand; there is none where the next one clashes.
    pub fn left_of(
        &mut self,
        alloc: Global,
        tree: Graded,
        next: Fixity,
    ) -> Result<Option<Graded>, AllocError>
        ensures { IfOk result (λ left. MatchOption left (reader.with_left_operand self.old tree next ≡ None) (λ left. reader.with_left_operand self.old tree next ≡ Some (self.new, left))) }
    {
        let mut tree = tree;
        'closing: loop {
            match self.turn(next) {
                Turn::Opens => return Ok(Some(tree)),
                Turn::Clashes => return Ok(None),
                Turn::Closes => {
                    tree = match self.pop() {
                        Some(open) => open.close(alloc, tree)?,
                        None => return Ok(Some(tree)),
                    }
                }
            }
        }
    }

    /// Closes every operator.
    pub fn close_all(mut self, alloc: Global, tree: Graded) -> Result<Graded, AllocError>
        ensures { IfOk result (λ whole. whole ≡ reader.close_all self tree) }
    {
        let mut tree = tree;
        'closing: while let Some(open) = self.pop() {
            tree = open.close(alloc, tree)?;
        }
        Ok(tree)
    }
}
