//! The graded trees of a module's infix sequences, as they are asked for: by the first operator of the operands that stand
//! in a sequence, or by a minus before it.
use crate::steps::{Step, steps_through};
use hr_fixity::Graded;
use hr_sequences::{Sequence, SequencePart, sequences_of};
use hr_tree::Module;
use indexmap::IndexMap;
use std::alloc::{AllocError, Global};

/// Which part of a graded tree: the operands on each side of a left side's operator are asked for by themselves.
#[derive(Clone, Copy, Drop)]
enum Side {
    Whole,
    Left,
    Right,
}

/// A sequence by its number, or a part of it.
#[derive(Clone, Copy, Drop)]
struct Start {
    number: usize,
    side: Side,
}

/// The sequences of a module and their graded trees, one each.
#[derive(Drop)]
pub struct Grades<'a> {
    sequences: Vec<Sequence>,
    trees: &'a [Graded],
    starts: IndexMap<usize, Start>,
}

impl<'a> Grades<'a> {
    /// The sequences of a module with their trees in the same order.
    pub fn new(
        alloc: Global,
        module: &Module,
        trees: &'a [Graded],
    ) -> Result<Grades<'a>, AllocError> {
        let sequences = sequences_of(alloc, module)?;
        let mut starts = IndexMap::new(alloc);
        for (number, sequence) in sequences.as_slice().iter().enumerate() {
            put_starts(number, sequence, &mut starts)?;
        }
        Ok(Grades {
            sequences,
            trees,
            starts,
        })
    }

    /// The steps of the operands whose first operator is that lexeme, or that have it as a minus before.
    pub fn steps(&self, alloc: Global, lexeme: usize) -> Result<Option<Vec<Step>>, AllocError> {
        let Some(start) = self.starts.get(&lexeme).copied() else {
            return Ok(None);
        };
        let (Some(sequence), Some(tree)) = (
            self.sequences.get(start.number),
            self.trees.get(start.number),
        ) else {
            return Ok(None);
        };
        let steps = steps_through(alloc, side_of(tree, start.side), sequence.parts.as_slice())?;
        Ok(Some(steps))
    }
}

/// Notes where the operands of a sequence are asked for.
fn put_starts(
    number: usize,
    sequence: &Sequence,
    starts: &mut IndexMap<usize, Start>,
) -> Result<(), AllocError> {
    let root = match sequence.root {
        Some(root) => root as usize,
        None => usize::MAX,
    };
    let mut side = match sequence.root {
        Some(_) => Side::Left,
        None => Side::Whole,
    };
    let mut is_first = true;
    for (place, part) in sequence.parts.as_slice().iter().enumerate() {
        if place == root {
            side = Side::Right;
            is_first = true;
        } else if is_first {
            if let Some(item) = item_of(*part) {
                starts.insert(item, Start { number, side })?;
                is_first = !is_infix(*part);
            }
        }
    }
    Ok(())
}

fn is_infix(part: SequencePart) -> bool {
    match part {
        SequencePart::Operator { item: _ } => true,
        _ => false,
    }
}

/// The lexeme of an operator or minus.
pub fn item_of(part: SequencePart) -> Option<usize> {
    match part {
        SequencePart::Operand => None,
        SequencePart::Operator { item } => Some(item),
        SequencePart::Minus { item } => Some(item),
        SequencePart::PatternMinus { item } => Some(item),
    }
}

fn side_of(tree: &Graded, side: Side) -> &Graded {
    match (tree, side) {
        (
            Graded::Binary {
                operator: _,
                left,
                right: _,
            },
            Side::Left,
        ) => left.get(),
        (
            Graded::Binary {
                operator: _,
                left: _,
                right,
            },
            Side::Right,
        ) => right.get(),
        _ => tree,
    }
}
