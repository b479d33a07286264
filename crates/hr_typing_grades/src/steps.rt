//! A graded tree as steps over its operands.
use crate::grades::item_of;
use hr_fixity::Graded;
use hr_sequences::SequencePart;
use std::alloc::{AllocError, Global};

/// What is done with the operands of a sequence, one step behind another.
#[derive(Clone, Copy, Drop)]
pub enum Step {
    /// the next operand from the left
    Operand,
    Negate,
    /// an operator, by its lexeme, on the last two
    Operator(usize),
}

/// What is still to be done with a graded tree: to go through it, or a step behind its parts.
#[derive(Clone, Copy)]
enum Work<'a> {
    Through(&'a Graded),
    Do(Step),
}

/// The steps of a tree, each behind those of its parts.
pub fn steps_through(
    alloc: Global,
    tree: &Graded,
    parts: &[SequencePart],
) -> Result<Vec<Step>, AllocError> {
    let mut steps = Vec::new(alloc);
    let mut left = Vec::new(alloc);
    left.push(Work::Through(tree))?;
    for _ in 0..u64::MAX {
        match left.pop() {
            None => return Ok(steps),
            Some(Work::Do(step)) => steps.push(step)?,
            Some(Work::Through(tree)) => go_through(tree, parts, &mut left)?,
        }
    }
    Err(AllocError)
}

/// Puts what is to be done with a tree on the stack, the first on top.
fn go_through<'a>(
    tree: &'a Graded,
    parts: &[SequencePart],
    left: &mut Vec<Work<'a>>,
) -> Result<(), AllocError> {
    match tree {
        Graded::Operand(_) => left.push(Work::Do(Step::Operand))?,
        Graded::Negated { minus: _, operand } => {
            left.push(Work::Do(Step::Negate))?;
            left.push(Work::Through(operand.get()))?;
        }
        Graded::Binary {
            operator,
            left: first,
            right,
        } => {
            left.push(Work::Do(step_of(*operator, parts)))?;
            left.push(Work::Through(right.get()))?;
            left.push(Work::Through(first.get()))?;
        }
    }
    Ok(())
}

fn step_of(operator: u32, parts: &[SequencePart]) -> Step {
    match parts.get(operator as usize) {
        Some(part) => Step::Operator(item_of(*part).unwrap_or(usize::MAX)),
        None => Step::Operator(usize::MAX),
    }
}
