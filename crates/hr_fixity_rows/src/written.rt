use hr_fixity::{FixityError, Graded, Infix, resolve};
use std::alloc::{AllocError, Global};

/// The answer in short: a tree, or the columns of the two operators that are shown.
pub fn answer(alloc: Global, seq: &Infix) -> Result<String, AllocError> {
    if !seq.is_sequence() {
        return String::from_str(alloc, "no sequence");
    }
    match resolve(alloc, seq) {
        Ok(tree) => written(alloc, &tree),
        Err(error) => columns(alloc, error),
    }
}

/// The columns of the operators that are shown.
fn columns(alloc: Global, error: FixityError) -> Result<String, AllocError> {
    match error {
        FixityError::FixityConflict { left, right } => {
            let (left, right) = (left.pos.col, right.pos.col);
            format!(in alloc; "{left} {right}")
        }
        FixityError::Memory(error) => Err(error),
    }
}

/// A tree in short: an operand is its number, `(n l r)` an infix operator and `[n x]` a prefix minus.
fn written(alloc: Global, tree: &Graded) -> Result<String, AllocError> {
    match tree {
        Graded::Operand(number) => format!(in alloc; "{number}"),
        Graded::Negated { minus, operand } => {
            let operand = written(alloc, operand.get())?;
            format!(in alloc; "[{minus} {operand}]")
        }
        Graded::Binary {
            operator,
            left,
            right,
        } => {
            let left = written(alloc, left.get())?;
            let right = written(alloc, right.get())?;
            format!(in alloc; "({operator} {left} {right})")
        }
    }
}

/// How many operators stand on the left edge of the tree, and how many on the right one.
pub fn edges_of(alloc: Global, seq: &Infix) -> Result<String, AllocError> {
    if !seq.is_sequence() {
        return String::from_str(alloc, "no sequence");
    }
    match resolve(alloc, seq) {
        Ok(tree) => {
            let (lefts, rights) = (lefts(&tree), rights(&tree));
            format!(in alloc; "{lefts} {rights}")
        }
        Err(error) => columns(alloc, error),
    }
}

fn lefts(tree: &Graded) -> u32 {
    let mut count = 0u32;
    let mut current = tree;
    while let Graded::Binary { left, .. } = current {
        current = left.get();
        count = count.saturating_add(1);
    }
    count
}

fn rights(tree: &Graded) -> u32 {
    let mut count = 0u32;
    let mut current = tree;
    while let Graded::Binary { right, .. } = current {
        current = right.get();
        count = count.saturating_add(1);
    }
    count
}
