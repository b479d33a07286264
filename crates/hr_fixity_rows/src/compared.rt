//! `resolve` beside the enumeration of all trees.
use crate::found::{Answer, Enumeration};
use crate::sequence;
use crate::trees::{Numbers, node};
use hr_fixity::{FixityError, Graded, Infix, resolve};
use std::alloc::{AllocError, Global};

/// The sequences with up to so many operators are answered alike: how many they are, or the first that is not.
pub fn answer(alloc: Global, operators: Option<u32>) -> Result<String, AllocError> {
    let mut texts = vec![in alloc;
        String::from_str(alloc, "x")?,
        String::from_str(alloc, "-x")?,
    ]?;
    let mut count = 0u64;
    for _ in 0..operators.unwrap_or(0) {
        texts = longer(alloc, &texts)?;
        for text in &texts {
            if !agrees(alloc, text)? {
                return format!(in alloc; "{text} is answered otherwise");
            }
            count = count.saturating_add(1);
        }
    }
    format!(in alloc; "{count} alike")
}

fn numbers_of(alloc: Global, tree: &Graded) -> Result<Numbers, AllocError> {
    match tree {
        Graded::Operand(number) => node(alloc, *number, &[], &[]),
        Graded::Negated { minus, operand } => {
            let operand = numbers_of(alloc, operand.get())?;
            node(alloc, *minus, &operand, &[])
        }
        Graded::Binary {
            operator,
            left,
            right,
        } => {
            let left = numbers_of(alloc, left.get())?;
            let right = numbers_of(alloc, right.get())?;
            node(alloc, *operator, &left, &right)
        }
    }
}

fn resolved(alloc: Global, seq: &Infix) -> Result<Answer, AllocError> {
    if !seq.is_sequence() {
        return Ok(Answer::Nothing);
    }
    match resolve(alloc, seq) {
        Ok(tree) => Ok(Answer::Tree(numbers_of(alloc, &tree)?)),
        Err(FixityError::FixityConflict { left, right }) => Ok(Answer::Shown(
            left.pos.col,
            right.pos.col,
        )),
        Err(FixityError::Memory(error)) => Err(error),
    }
}

/// Each sequence that is a shorter one with an operator and a term behind it.
fn longer(alloc: Global, shorter: &[String]) -> Result<Vec<String>, AllocError> {
    let mut found = Vec::new(alloc);
    for text in shorter {
        for operator in ["5l", "5r", "5n", "6l", "6r", "6n", "7l", "7r", "7n"] {
            for term in ["x", "-x"] {
                found.push(format!(in alloc; "{text}{operator}{term}")?)?;
            }
        }
    }
    Ok(found)
}

/// Whether `resolve` gives what the enumeration gives, with each root that can be demanded.
fn agrees(alloc: Global, text: &str) -> Result<bool, AllocError> {
    let mut seq = sequence::of(alloc, text.as_bytes(), None)?;
    let all = Enumeration::new(alloc, seq.parts.as_slice())?;
    if resolved(alloc, &seq)? != all.answer(alloc, seq.parts.as_slice(), None)? {
        return Ok(false);
    }
    let mut root = 0u32;
    for _ in 0..seq.parts.len() {
        seq.root = Some(root);
        if seq.is_sequence()
            && resolved(alloc, &seq)? != all.answer(alloc, seq.parts.as_slice(), Some(root))?
        {
            return Ok(false);
        }
        root = root.saturating_add(1);
    }
    Ok(true)
}
