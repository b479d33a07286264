//! What the enumeration of all trees answers.
use crate::trees::{Numbers, Symbol, level, trees};
use hr_fixity::Part;
use std::alloc::{AllocError, Global};

/// The trees of a sequence, and those of its beginnings up to the right operand of each operator.
#[derive(Drop)]
pub struct Enumeration {
    whole: Vec<Numbers>,
    fronts: Vec<(usize, Vec<Numbers>)>,
}

impl Enumeration {
    pub fn new(alloc: Global, parts: &[Part]) -> Result<Enumeration, AllocError> {
        let mut fronts = Vec::new(alloc);
        let mut front = Vec::new(alloc);
        for (number, part) in parts.iter().enumerate() {
            front.push(part.clone()?)?;
            if level(part).is_some() {
                front.push(Part::Operand)?;
                fronts.push((number, trees(alloc, Symbol::Any(0), 0, &front, 64)?))?;
                let _ = front.pop();
            }
        }
        Ok(Enumeration {
            whole: trees(alloc, Symbol::Any(0), 0, parts, 64)?,
            fronts,
        })
    }

    /// The answer, with a root that is demanded.
    pub fn answer(
        &self,
        alloc: Global,
        parts: &[Part],
        root: Option<u32>,
    ) -> Result<Answer, AllocError> {
        let mut found = None;
        for tree in &self.whole {
            if has_root(tree, root) {
                if found.is_some() {
                    return Ok(Answer::Several);
                }
                found = Some(tree);
            }
        }
        if let Some(tree) = found {
            return Ok(Answer::Tree(tree.clone()?));
        }
        for (number, trees) in &self.fronts {
            let kept = match root {
                Some(root) if root as usize <= *number => Some(root),
                _ => None,
            };
            if !trees.iter().any(|tree| has_root(tree, kept)) {
                return Ok(shown(parts, *number));
            }
        }
        Ok(Answer::Nothing)
    }
}

/// A tree, or the columns of the two operators that are shown.
#[derive(Debug, Drop, PartialEq)]
pub enum Answer {
    Tree(Numbers),
    Shown(u32, u32),
    Several,
    Nothing,
}

/// Whether the tree has the demanded operator at the root.
fn has_root(tree: &[u32], root: Option<u32>) -> bool {
    match (root, tree) {
        (None, _) => true,
        (Some(root), [first, ..]) => *first == root,
        (Some(_), []) => false,
    }
}

/// The columns that are shown where the operator of this number has no place.
fn shown(parts: &[Part], number: usize) -> Answer {
    let mut left = 0u32;
    let mut column = 0u32;
    for (at, part) in parts.iter().enumerate() {
        column = column.saturating_add(1);
        if at == number {
            left = left_column(parts.split_at(at).0, part);
            break;
        }
    }
    Answer::Shown(left, column)
}

/// The column of the operator that is shown beside the one behind the parts.
fn left_column(before: &[Part], part: &Part) -> u32 {
    let limit = match part {
        Part::Operator { fixity, .. } => fixity.level,
        _ => 9,
    };
    let mut nearest = 0;
    let mut within = 0;
    let mut column = 0u32;
    for part in before {
        column = column.saturating_add(1);
        if let Some(level) = level(part) {
            nearest = column;
            if level <= limit {
                within = column;
            }
        }
    }
    if within == 0 { nearest } else { within }
}
