//! The trees of a list of parts by trying all derivations: the Report's graded productions written out a second
//! time, plainly.
use hr_fixity::{Direction, Fixity, Part};
use std::alloc::{AllocError, Global};

/// exp^i, lexp^i and rexp^i of the Report.
#[derive(Clone, Copy)]
pub enum Symbol {
    Any(u32),
    LeftOnly(u32),
    RightOnly(u32),
}

/// The productions of a nonterminal that have this infix operator: the nonterminals of its operands.
fn operands(
    alloc: Global,
    symbol: Symbol,
    fixity: Fixity,
) -> Result<Vec<(Symbol, Symbol)>, AllocError> {
    let level = u32::from(fixity.level);
    let above = Symbol::Any(level.saturating_add(1));
    match (symbol, fixity.direction) {
        (Symbol::Any(i), Direction::Neither) if i == level => Ok(vec![in alloc; (above, above)]?),
        (Symbol::LeftOnly(i), Direction::Left) if i == level => Ok(vec![in alloc;
            (symbol, above),
            (above, above),
        ]?),
        (Symbol::RightOnly(i), Direction::Right) if i == level => Ok(vec![in alloc;
            (above, symbol),
            (above, above),
        ]?),
        _ => Ok(Vec::new(alloc)),
    }
}

/// The lowest level of an operator among the parts.
fn lowest_level(parts: &[Part]) -> Option<u32> {
    let mut lowest = None;
    for part in parts {
        if let Some(level) = level(part) {
            let level = u32::from(level);
            lowest = match lowest {
                Some(other) if other <= level => Some(other),
                _ => Some(level),
            };
        }
    }
    lowest
}

/// A tree by the numbers of its parts: an operator or a prefix minus comes before its operands.
pub type Numbers = Vec<u32>;

pub fn node(
    alloc: Global,
    number: u32,
    left: &[u32],
    right: &[u32],
) -> Result<Numbers, AllocError> {
    let mut numbers = Vec::new(alloc);
    numbers.push(number)?;
    numbers.extend_from_slice(left)?;
    numbers.extend_from_slice(right)?;
    Ok(numbers)
}

/// Each left operand with each right one.
fn push_nodes(
    found: &mut Vec<Numbers>,
    number: u32,
    lefts: &[Numbers],
    rights: &[Numbers],
    alloc: Global,
) -> Result<(), AllocError> {
    for left in lefts {
        for right in rights {
            found.push(node(alloc, number, left, right)?)?;
        }
    }
    Ok(())
}

/// The trees that the productions derive for the parts, numbered from `first`. Each step of a
/// derivation takes one of the turns. The steps from exp^i to exp^(i+1) are made at once up to the
/// lowest level of an operator: below it exp^i has no other production that fits, and above it none
/// that has the operator.
pub fn trees(
    alloc: Global,
    symbol: Symbol,
    first: u32,
    parts: &[Part],
    turns: u32,
) -> Result<Vec<Numbers>, AllocError> {
    let mut found = Vec::new(alloc);
    let Some(turns) = turns.checked_sub(1) else {
        return Ok(found);
    };
    let symbol = match (symbol, lowest_level(parts)) {
        (Symbol::Any(_), None) => Symbol::Any(10),
        (Symbol::Any(i), Some(level)) if i <= level => Symbol::Any(level),
        (Symbol::Any(_), Some(_)) => return Ok(found),
        (symbol, _) => symbol,
    };
    match (symbol, parts) {
        (Symbol::Any(10), [Part::Operand]) => found.push(node(alloc, first, &[], &[])?)?,
        (Symbol::Any(10), _) => {}
        (Symbol::Any(i), _) => {
            for symbol in [Symbol::LeftOnly(i), Symbol::RightOnly(i)] {
                found.append(&mut trees(alloc, symbol, first, parts, turns)?)?;
            }
        }
        (Symbol::LeftOnly(6), [Part::Minus { .. }, rest @ ..]) => {
            for tree in &trees(alloc, Symbol::Any(7), first.saturating_add(1), rest, turns)? {
                found.push(node(alloc, first, tree, &[])?)?;
            }
        }
        (Symbol::LeftOnly(6), [Part::PatternMinus { .. }, Part::Operand]) => {
            found.push(node(alloc, first, &[first.saturating_add(1)], &[])?)?;
        }
        _ => {}
    }
    let mut number = first;
    for (at, part) in parts.iter().enumerate() {
        if let Part::Operator { fixity, .. } = part
            && let (before, [_, behind @ ..]) = parts.split_at(at)
        {
            for (left, right) in operands(alloc, symbol, *fixity)? {
                let lefts = trees(alloc, left, first, before, turns)?;
                let rights = trees(alloc, right, number.saturating_add(1), behind, turns)?;
                push_nodes(&mut found, number, &lefts, &rights, alloc)?;
            }
        }
        number = number.saturating_add(1);
    }
    Ok(found)
}

/// The level of an operator; a prefix minus has 6.
pub fn level(part: &Part) -> Option<u8> {
    match part {
        Part::Operand => None,
        Part::Operator { fixity, .. } => Some(fixity.level),
        Part::Minus { .. } => Some(6),
        Part::PatternMinus { .. } => Some(6),
    }
}
