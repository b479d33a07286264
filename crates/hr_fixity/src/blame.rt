ghost use Rattle.std.specs.Prelude.{◌≡◌, IfOk, IsSome, reverse, Some};
ghost use Rattle.std.specs.List.{find};
ghost use Rattle.std.specs.Option.{option_copied};
ghost use Rattle.hr_fixity.specs.Resolved.{ShowsPair, beside, is_operator, is_within, level_of, place_at, operator_place};
ghost use Rattle.hr_fixity.specs.declared.sequence.Part.TheVariants.{Operator};

use crate::{FixityError, Part};
use hr_base::Place;
use std::alloc::AllocError;

/// The level of an operator or a prefix minus.
fn level(part: &Part) -> Option<u8>
    ensures { result ≡ level_of part.now }
{
    match part {
        Part::Operand => None,
        Part::Operator { fixity, .. } => Some(fixity.level),
        Part::Minus { .. } => Some(6),
        Part::PatternMinus { .. } => Some(6),
    }
}

/// The place of an operator or a prefix minus.
fn place(part: &Part) -> Option<&Place>
    ensures { option_copied result ≡ operator_place part.now }
{
    match part {
        Part::Operand => None,
        Part::Operator { place, .. } => Some(place),
        Part::Minus { place } => Some(place),
        Part::PatternMinus { place } => Some(place),
    }
}

fn is_operator(part: &Part) -> bool
    ensures { result ≡ is_operator part.now }
{
    level(part).is_some()
}

/// Whether the part is an operator whose level isn't above the limit.
fn is_within(part: &Part, limit: u8) -> bool
    ensures { result ≡ is_within limit part.now }
{
    match level(part) {
        None => false,
        Some(level) => level <= limit,
    }
}

/// The last operator.
fn last(parts: &[Part]) -> Option<&Part>
    ensures { option_copied result ≡ find is_operator (reverse parts.now) }
{
    parts.iter().rev().find(|part| is_operator(part))
}

/// The last operator whose level isn't above the limit.
fn last_within(parts: &[Part], limit: u8) -> Option<&Part>
    ensures { option_copied result ≡ find (is_within limit) (reverse parts.now) }
{
    parts.iter().rev().find(|part| is_within(part, limit))
}

/// The operator that is shown beside the one behind these parts.
fn shown_beside<'a>(before: &'a [Part], part: &Part) -> Option<&'a Part>
    ensures { option_copied result ≡ beside before.now part.now }
{
    match part {
        Part::Operator { fixity, .. } => match last_within(before, fixity.level) {
            Some(left) => Some(left),
            None => last(before),
        },
        Part::Operand => last(before),
        Part::Minus { .. } => last(before),
        Part::PatternMinus { .. } => last(before),
    }
}

/// The refusal of the operator behind these parts.
pub fn conflict(before: &[Part], part: &Part) -> FixityError
    requires left { IsSome (place_at (beside before.now part.now)) }
    requires right { IsSome (operator_place part.now) }
    ensures { ShowsPair before.now part.now result }
{
    match shown_beside(before, part) {
        None => unreachable!(),
        Some(left) => match (place(left), place(part)) {
            (Some(left), Some(right)) => match copies(left, right) {
                Ok((left, right)) => FixityError::FixityConflict { left, right },
                Err(error) => FixityError::Memory(error),
            },
            _ => unreachable!(),
        },
    }
}

fn copies(left: &Place, right: &Place) -> Result<(Place, Place), AllocError>
    ensures { IfOk result (λ copies. copies ≡ (left.now, right.now)) }
{
    Ok((left.clone()?, right.clone()?))
}
