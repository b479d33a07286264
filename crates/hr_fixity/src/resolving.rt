ghost use Rattle.std.specs.Prelude.{◌≡◌, ℕ, ◌<◌, ◌^◌, ◌-◌, length, IfOk, IfErr, MatchOption, MatchResult, [], if◌then◌else◌, None, Some};
ghost use Rattle.hr_fixity.specs.Reader as reader;
ghost use Rattle.hr_fixity.specs.Resolved.{IsResolved, IsRefused, IsMemory};
ghost use Rattle.hr_fixity.specs.Sequence.{IsInfixSequence, IsBehindOperand};
ghost use Rattle.hr_fixity.specs.declared.tree.Graded.{Graded};
ghost use Rattle.hr_fixity.specs.declared.tree.Graded.TheVariants as tree;

use crate::blame::conflict;
use crate::stack::{Open, Stack};
use crate::{Fixity, FixityError, Graded, Infix, Part};
use std::alloc::{AllocError, Global};

/// Whether the demand for the root is kept where the operator `number` has just found its left
/// operand: nothing is open round the demanded operator, and something is round each later one.
fn keeps_root(root: Option<u32>, number: u32, is_outermost: bool) -> bool
    ensures { result ≡ reader.keeps_root root number is_outermost }
{
    match root {
        None => true,
        Some(root) => {
            if number < root {
                true
            } else if number == root {
                is_outermost
            } else {
                !is_outermost
            }
        }
    }
}

/// Opens an infix operator behind an operand. False says that it has no place there.
fn open_operator(
    alloc: Global,
    stack: &mut Stack,
    root: Option<u32>,
    number: u32,
    fixity: Fixity,
) -> Result<bool, AllocError>
    requires { 0 < number }
    ensures { IfOk result (λ opened. reader.open_operator root number fixity (reader.with_left_operand stack.old (tree.Operand (number - 1)) fixity) ≡ if opened then Some stack.new else None) }
{
    match stack.left_of(alloc, Graded::Operand(number - 1), fixity)? {
        None => Ok(false),
        Some(left) => {
            if !keeps_root(root, number, stack.is_empty()) {
                return Ok(false);
            }
            stack.push(Open::Operator {
                number,
                fixity,
                left,
            })?;
            Ok(true)
        }
    }
}

/// Takes the part of this number. False says that it is an operator with no place there.
fn take_part(
    alloc: Global,
    stack: &mut Stack,
    root: Option<u32>,
    number: u32,
    part: &Part,
) -> Result<bool, AllocError>
    requires { IsBehindOperand number part.now }
    ensures { IfOk result (λ taken. reader.take_part root number part.now stack.old ≡ if taken then Some stack.new else None) }
{
    match part {
        Part::Operand => Ok(true),
        Part::Minus { .. } => stack.open_minus(Open::Minus { number }),
        Part::PatternMinus { .. } => stack.open_minus(Open::PatternMinus { number }),
        Part::Operator { fixity, .. } => open_operator(alloc, stack, root, number, *fixity),
    }
}

/// Takes the parts in order, up to the first that has no place: its number is the answer.
fn take_parts(alloc: Global, stack: &mut Stack, seq: &Infix) -> Result<Option<usize>, AllocError>
    requires sequence { IsInfixSequence seq.now }
    requires fresh { stack.old ≡ [] }
    ensures { IfOk result (λ stop. MatchOption stop (reader.run seq.now.root 0 seq.now.parts [] ≡ Some stack.new) (reader.IsFirstUntaken seq.now)) }
{
    for (number, part) in seq.parts.as_slice().iter().enumerate() {
        if !take_part(alloc, stack, seq.root, number as u32, part)? {
            return Ok(Some(number));
        }
    }
    Ok(None)
}

/// The tree of a sequence.
pub fn resolve(alloc: Global, seq: &Infix) -> Result<Graded, FixityError>
    requires { IsInfixSequence seq.now }
    ensures tree { IfOk result (IsResolved seq.now) }
    ensures only { (t : Graded) → IsResolved seq.now t → MatchResult result (λ u. u ≡ t) IsMemory }
    ensures refusal { IfErr result (IsRefused seq.now) }
{
    let parts = seq.parts.as_slice();
    let mut stack = Stack::new(alloc);
    match take_parts(alloc, &mut stack, seq) {
        Ok(None) => {
            let operand = Graded::Operand((parts.len() - 1) as u32);
            match stack.close_all(alloc, operand) {
                Ok(tree) => Ok(tree),
                Err(error) => Err(FixityError::Memory(error)),
            }
        }
        Ok(Some(number)) => Err(conflict(parts.split_at(number).0, &parts[number])),
        Err(error) => Err(FixityError::Memory(error)),
    }
}
