//! Patterns in brackets, with commas between them.
ghost use Rattle.std.specs.Prelude.{◌≡◌, ◌+◌, ◌≤◌, length, IfOk};
ghost use Rattle.hr_parse_pattern.specs.Nodes.{closed_of, square_of};

use crate::nodes::{group, list, tuple};
use crate::{Part, Parts};
use hr_base::Item;
use hr_parse_lexeme::{MOST_COMMAS, Stop, nest};
use hr_tree::Pat;
use std::alloc::Global;

/// Patterns with commas behind them, and the last one.
#[derive(Drop)]
pub(crate) struct Separated {
    pub(crate) others: Parts<Pat>,
    pub(crate) last: Part<Pat>,
}

/// A pattern in parentheses, or a tuple where there are several; `depth` is the nesting of the patterns. That they fit
/// is known where they were read; those of the caller are tested here.
pub(crate) fn closed(
    alloc: Global,
    depth: u32,
    left: Item,
    separated: Separated,
    right: Item,
) -> Result<Part<Pat>, Stop>
    ensures made { IfOk result (λ part. part ≡ closed_of left separated right) }
    ensures few { IfOk result (λ part. length separated.others.list ≤ 14) }
    ensures fits { IfOk result (λ part. depth + part.height ≤ 257) }
{
    let Separated { mut others, last } = separated;
    if others.len() > MOST_COMMAS {
        return Err(Stop::Syntax);
    }
    nest(depth, others.height.max(last.height))?;
    if others.len() == 0 {
        return Ok(group(alloc, left, last, right)?);
    }
    others.push(last, None)?;
    Ok(tuple(alloc, left, others, right)?)
}

/// A list of patterns.
pub(crate) fn closed_square(
    alloc: Global,
    depth: u32,
    left: Item,
    separated: Separated,
    right: Item,
) -> Result<Part<Pat>, Stop>
    ensures made { IfOk result (λ part. part ≡ square_of left separated right) }
    ensures fits { IfOk result (λ part. depth + part.height ≤ 257) }
{
    let Separated { mut others, last } = separated;
    nest(depth, others.height.max(last.height))?;
    others.push(last, None)?;
    Ok(list(alloc, left, others, right)?)
}
