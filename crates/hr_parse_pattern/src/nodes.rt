//! The nodes of patterns, with their heights. Each is made and boxed in one step.
ghost use Rattle.std.specs.Prelude.{◌≡◌, IfOk};
ghost use Rattle.hr_tree.specs.declared.patterns.Pat.{Pat};
ghost use Rattle.hr_parse_pattern.specs.Nodes.{applied_of, deeper, infix_of};

use crate::take::below;
use crate::{Many, Operands, Part, Parts};
use hr_base::Item;
use hr_parse_lexeme::Held;
use hr_tree::{Constructor, Pat, Variable};
use sqlite_items::Boxed;
use std::alloc::{AllocError, Global};

/// A pattern without patterns in it.
pub fn leaf(alloc: Global, pattern: Pat) -> Result<Part<Pat>, AllocError>
    ensures { IfOk result (λ part. part ≡ record { tree = pattern; height = 1 }) }
{
    Ok(Part {
        tree: Boxed::new(alloc, pattern)?,
        height: 1,
    })
}

pub fn variable_pattern(alloc: Global, bound: Variable) -> Result<Part<Pat>, AllocError>
    ensures { IfOk result (λ part. part ≡ record { tree = Pat.Variable bound; height = 1 }) }
{
    leaf(alloc, Pat::Variable(bound))
}

pub(crate) fn constructor(alloc: Global, named: Constructor) -> Result<Part<Pat>, AllocError>
    ensures { IfOk result (λ part. part ≡ record { tree = Pat.Constructor named; height = 1 }) }
{
    leaf(alloc, Pat::Constructor(named))
}

pub(crate) fn bound_as(
    alloc: Global,
    bound: Held<Variable>,
    mark: Item,
    part: Part<Pat>,
) -> Result<Part<Pat>, AllocError>
    ensures { IfOk result (λ made. made ≡ record { tree = Pat.As bound mark part.tree; height = deeper part.height }) }
{
    let Part { tree, height } = part;
    Ok(Part {
        tree: Boxed::new(alloc, Pat::As(bound.take(), mark, tree))?,
        height: below(height),
    })
}

pub(crate) fn lazy(alloc: Global, mark: Item, part: Part<Pat>) -> Result<Part<Pat>, AllocError>
    ensures { IfOk result (λ made. made ≡ record { tree = Pat.Lazy mark part.tree; height = deeper part.height }) }
{
    let Part { tree, height } = part;
    Ok(Part {
        tree: Boxed::new(alloc, Pat::Lazy(mark, tree))?,
        height: below(height),
    })
}

pub fn group(
    alloc: Global,
    left: Item,
    part: Part<Pat>,
    right: Item,
) -> Result<Part<Pat>, AllocError>
    ensures { IfOk result (λ made. made ≡ record { tree = Pat.Group left part.tree right; height = deeper part.height }) }
{
    let Part { tree, height } = part;
    Ok(Part {
        tree: Boxed::new(alloc, Pat::Group(left, tree, right))?,
        height: below(height),
    })
}

pub fn tuple(
    alloc: Global,
    left: Item,
    parts: Parts<Pat>,
    right: Item,
) -> Result<Part<Pat>, AllocError>
    ensures { IfOk result (λ made. made ≡ record { tree = Pat.Tuple left parts.list right; height = deeper parts.height }) }
{
    let Parts { list, height } = parts;
    Ok(Part {
        tree: Boxed::new(alloc, Pat::Tuple(left, list, right))?,
        height: below(height),
    })
}

pub fn list(
    alloc: Global,
    left: Item,
    parts: Parts<Pat>,
    right: Item,
) -> Result<Part<Pat>, AllocError>
    ensures { IfOk result (λ made. made ≡ record { tree = Pat.List left parts.list right; height = deeper parts.height }) }
{
    let Parts { list, height } = parts;
    Ok(Part {
        tree: Boxed::new(alloc, Pat::List(left, list, right))?,
        height: below(height),
    })
}

/// The constructor with its arguments, if it has some.
pub fn applied(
    alloc: Global,
    named: Constructor,
    arguments: Many<Pat>,
) -> Result<Part<Pat>, AllocError>
    ensures { IfOk result (λ made. made ≡ applied_of named arguments) }
{
    let Many { list, height } = arguments;
    if list.len() == 0 {
        return constructor(alloc, named);
    }
    Ok(Part {
        tree: Boxed::new(alloc, Pat::Apply(named, list))?,
        height: below(height),
    })
}

/// The operands with the last one behind them, which stands alone where there is no other.
pub fn infix(
    alloc: Global,
    operands: Operands<Pat>,
    last: Part<Pat>,
) -> Result<Part<Pat>, AllocError>
    ensures { IfOk result (λ made. made ≡ infix_of operands last) }
{
    if operands.list.len() == 0 {
        return Ok(last);
    }
    let mut operands = operands;
    operands.push(None, last, None)?;
    let Operands { list, height } = operands;
    Ok(Part {
        tree: Boxed::new(alloc, Pat::Infix(list))?,
        height: below(height),
    })
}
