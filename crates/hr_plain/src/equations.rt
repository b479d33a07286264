ghost use Rattle.std.specs.Prelude.{◌≡◌, ◌++◌, IfOk, OnOk};
ghost use Rattle.std.specs.Option.{option_to_list};
ghost use Rattle.hr_plain.specs.Reading as spec;

use crate::expressions::{Body, HEIGHT_LIMIT, body_end, body_with, is_within, nothing_read};
use crate::lexemes::{is_at_margin, is_mark, is_pattern, is_plain_variable};
use hr_base::{Item, Seq};
use hr_plain_tree::{Equation, Exp};
use std::alloc::{AllocError, Global};

/// An equation of which items are still to come.
#[derive(Drop)]
pub enum Part {
    /// Before its `=`.
    Left {
        name: Item,
        patterns: Seq<Item>,
    },
    /// Behind it.
    Right {
        name: Item,
        patterns: Seq<Item>,
        equals: Item,
        body: Body,
    },
}

/// The equations that the items are; each begins at the margin, and no other item stands there.
pub fn equations(alloc: Global, items: Seq<Item>) -> Result<Option<Seq<Equation>>, AllocError>
    ensures { IfOk result (λ found. found ≡ spec.equations_of items) }
{
    let mut list = Vec::new(alloc);
    let mut part = None;
    for item in items.list {
        match step(alloc, part, item)? {
            Some((ended, next)) => {
                push_ended(&mut list, ended)?;
                part = Some(next);
            }
            None => return Ok(None),
        }
    }
    match last_of(part) {
        Some(last) => {
            push_ended(&mut list, last)?;
            Ok(Some(Seq { list }))
        }
        None => Ok(None),
    }
}

/// Puts the equation, if there is one, behind the others.
fn push_ended(list: &mut Vec<Equation>, ended: Option<Equation>) -> Result<(), AllocError>
    ensures { OnOk result (list.new.items ≡ list.old.items ++ option_to_list ended) }
{
    match ended {
        Some(equation) => {
            list.push(equation)?;
            Ok(())
        }
        None => Ok(()),
    }
}

/// The equation that ends before the item, if one does, and the part that the item is of; none where
/// no text of the form goes on so.
fn step(
    alloc: Global,
    part: Option<Part>,
    item: Item,
) -> Result<Option<(Option<Equation>, Part)>, AllocError>
    ensures { IfOk result (λ found. found ≡ spec.step part item) }
{
    match part {
        None => {
            if is_at_margin(&item, true) {
                Ok(begun_behind(alloc, None, item))
            } else {
                Ok(None)
            }
        }
        Some(part) => {
            if is_at_margin(&item, false) {
                match part_end(part) {
                    Some(equation) => Ok(begun_behind(alloc, Some(equation), item)),
                    None => Ok(None),
                }
            } else {
                match part_with(alloc, part, item)? {
                    Some(longer) => Ok(Some((None, longer))),
                    None => Ok(None),
                }
            }
        }
    }
}

/// The part that the item begins, behind the equation.
fn begun_behind(
    alloc: Global,
    ended: Option<Equation>,
    name: Item,
) -> Option<(Option<Equation>, Part)>
    ensures { result ≡ spec.begun_behind ended name }
{
    if is_plain_variable(&name) {
        let patterns = Seq {
            list: Vec::new(alloc),
        };
        Some((ended, Part::Left { name, patterns }))
    } else {
        None
    }
}

/// The part with the next item.
fn part_with(alloc: Global, part: Part, item: Item) -> Result<Option<Part>, AllocError>
    ensures { IfOk result (λ found. found ≡ spec.part_with part item) }
{
    match part {
        Part::Left { name, patterns } => left_with(alloc, name, patterns, item),
        Part::Right {
            name,
            patterns,
            equals,
            body,
        } => match body_with(alloc, body, item)? {
            Some(body) => Ok(Some(Part::Right {
                name,
                patterns,
                equals,
                body,
            })),
            None => Ok(None),
        },
    }
}

fn left_with(
    alloc: Global,
    name: Item,
    patterns: Seq<Item>,
    item: Item,
) -> Result<Option<Part>, AllocError>
    ensures { IfOk result (λ found. found ≡ spec.left_with name patterns item) }
{
    if is_pattern(&item) {
        let mut patterns = patterns;
        patterns.list.push(item)?;
        return Ok(Some(Part::Left { name, patterns }));
    }
    if is_mark(&item, b'=') {
        return Ok(Some(Part::Right {
            name,
            patterns,
            equals: item,
            body: nothing_read(alloc),
        }));
    }
    Ok(None)
}

/// The equation that the part is.
fn part_end(part: Part) -> Option<Equation>
    ensures { result ≡ spec.part_end part }
{
    match part {
        Part::Left {
            name: _,
            patterns: _,
        } => None,
        Part::Right {
            name,
            patterns,
            equals,
            body,
        } => {
            let body = limited(body)?;
            Some(Equation {
                name,
                patterns,
                equals,
                body,
            })
        }
    }
}

/// The expression, where no more nodes than the limit stand in one another.
fn limited(body: Body) -> Option<Exp>
    ensures { result ≡ spec.limited_end body }
{
    let exp = body_end(body)?;
    if is_within(&exp, HEIGHT_LIMIT) {
        Some(exp)
    } else {
        None
    }
}

/// The last equation, if there is a part.
fn last_of(part: Option<Part>) -> Option<Option<Equation>>
    ensures { result ≡ spec.last_of part }
{
    match part {
        Some(part) => {
            let equation = part_end(part)?;
            Some(Some(equation))
        }
        None => Some(None),
    }
}
