//! Refusals as the report shows them.

use crate::{Sought, Why};
use hr_base::{Bound, Entity, Place, Text};
use std::alloc::{AllocError, Global};

/// The number of the refusal and its fields, with a blank between; nothing for want of memory.
pub fn shown(alloc: Global, why: &Why) -> Result<Vec<u8>, AllocError> {
    let mut line = Vec::new(alloc);
    if let Some(number) = why.number() {
        let number = format!(in alloc; "{number}")?;
        line.extend_from_slice(number.as_bytes())?;
    }
    push_fields(alloc, &mut line, why)?;
    Ok(line)
}

/// Adds the fields, each behind a blank. A type is shown by the layer that spells types.
fn push_fields(alloc: Global, line: &mut Vec<u8>, why: &Why) -> Result<(), AllocError> {
    match why {
        Why::NoSuchThing { at } => match at {
            Sought::At(place) => push_place(alloc, line, place),
            Sought::Name(name) => push_text(line, name),
        },
        Why::Builtin { entity } => push_entity(line, entity),
        Why::NotSimpleBinding { place } => push_place(alloc, line, place),
        Why::InfixUse { place } => push_place(alloc, line, place),
        Why::UsedIn { first, second } => {
            push_maybe_place(alloc, line, first)?;
            push_maybe_place(alloc, line, second)
        }
        Why::Exported { entity } => push_entity(line, entity),
        Why::MentionsItself { place } => push_place(alloc, line, place),
        Why::LocalInExpression { name } => push_text(line, name),
        Why::ParameterUsed { place } => push_place(alloc, line, place),
        Why::TooFewArguments { place } => push_place(alloc, line, place),
        Why::WouldCycle { names } => push_texts(line, names.as_slice()),
        Why::NotInScopeThere { name } => push_text(line, name),
        Why::NotFlatCase { place } => push_place(alloc, line, place),
        Why::OperatorConstructor { name } => push_text(line, name),
        Why::WouldRebind { occ, old, new } => {
            push_place(alloc, line, occ)?;
            push_bound(alloc, line, old)?;
            push_maybe_bound(alloc, line, new)
        }
        Why::WouldDeclareTwice { first, second } => {
            push_place(alloc, line, first)?;
            push_place(alloc, line, second)
        }
        Why::WouldClashExport { module, name } => {
            push_text(line, module)?;
            push_text(line, name)
        }
        Why::WouldNotType { module, group } => {
            push_text(line, module)?;
            push_text(line, group)
        }
        _ => Ok(()),
    }
}

fn push_bytes(line: &mut Vec<u8>, bytes: &[u8]) -> Result<(), AllocError> {
    line.push(b' ')?;
    line.extend_from_slice(bytes)?;
    Ok(())
}

fn push_text(line: &mut Vec<u8>, text: &Text) -> Result<(), AllocError> {
    push_bytes(line, text.as_slice())
}

fn push_texts(line: &mut Vec<u8>, texts: &[Text]) -> Result<(), AllocError> {
    for text in texts {
        push_text(line, text)?;
    }
    Ok(())
}

fn push_place(alloc: Global, line: &mut Vec<u8>, place: &Place) -> Result<(), AllocError> {
    push_text(line, &place.module)?;
    let pos = format!(in alloc; ":{}:{}", place.pos.line, place.pos.col)?;
    line.extend_from_slice(pos.as_bytes())?;
    Ok(())
}

fn push_maybe_place(
    alloc: Global,
    line: &mut Vec<u8>,
    place: &Option<Place>,
) -> Result<(), AllocError> {
    match place {
        Some(place) => push_place(alloc, line, place),
        None => push_bytes(line, b"-"),
    }
}

fn push_entity(line: &mut Vec<u8>, entity: &Entity) -> Result<(), AllocError> {
    push_text(line, &entity.module)?;
    line.push(b'.')?;
    line.extend_from_slice(entity.text.as_slice())?;
    Ok(())
}

fn push_bound(alloc: Global, line: &mut Vec<u8>, bound: &Bound) -> Result<(), AllocError> {
    match bound {
        Bound::Global(entity) => push_entity(line, entity),
        Bound::Local(place) => push_place(alloc, line, place),
    }
}

fn push_maybe_bound(
    alloc: Global,
    line: &mut Vec<u8>,
    bound: &Option<Bound>,
) -> Result<(), AllocError> {
    match bound {
        Some(bound) => push_bound(alloc, line, bound),
        None => push_bytes(line, b"-"),
    }
}
