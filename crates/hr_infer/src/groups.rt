//! The typing of one top-level group, and of a group without a typing what is shown.
use hr_base::Entity;
use hr_type::Scheme;
use hr_typing_code::Group;
use hr_typing_machine::{Context, Halt, Machine};
use hr_typing_walk::Rule;
use std::alloc::{AllocError, Global};

/// What comes of a group: its names' types, or why it has none.
#[derive(Drop)]
pub enum Outcome {
    Typed(Vec<(Entity, Scheme)>),
    /// no types, even where signatures hold at uses only
    Ill,
    /// the lexeme of the signature that can't be demanded along with those before it
    TooGeneral(usize),
}

/// Types a group.
pub fn type_group(alloc: Global, context: Context, group: &Group) -> Result<Outcome, AllocError> {
    if let Some(schemes) = run(alloc, context, group, usize::MAX)? {
        return Ok(Outcome::Typed(schemes));
    }
    if run(alloc, context, group, 0)?.is_none() {
        return Ok(Outcome::Ill);
    }
    let lexemes = signature_lexemes(alloc, context, group)?;
    Ok(Outcome::TooGeneral(first_refused(alloc, context, group, lexemes.as_slice())?))
}

/// The types of a group whose signatures before a lexeme are demanded.
fn run(
    alloc: Global,
    context: Context,
    group: &Group,
    demanded: usize,
) -> Result<Option<Vec<(Entity, Scheme)>>, AllocError> {
    let mut machine = Machine::new(alloc, context, demanded);
    match schemes_of(&mut machine, group) {
        Ok(schemes) => Ok(Some(schemes)),
        Err(Halt::Refused) => Ok(None),
        Err(Halt::Memory(error)) => Err(error),
    }
}

fn schemes_of(machine: &mut Machine, group: &Group) -> Result<Vec<(Entity, Scheme)>, Halt> {
    machine.run(group.rules.as_slice())?;
    Ok(machine.schemes(group.names.as_slice())?)
}

/// The lexemes of the signatures that a group has, in text order.
fn signature_lexemes(
    alloc: Global,
    context: Context,
    group: &Group,
) -> Result<Vec<usize>, AllocError> {
    let mut lexemes = Vec::new(alloc);
    for name in group.names.as_slice() {
        if let Some(binder) = context.binder(*name) {
            if let Some(sign) = context.signs.get(binder).copied() {
                lexemes.push(sign.lexeme)?;
            }
        }
    }
    for rule in group.rules.as_slice() {
        match rule {
            Rule::Sign(signed) => lexemes.push(signed.name)?,
            Rule::Annotated(colons) => lexemes.push(*colons)?,
            _ => {}
        }
    }
    lexemes.sort()?;
    Ok(lexemes)
}

/// The first of the signatures that can't be demanded along with those before it. Where more are demanded, fewer
/// typings are left, so it is found by halving.
fn first_refused(
    alloc: Global,
    context: Context,
    group: &Group,
    lexemes: &[usize],
) -> Result<usize, AllocError> {
    let mut from = 0usize;
    let mut to = lexemes.len();
    for _ in 0..usize::BITS {
        let middle = from.saturating_add(to) / 2;
        if from >= to {
            break;
        }
        let lexeme = lexemes.get(middle).copied().unwrap_or(usize::MAX);
        if run(alloc, context, group, lexeme.saturating_add(1))?.is_some() {
            from = middle.saturating_add(1);
        } else {
            to = middle;
        }
    }
    Ok(lexemes.get(from).copied().unwrap_or(0))
}
