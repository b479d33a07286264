ghost use Rattle.std.specs.Prelude.{◌≡◌, ◌==◌, IfOk};
ghost use Rattle.std.specs.List.{AllByRecursion, list_any};
ghost use Rattle.hr_type.specs.declared.mono.Mono.TheVariants.{Var};
ghost use Rattle.hr_unify.specs.Tasks.{pairs_of};
ghost use Rattle.hr_unify.specs.Unifiers.{IsGood};
ghost use Rattle.hr_unify.specs.Working.{Avoids, Finds, FindsAmong};

use crate::known::{Known, known_type};
use hr_items::{Boxed, Items};
use hr_type::{Mono, copies_of, entity_copied};
use std::alloc::{AllocError, Global};

/// Looks for a variable in a type, through the types of its variables, and answers the type with the
/// types that lead there in their variables' places. `seen` has variables that don't lead there, so
/// that none is looked into twice. It calls itself once a level, `room` times at most: a deeper
/// search wants memory.
#[cycle(find)]
pub fn find<'a>(
    alloc: Global,
    room: u32,
    known: &Known<'a>,
    seen: &mut Vec<u32>,
    variable: u32,
    ty: &'a Mono,
) -> Result<Option<Mono>, AllocError>
    requires good { IsGood (pairs_of known.now) }
    requires avoided { AllByRecursion (Avoids (pairs_of known.now) variable) seen.old.items }
    ensures { IfOk result (λ found. Finds (pairs_of known.now) variable ty.now seen.new.items found) }
{
    let Some(room) = room.checked_sub(1) else {
        return Err(AllocError);
    };
    match ty {
        Mono::Var(other) => find_variable(alloc, room, known, seen, variable, *other),
        Mono::Con(entity, arguments) => {
            match find_among(alloc, room, known, seen, variable, arguments.as_slice())? {
                Some(found) => Ok(Some(Mono::Con(entity_copied(entity)?, found))),
                None => Ok(None),
            }
        }
        Mono::Fun(from, to) => {
            if let Some(found) = find(alloc, room, known, seen, variable, from.get())? {
                let to = Boxed::new(alloc, to.get().copied(alloc)?)?;
                return Ok(Some(Mono::Fun(Boxed::new(alloc, found)?, to)));
            }
            match find(alloc, room, known, seen, variable, to.get())? {
                Some(found) => {
                    let from = Boxed::new(alloc, from.get().copied(alloc)?)?;
                    Ok(Some(Mono::Fun(from, Boxed::new(alloc, found)?)))
                }
                None => Ok(None),
            }
        }
    }
}

#[cycle(find)]
fn find_variable<'a>(
    alloc: Global,
    room: u32,
    known: &Known<'a>,
    seen: &mut Vec<u32>,
    variable: u32,
    other: u32,
) -> Result<Option<Mono>, AllocError>
    requires good { IsGood (pairs_of known.now) }
    requires avoided { AllByRecursion (Avoids (pairs_of known.now) variable) seen.old.items }
    ensures { IfOk result (λ found. Finds (pairs_of known.now) variable (Var other) seen.new.items found) }
{
    if other == variable {
        return Ok(Some(Mono::Var(variable)));
    }
    if is_seen(seen.as_slice(), other) {
        return Ok(None);
    }
    match known_type(known, other) {
        Some(ty) => match find(alloc, room, known, seen, variable, ty)? {
            Some(found) => Ok(Some(found)),
            None => {
                seen.push(other)?;
                Ok(None)
            }
        },
        None => {
            seen.push(other)?;
            Ok(None)
        }
    }
}

#[cycle(find)]
fn find_among<'a>(
    alloc: Global,
    room: u32,
    known: &Known<'a>,
    seen: &mut Vec<u32>,
    variable: u32,
    types: &'a [Mono],
) -> Result<Option<Items<Mono>>, AllocError>
    requires good { IsGood (pairs_of known.now) }
    requires avoided { AllByRecursion (Avoids (pairs_of known.now) variable) seen.old.items }
    ensures { IfOk result (λ found. FindsAmong (pairs_of known.now) variable types.now seen.new.items found) }
{
    for i in 0..types.len() {
        if let Some(found) = find(alloc, room, known, seen, variable, &types[i])? {
            let mut copies = copies_of(alloc, types)?;
            copies.exchange(i, found);
            return Ok(Some(copies));
        }
    }
    Ok(None)
}

fn is_seen(seen: &[u32], variable: u32) -> bool
    ensures { result ≡ list_any (λ other. other == variable) seen.now }
{
    seen.iter().any(|other| *other == variable)
}
