//! A line's command.
ghost use Rattle.std.specs.Prelude.{◌≡◌, map, IfOk, Some};
ghost use Rattle.hr_script.specs.Numbers.{cut_at};
ghost use Rattle.hr_script.specs.Reader as reader;
ghost use Rattle.hr_script.specs.declared.command.Verb.TheVariants as verb;

use crate::numbers::{number_of, pieces, pos_of};
use crate::texts::{is_module_name, is_word};
use crate::{Command, Verb};
use hr_base::{Pos, Text};
use std::alloc::{AllocError, Global};

/// The command that the line is, if it is one that is built.
pub(crate) fn command_of(alloc: Global, line: &[u8]) -> Result<Option<Command>, AllocError>
    ensures { IfOk result (λ found. found ≡ reader.when_built (reader.command_in (cut_at 32 line.now))) }
{
    let words = pieces(alloc, line, b' ')?;
    Ok(when_built(command_in(alloc, words.as_slice())?))
}

/// The command, if it is built.
fn when_built(command: Option<Command>) -> Option<Command>
    ensures { result ≡ reader.when_built command }
{
    match command {
        Some(command) if command.is_built() => Some(command),
        _ => None,
    }
}

/// The command that the words are.
#[tactic(auto, unfolding(crate::specs::Reader::command_in))]
fn command_in(alloc: Global, words: &[&[u8]]) -> Result<Option<Command>, AllocError>
    ensures { IfOk result (λ found. found ≡ reader.command_in (map (λ word. word.now) words.now)) }
{
    match words {
        [] => Ok(None),
        [verb] => Ok(alone(Verb::of_word(verb))),
        [_, _] => Ok(None),
        [verb, first, second] => of_two(alloc, Verb::of_word(verb), first, second),
        [verb, first, second, third] => {
            of_three(alloc, Verb::of_word(verb), first, second, third)
        }
        [_, _, _, _, _, ..] => Ok(None),
    }
}

fn alone(verb: Option<Verb>) -> Option<Command>
    ensures { result ≡ reader.without_words verb }
{
    match verb {
        Some(Verb::Undo) => Some(Command::Undo),
        _ => None,
    }
}

#[tactic(auto, unfolding(crate::specs::Reader::of_two))]
fn of_two(
    alloc: Global,
    verb: Option<Verb>,
    module_name: &[u8],
    text: &[u8],
) -> Result<Option<Command>, AllocError>
    ensures { IfOk result (λ found. found ≡ reader.of_two verb module_name.now text.now) }
{
    if let Some(Verb::Abstract) = verb {
        return abstraction(alloc, module_name, text);
    }
    let Some((module, pos)) = spot_of(alloc, module_name, text)? else {
        return Ok(None);
    };
    Ok(match verb {
        Some(Verb::LiftOne) => Some(Command::LiftOne { module, pos }),
        Some(Verb::LiftTop) => Some(Command::LiftTop { module, pos }),
        Some(Verb::Demote) => Some(Command::Demote { module, pos }),
        _ => None,
    })
}

#[tactic(auto, unfolding(crate::specs::Reader::of_three))]
fn of_three(
    alloc: Global,
    verb: Option<Verb>,
    module_name: &[u8],
    place: &[u8],
    text: &[u8],
) -> Result<Option<Command>, AllocError>
    ensures { IfOk result (λ found. found ≡ reader.of_three verb module_name.now place.now text.now) }
{
    if let Some(Verb::Move) = verb {
        return moving(alloc, module_name, place, text);
    }
    let Some((module, pos)) = spot_of(alloc, module_name, place)? else {
        return Ok(None);
    };
    if let Some(Verb::RemoveParameter) = verb {
        return Ok(match number_of(text) {
            Some(index) => Some(Command::RemoveParameter { module, pos, index }),
            None => None,
        });
    }
    if !is_word(text) {
        return Ok(None);
    }
    let name = Text::from_slice(alloc, text)?;
    Ok(match verb {
        Some(Verb::Rename) => Some(Command::Rename {
            module,
            pos,
            new: name,
        }),
        Some(Verb::AddParameter) => Some(Command::AddParameter { module, pos, name }),
        Some(Verb::Generalise) => Some(Command::Generalise { module, pos, name }),
        _ => None,
    })
}

/// A module's name and a position.
#[tactic(auto, unfolding(crate::specs::Reader::spot_of))]
fn spot_of(
    alloc: Global,
    module_name: &[u8],
    place: &[u8],
) -> Result<Option<(Text, Pos)>, AllocError>
    ensures { IfOk result (λ found. found ≡ reader.spot_of module_name.now place.now) }
{
    if !is_module_name(module_name) {
        return Ok(None);
    }
    let Some(pos) = pos_of(alloc, place)? else {
        return Ok(None);
    };
    Ok(Some((Text::from_slice(alloc, module_name)?, pos)))
}

#[tactic(auto, unfolding(crate::specs::Reader::of_three))]
fn moving(alloc: Global, from: &[u8], name: &[u8], to: &[u8]) -> Result<Option<Command>, AllocError>
    ensures { IfOk result (λ found. found ≡ reader.of_three (Some verb.Move) from.now name.now to.now) }
{
    if !is_module_name(from) || !is_word(name) || !is_module_name(to) {
        return Ok(None);
    }
    Ok(Some(Command::Move {
        from: Text::from_slice(alloc, from)?,
        name: Text::from_slice(alloc, name)?,
        to: Text::from_slice(alloc, to)?,
    }))
}

#[tactic(auto, unfolding(crate::specs::Reader::of_two))]
fn abstraction(
    alloc: Global,
    module_name: &[u8],
    name: &[u8],
) -> Result<Option<Command>, AllocError>
    ensures { IfOk result (λ found. found ≡ reader.of_two (Some verb.Abstract) module_name.now name.now) }
{
    if !is_module_name(module_name) || !is_word(name) {
        return Ok(None);
    }
    Ok(Some(Command::Abstract {
        module: Text::from_slice(alloc, module_name)?,
        name: Text::from_slice(alloc, name)?,
    }))
}
