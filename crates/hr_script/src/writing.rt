ghost use Rattle.std.specs.Prelude.{◌≡◌, ◌++◌, ◌∷◌, [], IfOk, OnOk, map};
ghost use Rattle.std.specs.List.{join_with_byte};
ghost use Rattle.std.specs.String.{string_bytes};
ghost use Rattle.hr_script.specs.Language.{line_of, pos_word, verb_word, script_bytes};

use crate::{Command, Verb};
use hr_base::{Pos, Text};
use std::alloc::{AllocError, Global};

/// The bytes of a script: a line for each command, each ended by a linefeed. Where the texts of the commands
/// are words of the language, they parse back to the commands.
pub fn write_script(alloc: Global, commands: &[Command]) -> Result<Vec<u8>, AllocError>
    ensures { IfOk result (λ bytes. bytes.items ≡ script_bytes commands.now) }
{
    let mut bytes = Vec::new(alloc);
    for command in commands {
        add_command(alloc, &mut bytes, command)?;
        bytes.push(b'\n')?;
    }
    Ok(bytes)
}

/// Puts the words of a command at the end, with a space between.
fn add_command(alloc: Global, bytes: &mut Vec<u8>, command: &Command) -> Result<(), AllocError>
    ensures { OnOk result (bytes.new.items ≡ bytes.old.items ++ line_of command.now) }
{
    let verb = command.verb();
    match command {
        Command::Rename { module, pos, new } => {
            add_with_text(alloc, bytes, verb, module, *pos, new.as_slice())
        }
        Command::AddParameter { module, pos, name } => {
            add_with_text(alloc, bytes, verb, module, *pos, name.as_slice())
        }
        Command::Generalise { module, pos, name } => {
            add_with_text(alloc, bytes, verb, module, *pos, name.as_slice())
        }
        Command::RemoveParameter { module, pos, index } => {
            let index = format!(in alloc; "{index}")?;
            add_with_text(alloc, bytes, verb, module, *pos, index.as_bytes())
        }
        Command::LiftOne { module, pos } => add_at(alloc, bytes, verb, module, *pos),
        Command::LiftTop { module, pos } => add_at(alloc, bytes, verb, module, *pos),
        Command::Demote { module, pos } => add_at(alloc, bytes, verb, module, *pos),
        Command::Move { from, name, to } => add_words(
            bytes,
            verb,
            &[from.as_slice(), name.as_slice(), to.as_slice()],
        ),
        Command::Abstract { module, name } => {
            add_words(bytes, verb, &[module.as_slice(), name.as_slice()])
        }
        Command::Undo => add_words(bytes, verb, &[]),
    }
}

fn add_at(
    alloc: Global,
    bytes: &mut Vec<u8>,
    verb: Verb,
    module_name: &Text,
    pos: Pos,
) -> Result<(), AllocError>
    ensures { OnOk result (bytes.new.items ≡ bytes.old.items ++ join_with_byte 32 (verb_word verb ∷ module_name.now ∷ pos_word pos ∷ [])) }
{
    let place = shown_pos(alloc, pos)?;
    add_words(bytes, verb, &[module_name.as_slice(), place.as_bytes()])
}

fn add_with_text(
    alloc: Global,
    bytes: &mut Vec<u8>,
    verb: Verb,
    module_name: &Text,
    pos: Pos,
    text: &[u8],
) -> Result<(), AllocError>
    ensures { OnOk result (bytes.new.items ≡ bytes.old.items ++ join_with_byte 32 (verb_word verb ∷ module_name.now ∷ pos_word pos ∷ text.now ∷ [])) }
{
    let place = shown_pos(alloc, pos)?;
    add_words(
        bytes,
        verb,
        &[module_name.as_slice(), place.as_bytes(), text],
    )
}

/// A position as it is written.
fn shown_pos(alloc: Global, pos: Pos) -> Result<String, AllocError>
    ensures { IfOk result (λ word. string_bytes word ≡ pos_word pos) }
{
    let Pos { line, col } = pos;
    format!(in alloc; "{line}:{col}")
}

/// Puts the verb's word and these at the end, with a space between.
fn add_words(bytes: &mut Vec<u8>, verb: Verb, words: &[&[u8]]) -> Result<(), AllocError>
    ensures { OnOk result (bytes.new.items ≡ bytes.old.items ++ join_with_byte 32 (verb_word verb ∷ map (λ word. word.now) words.now)) }
{
    bytes.extend_from_slice(verb.word().as_bytes())?;
    for word in words {
        bytes.push(b' ')?;
        bytes.extend_from_slice(word)?;
    }
    Ok(())
}
