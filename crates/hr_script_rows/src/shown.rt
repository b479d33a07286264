//! Commands and refusals as they are shown.
use hr_base::{Pos, Text};
use hr_rows::escaped;
use hr_script::{Command, ScriptError};
use std::alloc::{AllocError, Global};

/// The commands in turn, or how many they are.
pub fn commands(alloc: Global, commands: &[Command]) -> Result<String, AllocError> {
    if commands.len() > 4 {
        return format!(in alloc; "{} commands", commands.len());
    }
    let mut all = String::from_str(alloc, "script")?;
    for one in commands {
        all.push(' ')?;
        all.push_str(command(alloc, one)?.as_str())?;
    }
    Ok(all)
}

fn command(alloc: Global, command: &Command) -> Result<String, AllocError> {
    match command {
        Command::Rename { module, pos, new } => at(alloc, "rename", module, *pos, new.as_slice()),
        Command::AddParameter { module, pos, name } => {
            at(alloc, "add-parameter", module, *pos, name.as_slice())
        }
        Command::RemoveParameter { module, pos, index } => {
            let index = format!(in alloc; "{index}")?;
            at(alloc, "remove-parameter", module, *pos, index.as_bytes())
        }
        Command::LiftOne { module, pos } => at(alloc, "lift-one", module, *pos, b""),
        Command::LiftTop { module, pos } => at(alloc, "lift-top", module, *pos, b""),
        Command::Demote { module, pos } => at(alloc, "demote", module, *pos, b""),
        Command::Generalise { module, pos, name } => {
            at(alloc, "generalise", module, *pos, name.as_slice())
        }
        Command::Move { from, name, to } => {
            let name = escaped(alloc, name.as_slice())?;
            let (from, to) = (
                escaped(alloc, from.as_slice())?,
                escaped(alloc, to.as_slice())?,
            );
            format!(in alloc; "move[{from}|{name}|{to}]")
        }
        Command::Abstract { module, name } => {
            let name = escaped(alloc, name.as_slice())?;
            let module = escaped(alloc, module.as_slice())?;
            format!(in alloc; "abstract[{module}|{name}]")
        }
        Command::Undo => String::from_str(alloc, "undo"),
    }
}

/// A command at a position, with one field more where that is not empty.
fn at(
    alloc: Global,
    word: &str,
    module: &Text,
    pos: Pos,
    field: &[u8],
) -> Result<String, AllocError> {
    let module = escaped(alloc, module.as_slice())?;
    let field = escaped(alloc, field)?;
    let Pos { line, col } = pos;
    if field.is_empty() {
        format!(in alloc; "{word}[{module}|{line}|{col}]")
    } else {
        format!(in alloc; "{word}[{module}|{line}|{col}|{field}]")
    }
}

/// The number of the refusal, and the line that it shows.
pub fn refusal(alloc: Global, error: ScriptError) -> Result<String, AllocError> {
    match error {
        ScriptError::BadLine { number } => format!(in alloc; "61 {number}"),
        ScriptError::TooManySteps => String::from_str(alloc, "62"),
        ScriptError::Memory(error) => Err(error),
    }
}
