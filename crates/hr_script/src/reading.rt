ghost use Rattle.std.specs.Prelude.{◌≡◌, IfErr, IfOk, MatchResult};
ghost use Rattle.hr_script.specs.Language.{Script};
ghost use Rattle.hr_script.specs.Laws.{IsMemory, IsParsed, IsScriptRefusal};
ghost use Rattle.hr_script.specs.Progress.{Adds, IsLineRefused};

use crate::lines::{is_skipped, next_line};
use crate::words::command_of;
use crate::{Command, ScriptError};
use hr_base::Seq;
use std::alloc::{AllocError, Global};

/// As many commands as a script may have.
const STEP_LIMIT: usize = 1000;

/// The commands of a script. The first line that is not of the language is refused, and else more than 1,000
/// commands are. Want of memory is the answer too where no `u32` counts the lines.
pub fn parse_script(alloc: Global, bytes: &[u8]) -> Result<Seq<Command>, ScriptError>
    ensures parsed { IfOk result (IsParsed bytes.now) }
    ensures refused { IfErr result (IsScriptRefusal bytes.now) }
    ensures only { (commands : _) → IsParsed bytes.now commands → MatchResult result (λ found. found ≡ commands) IsMemory }
{
    match commands_of(alloc, bytes) {
        Ok(list) => {
            if list.len() > STEP_LIMIT {
                return Err(ScriptError::TooManySteps);
            }
            Ok(Seq { list })
        }
        Err(error) => Err(error),
    }
}

/// The commands of the lines, however many.
fn commands_of(alloc: Global, bytes: &[u8]) -> Result<Vec<Command>, ScriptError>
    ensures read { IfOk result (λ commands. Script bytes.now commands.items) }
    ensures refused { IfErr result (IsLineRefused bytes.now) }
{
    let mut commands = Vec::new(alloc);
    let mut number = 0u32;
    let mut rest = bytes;
    while let Some((line, behind)) = next_line(rest) {
        let Some(next) = number.checked_add(1) else {
            return Err(ScriptError::Memory(AllocError));
        };
        number = next;
        match add_line(alloc, &mut commands, line) {
            Ok(true) => rest = behind,
            Ok(false) => return Err(ScriptError::BadLine { number }),
            Err(error) => return Err(ScriptError::Memory(error)),
        }
    }
    Ok(commands)
}

/// Puts the command of a line behind the others. False says that the line is not of the language.
fn add_line(alloc: Global, commands: &mut Vec<Command>, line: &[u8]) -> Result<bool, AllocError>
    ensures { IfOk result (Adds line.now commands.old.items commands.new.items) }
{
    if is_skipped(line) {
        return Ok(true);
    }
    match command_of(alloc, line)? {
        Some(command) => {
            commands.push(command)?;
            Ok(true)
        }
        None => Ok(false),
    }
}
