//! The script of a run.
ghost use Rattle.std.specs.Prelude.{◌≡◌, ◌≤◌, ◌+◌, IfErr, IfOk};
ghost use Rattle.hr_files.specs.Read.{OnlyReads};
ghost use Rattle.hare.specs.Scripts.{IsScript, IsUnscripted};

use hr_base::Seq;
use hr_files::{Unread, read_file};
use hr_script::{Command, ScriptError, parse_script};
use hr_shelf::Shelf;
use std::alloc::Global;

/// Why there is no script to run.
#[derive(Debug, Drop)]
pub enum Unscripted {
    /// It was not read.
    Unread(Unread),
    /// Its bytes are no script.
    Bad(ScriptError),
}

/// The commands of the script with the name.
pub fn read_script<S: Shelf>(
    alloc: Global,
    shelf: &mut S,
    name: &str,
) -> Result<Seq<Command>, Unscripted>
    ensures only { OnlyReads (S.store shelf.old) (S.store shelf.new) }
    ensures script { IfOk result (IsScript name.now (S.store shelf.old)) }
    ensures cause { IfErr result (IsUnscripted name.now (S.store shelf.old) (S.store shelf.new)) }
    ensures counted { (S.store shelf.new).calls ≤ (S.store shelf.old).calls + 1 }
{
    let text = match read_file(alloc, shelf, 0, name) {
        Ok(text) => text,
        Err(unread) => return Err(Unscripted::Unread(unread)),
    };
    match parse_script(alloc, text.as_slice()) {
        Ok(commands) => Ok(commands),
        Err(error) => Err(Unscripted::Bad(error)),
    }
}
