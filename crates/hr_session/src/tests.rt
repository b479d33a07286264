ghost use Rattle.std.specs.Prelude.{◌≡◌, ◌+◌};

use crate::{Session, Stepper};
use hr_base::{Pos, Text};
use hr_script::Command;
use std::alloc::{AllocError, Global};
use std::test::Fail;

/// Counts up to 3.
struct Counter;

/// A refusal says whether it is want of memory.
impl Stepper<u32, bool> for Counter {
    ghost takes = { λ _ p _ q. q ≡ p + 1 };

    ghost refuses = { λ _ _ _ _. Unit {0} };

    ghost is_memory = { λ why. why };

    fn take(&self, _alloc: Global, project: &u32, _command: &Command) -> Result<u32, bool> {
        if *project < 3 {
            Ok(*project + 1)
        } else {
            Err(false)
        }
    }

    fn wants_memory(why: &bool) -> bool {
        *why
    }

    fn memory(_error: AllocError) -> bool {
        true
    }
}

fn demote(alloc: Global) -> Result<Command, AllocError> {
    Ok(Command::Demote {
        module: Text::from_slice(alloc, b"Main")?,
        pos: Pos { line: 1, col: 1 },
    })
}

/// What a script leaves, in which a `+` is a step and a `-` is `undo`: the number of lines, whether
/// the run ended at a refusal, the project, and how many steps can be taken back.
fn ran(alloc: Global, script: &str, keep_going: bool) -> Result<String, Fail> {
    let mut commands = Vec::new(alloc);
    for c in script.chars() {
        commands.push(if c == '+' {
            demote(alloc)?
        } else {
            Command::Undo
        })?;
    }
    let mut session = Session::new(alloc, 1u32)?;
    let ran = session.run_script(alloc, &Counter, commands.as_slice(), keep_going)?;
    let lines = ran.lines.len();
    let refused = ran.refused;
    let project = *session.project();
    let depth = session.depth();
    Ok(format!(in alloc; "{lines} {refused} {project} {depth}")?)
}

#[test]
fn scripts_are_carried_out_line_by_line(rt: HostRuntime) -> Result<(), Fail> {
    let rows = [
        ("", false, "0 false 1 0"),
        ("+", false, "1 false 2 1"),
        ("+-", false, "2 false 1 0"),
        ("-", false, "1 false 1 0"),
        ("++-+", false, "4 false 3 2"),
        ("+++-", false, "3 true 3 2"),
        ("+++-", true, "4 false 2 1"),
        ("+++-+", true, "5 false 3 2"),
    ];
    for (script, keep_going, want) in rows {
        let shown = ran(rt.alloc(), script, keep_going)?;
        assert_eq!(rt; shown.as_str(), want, "{script}");
    }
    Ok(())
}
