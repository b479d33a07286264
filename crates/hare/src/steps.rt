//! The refactorings, as steps of a session. Another one is another arm of `take` and of the definition `Takes`.
ghost use Rattle.std.specs.Prelude.{◌≡◌, IfOk};
ghost use Rattle.hare.specs.Shown.{renaming_of};
ghost use Rattle.hare.specs.Refactorings as spec;
ghost use Rattle.hare.specs.Refactorings.{IsRenamedTo, Refuses, Takes};

use crate::plain::{Renaming, are_meant};
use hr_base::Text;
use hr_check::Project;
use hr_finish::rename;
use hr_script::Command;
use hr_session::Stepper;
use hr_why::Why;
use std::alloc::{AllocError, Global};

/// What carries out the commands that are built.
#[derive(Clone, Copy, Debug)]
pub struct Refactorings;

impl Stepper<Project, Why> for Refactorings {
    ghost takes = { λ _ old command new. Takes old command new };

    ghost refuses = { λ _ old command why. Refuses old command why };

    ghost is_memory = { λ why. spec.is_memory why };

    fn take(&self, alloc: Global, project: &Project, command: &Command) -> Result<Project, Why> {
        match command {
            Command::Rename { module, pos, new } => {
                let module = str_of(module)?;
                let new = str_of(new)?;
                let pos = *pos;
                take_rename(alloc, Renaming { module, pos, new }, project)
            }
            _ => Err(Why::Memory(AllocError)),
        }
    }

    fn wants_memory(why: &Why) -> bool {
        why.number().is_none()
    }

    fn memory(error: AllocError) -> Why {
        Why::Memory(error)
    }
}

/// The text of a word of a script. Scripts are in UTF-8, and so are the texts of their commands; another text is
/// answered by want of memory.
fn str_of(text: &Text) -> Result<&str, Why>
    ensures { IfOk result (λ word. word.now ≡ text.now) }
{
    match std::str::from_utf8(text.as_slice()) {
        Ok(word) => Ok(word),
        Err(_) => Err(Why::Memory(AllocError)),
    }
}

/// The project in which the renaming is carried out. Where it is one text of the plain form in which it is accepted,
/// the new text is that of the form's renaming too; were it another, want of memory is the answer.
fn take_rename(alloc: Global, renaming: Renaming<'_>, project: &Project) -> Result<Project, Why>
    ensures { IfOk result (IsRenamedTo (renaming_of renaming.entry) project.now) }
{
    let step = rename(alloc, project, renaming.module, renaming.pos, renaming.new)?;
    let next = step.project;
    if are_meant(alloc, renaming, project.texts(), next.texts()).map_err(Why::Memory)? {
        return Ok(next);
    }
    Err(Why::Memory(AllocError))
}
