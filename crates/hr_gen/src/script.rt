//! The script of the project.
ghost use Rattle.std.specs.Prelude.{◌≡◌, ◌≤◌, ◌++◌, IfOk, codes};
ghost use Rattle.std.specs.Fmt.{decimal};
ghost use Rattle.hr_gen.specs.Project as spec;

use hr_base::{Pos, Seq, Text};
use hr_script::Command;
use std::alloc::{AllocError, Global};

/// Two commands a module, and then an undo.
pub(crate) fn commands(alloc: Global, modules: u32) -> Result<Seq<Command>, AllocError>
    ensures { IfOk result (λ list. list ≡ spec.commands modules) }
{
    let mut list = Vec::new(alloc);
    for k in 0..modules {
        list.push(renaming(alloc, k)?)?;
        list.push(parameter(alloc, k)?)?;
    }
    list.push(Command::Undo)?;
    Ok(Seq { list })
}

/// The module's first function is renamed.
fn renaming(alloc: Global, k: u32) -> Result<Command, AllocError>
    ensures { IfOk result (λ command. command ≡ spec.renaming k) }
{
    Ok(Command::Rename {
        module: module_name(alloc, k)?,
        pos: Pos { line: 3, col: 1 },
        new: text_of(alloc, format!(in alloc; "g{k}")?.as_str())?,
    })
}

/// The module's second function gets a parameter.
fn parameter(alloc: Global, k: u32) -> Result<Command, AllocError>
    ensures { IfOk result (λ command. command ≡ spec.parameter k) }
{
    Ok(Command::AddParameter {
        module: module_name(alloc, k)?,
        pos: Pos { line: 4, col: 1 },
        name: text_of(alloc, "p")?,
    })
}

fn module_name(alloc: Global, k: u32) -> Result<Text, AllocError>
    ensures { IfOk result (λ text. text ≡ spec.module_named k) }
{
    text_of(alloc, format!(in alloc; "M{k}")?.as_str())
}

fn text_of(alloc: Global, text: &str) -> Result<Text, AllocError>
    ensures { IfOk result (λ made. made ≡ text.now) }
{
    Text::from_slice(alloc, text.as_bytes())
}
