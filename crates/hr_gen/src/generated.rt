ghost use Rattle.std.specs.Prelude.{◌≡◌, ◌≤◌, IfOk};
ghost use Rattle.hr_gen.specs.Project as spec;

use crate::modules::texts;
use crate::script::commands;
use hr_base::{Seq, Text};
use hr_script::Command;
use std::alloc::{AllocError, Global};

/// The texts of a project's modules, Main last, and a script for them.
#[derive(Debug, Drop)]
pub struct Generated {
    pub texts: Seq<Text>,
    pub commands: Seq<Command>,
}

/// The generated project of a seed, with so many modules beside Main and so many functions a module beside its
/// first one.
pub fn project(alloc: Global, seed: u32, modules: u32, size: u32) -> Result<Generated, AllocError>
    requires modules { (1 ≤ modules) × (modules ≤ 100) }
    requires size { (2 ≤ size) × (size ≤ 50) }
    ensures texts { IfOk result (λ made. made.texts ≡ spec.texts seed modules size) }
    ensures commands { IfOk result (λ made. made.commands ≡ spec.commands modules) }
{
    Ok(Generated {
        texts: texts(alloc, seed, modules, size)?,
        commands: commands(alloc, modules)?,
    })
}
