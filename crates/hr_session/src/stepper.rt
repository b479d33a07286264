ghost use Rattle.std.specs.Prelude.{◌≡◌, Bool, IfErr, IfOk, true};
ghost use Rattle.hr_script.specs.declared.command.Command.{Command};

use hr_script::Command;
use std::alloc::{AllocError, Global};

/// What carries out commands on projects of type P, with refusals of type W. What it answers is said by two
/// relations of its own.
pub trait Stepper<P, W> {
    ghost takes: { Self → P → Command → P → Type 0 };

    ghost refuses: { Self → P → Command → W → Type 0 };

    ghost is_memory: { W → Bool };

    /// The project that the command, which is not `undo`, leads to.
    fn take(&self, alloc: Global, project: &P, command: &Command) -> Result<P, W>
        ensures next { IfOk result (takes self.now project.now command.now) }
        ensures why { IfErr result (refuses self.now project.now command.now) };

    /// Whether the refusal is want of memory.
    fn wants_memory(why: &W) -> bool
        ensures { result ≡ is_memory why.now };

    /// Want of memory as a refusal.
    fn memory(error: AllocError) -> W
        ensures { is_memory result ≡ true };
}
