ghost use Rattle.std.specs.Prelude.{◌≡◌, ◌++◌, ◌∷◌, [], OnOk};
ghost use Rattle.hr_unify.specs.Tasks.{Equation, tasks};

use hr_type::Mono;
use std::alloc::AllocError;

/// What is left to do: an equation, or one of two variables that is settled once the work above it
/// is done.
#[derive(Drop)]
pub enum Work<'a> {
    Equation(&'a Mono, &'a Mono),
    Settled(u32, u32),
}

/// One more equation on top.
pub fn push_equation<'a>(
    work: &mut Vec<Work<'a>>,
    left: &'a Mono,
    right: &'a Mono,
) -> Result<(), AllocError>
    ensures { OnOk result (tasks work.new.items ≡ tasks work.old.items ++ Equation left.now right.now ∷ []) }
{
    work.push(Work::Equation(left, right))?;
    Ok(())
}
