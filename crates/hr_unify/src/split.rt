ghost use Rattle.std.specs.Prelude.{◌≡◌, ◌++◌, ◌∷◌, [], OnOk, length};
ghost use Rattle.hr_unify.specs.Tasks.{Equation, tasks};
ghost use Rattle.hr_unify.specs.Working.{paired};

use crate::work::{Work, push_equation};
use hr_items::Boxed;
use hr_type::Mono;
use std::alloc::AllocError;

/// The equations of the parts of two function types, that of the arguments on top.
pub fn split_function<'a>(
    from: &'a Boxed<Mono>,
    to: &'a Boxed<Mono>,
    other_from: &'a Boxed<Mono>,
    other_to: &'a Boxed<Mono>,
    work: &mut Vec<Work<'a>>,
) -> Result<(), AllocError>
    ensures { OnOk result (tasks work.new.items ≡ tasks work.old.items ++ Equation to.now other_to.now ∷ Equation from.now other_from.now ∷ []) }
{
    push_equation(work, to.get(), other_to.get())?;
    push_equation(work, from.get(), other_from.get())
}

/// The equations of the arguments of one constructor, the first on top.
pub fn split_arguments<'a>(
    work: &mut Vec<Work<'a>>,
    lefts: &'a [Mono],
    rights: &'a [Mono],
) -> Result<(), AllocError>
    requires { length lefts.now ≡ length rights.now }
    ensures { OnOk result (tasks work.new.items ≡ tasks work.old.items ++ paired lefts.now rights.now) }
{
    let mut left = lefts.len();
    while left > 0 {
        left -= 1;
        push_equation(work, &lefts[left], &rights[left])?;
    }
    Ok(())
}
