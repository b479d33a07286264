ghost use Rattle.std.specs.Prelude.{◌≡◌, IfOk, OnOk, false, map};
ghost use Rattle.std.specs.List.{AllByRecursion};
ghost use Rattle.hr_type.specs.Types.{variables};
ghost use Rattle.hr_unify.specs.Tasks.{pairs_of};
ghost use Rattle.hr_unify.specs.Unifiers.{IsGood};
ghost use Rattle.hr_unify.specs.Working.{Avoids, Looks, keys};

use crate::known::{Known, Marks, is_marked, known_type, mark};
use hr_type::{Mono, push_parts};
use indexmap::IndexMap;
use std::alloc::{AllocError, Global};

/// Whether a type may lead to a variable through the types of its variables: where it answers no,
/// none of them does. Each variable is looked into once.
pub fn leads<'a>(
    alloc: Global,
    known: &Known<'a>,
    variable: u32,
    ty: &'a Mono,
) -> Result<bool, AllocError>
    requires { IsGood (pairs_of known.now) }
    ensures { IfOk result (λ yes. yes ≡ false → AllByRecursion (Avoids (pairs_of known.now) variable) (variables ty.now)) }
{
    let mut seen = IndexMap::new(alloc);
    let mut left = Vec::new(alloc);
    left.push(ty)?;
    while let Some(next) = left.pop() {
        if let Mono::Var(other) = next {
            if *other == variable {
                return Ok(true);
            }
            look_into(known, *other, &mut seen, &mut left)?;
            continue;
        }
        push_parts(next, &mut left)?;
    }
    Ok(false)
}

/// Puts the type of a variable on the stack, unless that was done before.
fn look_into<'a>(
    known: &Known<'a>,
    variable: u32,
    seen: &mut Marks,
    left: &mut Vec<&'a Mono>,
) -> Result<(), AllocError>
    ensures { OnOk result (Looks (pairs_of known.now) variable (keys seen.old.entries) (keys seen.new.entries) (map (λ t. t.now) left.old.items) (map (λ t. t.now) left.new.items)) }
{
    if is_marked(seen, variable, variable) {
        return Ok(());
    }
    mark(seen, variable, variable)?;
    let Some(ty) = known_type(known, variable) else {
        return Ok(());
    };
    left.push(ty)?;
    Ok(())
}
