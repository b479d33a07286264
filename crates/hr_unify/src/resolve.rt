ghost use Rattle.std.specs.Prelude.{◌≡◌, ◌++◌, ℕ, IfOk, MatchOption, map, reverse};
ghost use Rattle.hr_type.specs.declared.mono.Mono.{Mono};
ghost use Rattle.hr_type.specs.Heads.{head_of, posts};
ghost use Rattle.hr_type.specs.Types.{replaced};
ghost use Rattle.hr_unify.specs.Unifiers.{IsGood, IsMeaning};
ghost use Rattle.hr_unify.specs.Working.{IsLast, StandsFor};

use hr_type::{Bindings, Mono, look_up, push_parts, rebuilt};
use std::alloc::{AllocError, Global};

/// A type with the types of its variables in their places, all the way down. It wants memory where
/// it would have more than `limit` variables, constructors and arrows.
pub fn resolved(
    alloc: Global,
    bindings: &Bindings,
    limit: usize,
    ty: &Mono,
) -> Result<Mono, AllocError>
    requires { IsGood bindings.now.entries }
    ensures { IfOk result (λ whole. (by : ℕ → Mono) → IsMeaning bindings.now.entries by → whole ≡ replaced by ty.now) }
{
    let nodes = inside(alloc, bindings, limit, ty)?;
    let mut types = rebuilt(alloc, nodes)?;
    match types.pop() {
        Some(whole) => Ok(whole),
        None => unreachable!(),
    }
}

/// What the type is made of then, itself first: read from the end, each stands behind its parts.
fn inside<'a>(
    alloc: Global,
    bindings: &'a Bindings,
    limit: usize,
    ty: &'a Mono,
) -> Result<Vec<&'a Mono>, AllocError>
    requires { IsGood bindings.now.entries }
    ensures { IfOk result (λ found. (by : ℕ → Mono) → IsMeaning bindings.now.entries by → reverse (map (λ t. head_of t.now) found.items) ≡ posts (replaced by ty.now)) }
{
    let mut found = Vec::new(alloc);
    let mut left = Vec::new(alloc);
    left.push(ty)?;
    while let Some(next) = left.pop() {
        if let Some(its) = type_behind(bindings, next) {
            left.push(its)?;
            continue;
        }
        if found.len() >= limit {
            return Err(AllocError);
        }
        found.push(next)?;
        push_parts(next, &mut left)?;
    }
    Ok(found)
}

/// The type of a variable that has one.
fn type_behind<'a>(bindings: &'a Bindings, ty: &Mono) -> Option<&'a Mono>
    ensures { MatchOption result (IsLast bindings.now.entries ty.now) (λ its. StandsFor bindings.now.entries ty.now its.now) }
{
    match ty {
        Mono::Var(variable) => look_up(bindings, *variable),
        Mono::Con(_, _) => None,
        Mono::Fun(_, _) => None,
    }
}
