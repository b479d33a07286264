ghost use Rattle.std.specs.Prelude.{◌≤◌, IfOk};
ghost use Rattle.hr_unify.specs.Unifiers.{IsGood};

use crate::notation::number_of;
use crate::shown::type_text;
use crate::solved::{LIMIT, refusal};
use hr_base::{Entity, Space, Text};
use hr_items::Items;
use hr_type::Mono;
use hr_unify::{Solver, UnifyError};
use std::alloc::{AllocError, Global};

/// The types of a list's elements, 1 to `count`, made equal to the list's own, 0, one after another;
/// then how many variables have a type, and whether each of these is variable 0 itself.
pub fn elements(alloc: Global, count: &[u8]) -> Result<Option<String>, AllocError> {
    let Some(count) = number_of(count) else {
        return Ok(None);
    };
    let mut solver = Solver::new(alloc);
    for element in 0..count {
        if let Err(error) = solver.unify(alloc, &Mono::Var(0), &Mono::Var(element)) {
            return Ok(Some(refusal(alloc, error)?));
        }
    }
    let mut bound = 0u64;
    let mut others = 0u64;
    for element in 0..count {
        match solver.look_up(element) {
            Some(Mono::Var(0)) => bound = bound.saturating_add(1),
            Some(_) => others = others.saturating_add(1),
            None => {}
        }
    }
    Ok(Some(format!(in alloc; "{bound} are 0, {others} are not")?))
}

fn prelude_entity(alloc: Global, text: &[u8]) -> Result<Entity, AllocError> {
    Ok(Entity {
        module: Text::from_slice(alloc, b"Prelude")?,
        space: Space::TypeName,
        text: Text::from_slice(alloc, text)?,
    })
}

fn pair(alloc: Global, variable: u32) -> Result<Mono, AllocError> {
    let mut parts = Items::new(alloc);
    parts.push(Mono::Var(variable))?;
    parts.push(Mono::Var(variable))?;
    Ok(Mono::Con(prelude_entity(alloc, b"(,)")?, parts))
}

fn list(alloc: Global, variable: u32) -> Result<Mono, AllocError> {
    let mut parts = Items::new(alloc);
    parts.push(Mono::Var(variable))?;
    Ok(Mono::Con(prelude_entity(alloc, b"[]")?, parts))
}

/// Variables of two families, even and odd, each a pair of the one before in its family: the last
/// ones made equal, and then the first ones, which is nothing new.
pub fn doubling(alloc: Global, count: &[u8]) -> Result<Option<String>, AllocError> {
    let Some(count) = number_of(count) else {
        return Ok(None);
    };
    if count > 1_000_000 {
        return Ok(None);
    }
    match doubled(alloc, count) {
        Ok(bound) => Ok(Some(format!(in alloc; "{bound} bindings")?)),
        Err(error) => Ok(Some(refusal(alloc, error)?)),
    }
}

fn doubled(alloc: Global, count: u32) -> Result<usize, UnifyError>
    requires { count ≤ 1000000 }
{
    let mut solver = Solver::new(alloc);
    for step in 0..count {
        let even = pair(alloc, 2 * step).map_err(UnifyError::Memory)?;
        solver.unify(alloc, &Mono::Var(2 * step + 2), &even)?;
        let odd = pair(alloc, 2 * step + 1).map_err(UnifyError::Memory)?;
        solver.unify(alloc, &Mono::Var(2 * step + 3), &odd)?;
    }
    solver.unify(alloc, &Mono::Var(2 * count), &Mono::Var(2 * count + 1))?;
    let bound = solver.bindings.len();
    solver.unify(alloc, &Mono::Var(0), &Mono::Var(1))?;
    Ok(bound)
}

/// Variables 0 to `count`, each made equal to a list of the next one and the last to `()`: how many
/// have a type then, and the first one's, written out.
pub fn chain(alloc: Global, count: &[u8]) -> Result<Option<String>, AllocError> {
    let Some(count) = number_of(count) else {
        return Ok(None);
    };
    if count > 1_000_000 {
        return Ok(None);
    }
    match chained(alloc, count) {
        Ok(solver) => {
            let bound = solver.bindings.len();
            let first = solver.resolved(alloc, LIMIT, &Mono::Var(0))?;
            let text = type_text(alloc, &first)?;
            Ok(Some(format!(in alloc; "{bound} bindings: {text}")?))
        }
        Err(error) => Ok(Some(refusal(alloc, error)?)),
    }
}

fn chained(alloc: Global, count: u32) -> Result<Solver, UnifyError>
    requires { count ≤ 1000000 }
    ensures { IfOk result (λ solver. IsGood solver.bindings.entries) }
{
    let mut solver = Solver::new(alloc);
    for step in 0..count {
        let next = list(alloc, step + 1).map_err(UnifyError::Memory)?;
        solver.unify(alloc, &Mono::Var(step), &next)?;
    }
    let unit = prelude_entity(alloc, b"()").map_err(UnifyError::Memory)?;
    solver.unify(
        alloc,
        &Mono::Var(count),
        &Mono::Con(unit, Items::new(alloc)),
    )?;
    Ok(solver)
}
