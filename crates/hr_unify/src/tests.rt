use crate::{Solver, Subst, UnifyError, unify};
use hr_base::{Entity, Space, Text};
use hr_items::{Boxed, Items};
use hr_type::Mono;
use std::alloc::{AllocError, Global};
use std::test::Fail;

fn con(alloc: Global, text: &[u8], arguments: Items<Mono>) -> Result<Mono, AllocError> {
    let entity = Entity {
        module: Text::from_slice(alloc, b"M")?,
        space: Space::TypeName,
        text: Text::from_slice(alloc, text)?,
    };
    Ok(Mono::Con(entity, arguments))
}

fn int(alloc: Global) -> Result<Mono, AllocError> {
    con(alloc, b"Int", Items::new(alloc))
}

fn char_type(alloc: Global) -> Result<Mono, AllocError> {
    con(alloc, b"Char", Items::new(alloc))
}

fn list(alloc: Global, ty: Mono) -> Result<Mono, AllocError> {
    let mut types = Items::new(alloc);
    types.push(ty)?;
    con(alloc, b"List", types)
}

fn fun(alloc: Global, from: Mono, to: Mono) -> Result<Mono, AllocError> {
    Ok(Mono::Fun(Boxed::new(alloc, from)?, Boxed::new(alloc, to)?))
}

/// Whether the answer has exactly these pairs.
fn gives(
    alloc: Global,
    answer: Result<Subst, UnifyError>,
    expected: &[(u32, Mono)],
) -> Result<bool, AllocError> {
    let Ok(found) = answer else {
        return Ok(false);
    };
    let pairs = found.pairs.as_slice();
    if pairs.len() != expected.len() {
        return Ok(false);
    }
    for i in 0..pairs.len() {
        if pairs[i].0 != expected[i].0 || !pairs[i].1.is_same(alloc, &expected[i].1)? {
            return Ok(false);
        }
    }
    Ok(true)
}

fn mismatches(answer: Result<Subst, UnifyError>) -> bool {
    matches!(answer, Err(UnifyError::Mismatch { .. }))
}

fn occurs(answer: Result<Subst, UnifyError>) -> bool {
    matches!(answer, Err(UnifyError::Occurs { .. }))
}

#[test]
fn a_variable_is_bound_to_a_type(rt: HostRuntime) -> Result<(), Fail> {
    let alloc = rt.alloc();
    let answer = unify(alloc, &Subst::new(alloc), &Mono::Var(0), &int(alloc)?);
    assert!(rt; gives(alloc, answer, &[(0, int(alloc)?)])?);
    let answer = unify(alloc, &Subst::new(alloc), &int(alloc)?, &Mono::Var(0));
    assert!(rt; gives(alloc, answer, &[(0, int(alloc)?)])?);
    let step = fun(alloc, Mono::Var(0), Mono::Var(1))?;
    let given = fun(alloc, int(alloc)?, char_type(alloc)?)?;
    let answer = unify(alloc, &Subst::new(alloc), &step, &given);
    assert!(rt; gives(alloc, answer, &[(0, int(alloc)?), (1, char_type(alloc)?)])?);
    Ok(())
}

#[test]
fn what_differs_is_refused(rt: HostRuntime) -> Result<(), Fail> {
    let alloc = rt.alloc();
    let none = Subst::new(alloc);
    assert!(rt; mismatches(unify(alloc, &none, &int(alloc)?, &char_type(alloc)?)));
    assert!(rt; occurs(unify(alloc, &none, &Mono::Var(0), &list(alloc, Mono::Var(0))?)));
    let step = fun(alloc, Mono::Var(0), Mono::Var(1))?;
    assert!(rt; mismatches(unify(alloc, &none, &step, &int(alloc)?)));
    Ok(())
}

#[test]
fn a_solver_goes_on_from_what_it_knows(rt: HostRuntime) -> Result<(), Fail> {
    let alloc = rt.alloc();
    let mut solver = Solver::new(alloc);
    let known = solver.unify(alloc, &Mono::Var(0), &list(alloc, Mono::Var(1))?);
    assert!(rt; known.is_ok());
    let refused = solver.unify(alloc, &Mono::Var(1), &Mono::Var(0));
    assert!(rt; matches!(refused, Err(UnifyError::Occurs { .. })));
    let more = solver.unify(alloc, &int(alloc)?, &Mono::Var(1));
    assert!(rt; more.is_ok());
    assert!(rt; solver.look_up(1).is_some());
    let whole = solver.resolved(alloc, 10, &Mono::Var(0))?;
    assert!(rt; whole.is_same(alloc, &list(alloc, int(alloc)?)?)?);
    Ok(())
}
