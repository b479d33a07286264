ghost use Rattle.std.specs.Prelude.{◌≡◌, ◌<◌, ◌++◌, ◌∷◌, [], IfOk, None, OnOk};
ghost use Rattle.hr_type.specs.declared.mono.Mono.TheVariants.{Con, Var};
ghost use Rattle.hr_unify.specs.Tasks.{Equation, marks, pairs_of, plain, task_of, tasks};
ghost use Rattle.hr_unify.specs.Unifiers.{Equations, IsGood};
ghost use Rattle.hr_unify.specs.Weights.{work_load};
ghost use Rattle.hr_unify.specs.Working.{Goes, IsMismatch, Keeps, Opens, Splits};

use crate::UnifyError;
use crate::known::{Known, Marks, is_marked, known_type, mark};
use crate::split::{split_arguments, split_function};
use crate::work::{Work, push_equation};
use hr_base::Entity;
use hr_items::Items;
use hr_type::{Mono, is_same_entity, is_variable};
use std::alloc::{AllocError, Global};

/// Does the work until a variable is to be bound to a type, or none is left.
pub fn next_binding<'a>(
    alloc: Global,
    known: &Known<'a>,
    work: &mut Vec<Work<'a>>,
    settled: &mut Marks,
) -> Result<Option<(u32, &'a Mono)>, UnifyError>
    requires { IsGood (pairs_of known.now) }
    ensures goes { (es : Equations) → Keeps es (pairs_of known.now) (tasks work.old.items) (marks settled.old.entries)
        → Goes es (pairs_of known.now) (tasks work.new.items) (marks settled.new.entries) (plain result) }
    ensures done { IfOk result (λ b. b ≡ None → tasks work.new.items ≡ []) }
{
    while let Some(item) = work.pop() {
        match step(alloc, known, item, work, settled) {
            Ok(None) => {}
            Ok(Some(binding)) => return Ok(Some(binding)),
            Err(error) => return Err(error),
        }
    }
    Ok(None)
}

fn step<'a>(
    alloc: Global,
    known: &Known<'a>,
    item: Work<'a>,
    work: &mut Vec<Work<'a>>,
    settled: &mut Marks,
) -> Result<Option<(u32, &'a Mono)>, UnifyError>
    requires { IsGood (pairs_of known.now) }
    ensures goes { (es : Equations) → Keeps es (pairs_of known.now) (tasks work.old.items ++ task_of item.entry ∷ []) (marks settled.old.entries)
        → Goes es (pairs_of known.now) (tasks work.new.items) (marks settled.new.entries) (plain result) }
    ensures lighter { IfOk result (λ b. b ≡ None
        → work_load (pairs_of known.now) (tasks work.new.items) < work_load (pairs_of known.now) (tasks work.old.items ++ task_of item.entry ∷ [])) }
{
    match item {
        Work::Settled(variable, other) => {
            mark(settled, variable, other).map_err(UnifyError::Memory)?;
            Ok(None)
        }
        Work::Equation(left, right) => equate(alloc, known, left, right, work, settled),
    }
}

/// One equation: the equations of its parts, or a variable against a type.
fn equate<'a>(
    alloc: Global,
    known: &Known<'a>,
    left: &'a Mono,
    right: &'a Mono,
    work: &mut Vec<Work<'a>>,
    settled: &Marks,
) -> Result<Option<(u32, &'a Mono)>, UnifyError>
    requires { IsGood (pairs_of known.now) }
    ensures goes { (es : Equations) → Keeps es (pairs_of known.now) (tasks work.old.items ++ Equation left.now right.now ∷ []) (marks settled.now.entries)
        → Goes es (pairs_of known.now) (tasks work.new.items) (marks settled.now.entries) (plain result) }
    ensures lighter { IfOk result (λ b. b ≡ None
        → work_load (pairs_of known.now) (tasks work.new.items) < work_load (pairs_of known.now) (tasks work.old.items ++ Equation left.now right.now ∷ [])) }
{
    match left {
        Mono::Var(variable) => meet(known, *variable, left, right, work, settled),
        Mono::Con(entity, arguments) => match right {
            Mono::Var(variable) => meet(known, *variable, right, left, work, settled),
            Mono::Con(other, others) => {
                split_constructor(alloc, left, right, entity, arguments, other, others, work)
            }
            Mono::Fun(_, _) => Err(mismatch(alloc, left, right)),
        },
        Mono::Fun(from, to) => match right {
            Mono::Var(variable) => meet(known, *variable, right, left, work, settled),
            Mono::Con(_, _) => Err(mismatch(alloc, left, right)),
            Mono::Fun(other_from, other_to) => {
                split_function(from, to, other_from, other_to, work).map_err(UnifyError::Memory)?;
                Ok(None)
            }
        },
    }
}

/// Two types of constructors.
fn split_constructor<'a>(
    alloc: Global,
    left: &'a Mono,
    right: &'a Mono,
    entity: &Entity,
    arguments: &'a Items<Mono>,
    other: &Entity,
    others: &'a Items<Mono>,
    work: &mut Vec<Work<'a>>,
) -> Result<Option<(u32, &'a Mono)>, UnifyError>
    requires left_is { left.now ≡ Con entity.now arguments.now }
    requires right_is { right.now ≡ Con other.now others.now }
    ensures { Splits entity.now arguments.now other.now others.now (tasks work.old.items) (tasks work.new.items) (plain result) }
{
    if is_same_entity(entity, other) && arguments.len() == others.len() {
        split_arguments(work, arguments.as_slice(), others.as_slice()).map_err(UnifyError::Memory)?;
        return Ok(None);
    }
    Err(mismatch(alloc, left, right))
}

/// A variable against a type. Of two variables without a type the one with the greater number is
/// bound to the other one.
fn meet<'a>(
    known: &Known<'a>,
    variable: u32,
    this: &'a Mono,
    other: &'a Mono,
    work: &mut Vec<Work<'a>>,
    settled: &Marks,
) -> Result<Option<(u32, &'a Mono)>, UnifyError>
    requires good { IsGood (pairs_of known.now) }
    requires is { this.now ≡ Var variable }
    ensures goes { (es : Equations) → Keeps es (pairs_of known.now) (tasks work.old.items ++ Equation (Var variable) other.now ∷ []) (marks settled.now.entries)
        → Goes es (pairs_of known.now) (tasks work.new.items) (marks settled.now.entries) (plain result) }
    ensures lighter { IfOk result (λ b. b ≡ None
        → work_load (pairs_of known.now) (tasks work.new.items) < work_load (pairs_of known.now) (tasks work.old.items ++ Equation (Var variable) other.now ∷ [])) }
{
    if is_variable(other, variable) {
        return Ok(None);
    }
    if let Some(ty) = known_type(known, variable) {
        open(variable, ty, other, work, settled).map_err(UnifyError::Memory)?;
        return Ok(None);
    }
    match other {
        Mono::Var(second) => {
            if let Some(ty) = known_type(known, *second) {
                open(*second, ty, this, work, settled).map_err(UnifyError::Memory)?;
                return Ok(None);
            }
            if variable < *second {
                return Ok(Some((*second, this)));
            }
            Ok(Some((variable, other)))
        }
        Mono::Con(_, _) => Ok(Some((variable, other))),
        Mono::Fun(_, _) => Ok(Some((variable, other))),
    }
}

/// Puts the type of a variable in its place. Against another variable this is settled then, and is
/// not looked into again, so that types that share their parts take no more work than there are
/// parts.
fn open<'a>(
    variable: u32,
    ty: &'a Mono,
    other: &'a Mono,
    work: &mut Vec<Work<'a>>,
    settled: &Marks,
) -> Result<(), AllocError>
    ensures { OnOk result (Opens (marks settled.now.entries) variable ty.now other.now (tasks work.old.items) (tasks work.new.items)) }
{
    let Mono::Var(second) = other else {
        return push_equation(work, ty, other);
    };
    if is_marked(settled, variable, *second) {
        return Ok(());
    }
    work.push(Work::Settled(variable, *second))?;
    push_equation(work, ty, other)
}

fn mismatch(alloc: Global, left: &Mono, right: &Mono) -> UnifyError
    ensures { IsMismatch left.now right.now result }
{
    match left.copied(alloc) {
        Err(error) => UnifyError::Memory(error),
        Ok(left) => match right.copied(alloc) {
            Err(error) => UnifyError::Memory(error),
            Ok(right) => UnifyError::Mismatch { left, right },
        },
    }
}
