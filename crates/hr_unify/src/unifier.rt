ghost use Rattle.std.specs.Prelude.{◌≡◌, ◌↔◌, ◌++◌, ◌∷◌, [], IfOk, IfErr, IsTrue, reverse};
ghost use Rattle.hr_unify.specs.Refusals.{Shows, head_of, no_head};
ghost use Rattle.hr_unify.specs.Tasks.{pairs_of, seen_pairs};
ghost use Rattle.hr_unify.specs.Unifiers.{IsGood, Solved, Solves, problem};
ghost use Rattle.hr_unify.specs.Working.{Binds, Extends, MayBind};

use crate::find::find;
use crate::known::{Known, make_known};
use crate::leads::leads;
use crate::step::next_binding;
use crate::work::push_equation;
use crate::{Subst, UnifyError};
use hr_base::Seq;
use hr_type::{Bindings, Mono, add};
use indexmap::IndexMap;
use std::alloc::{AllocError, Global};

/// How many levels of types the search goes down for the type that a refusal shows.
const LEVELS: u32 = 4_000;

/// A most general unifier of two types that also makes the halves of each pair of `subst` equal.
/// Pairs of the answer are not written out: a variable's type has the variables that the types
/// had.
pub fn unify(alloc: Global, subst: &Subst, left: &Mono, right: &Mono) -> Result<Subst, UnifyError>
    requires { IsGood subst.now.pairs }
    ensures solves { IfOk result (λ found. Solves found.pairs (problem subst.now.pairs left.now right.now)) }
    ensures refuses { IfErr result (Shows (problem subst.now.pairs left.now right.now)) }
{
    let given = indexed(alloc, subst.pairs.as_slice()).map_err(UnifyError::Memory)?;
    let fresh = bindings_found(alloc, &given, left, right)?;
    let pairs = joined(alloc, subst.pairs.as_slice(), fresh).map_err(UnifyError::Memory)?;
    Ok(Subst { pairs })
}

/// The pairs that solve an equation beside those that are given, the last first.
pub fn bindings_found(
    alloc: Global,
    given: &Bindings,
    left: &Mono,
    right: &Mono,
) -> Result<Vec<(u32, Mono)>, UnifyError>
    requires { IsGood given.now.entries }
    ensures solves { IfOk result (λ fresh. Solved given.now.entries (reverse fresh.items) (problem given.now.entries left.now right.now)) }
    ensures refuses { IfErr result (Shows (problem given.now.entries left.now right.now)) }
{
    let mut known = Known {
        given,
        fresh: IndexMap::new(alloc),
    };
    let mut work = Vec::new(alloc);
    push_equation(&mut work, left, right).map_err(UnifyError::Memory)?;
    let mut settled = IndexMap::new(alloc);
    'solving: loop {
        match next_binding(alloc, &known, &mut work, &mut settled) {
            Ok(None) => {
                let found = copies(alloc, &known.fresh).map_err(UnifyError::Memory)?;
                return Ok(found);
            }
            Ok(Some(binding)) => {
                if let Err(error) = bind(alloc, binding.0, binding.1, &mut known) {
                    return Err(error);
                }
            }
            Err(error) => return Err(error),
        }
    }
}

/// Pairs that can be searched by their variables.
fn indexed(alloc: Global, pairs: &[(u32, Mono)]) -> Result<Bindings, AllocError>
    requires { IsGood pairs.now }
    ensures { IfOk result (λ given. given.entries ≡ pairs.now) }
{
    let mut given = IndexMap::new(alloc);
    for (variable, ty) in pairs {
        add(&mut given, *variable, ty.copied(alloc)?)?;
    }
    Ok(given)
}

/// The pairs that were found, the last first.
fn copies(alloc: Global, fresh: &IndexMap<u32, &Mono>) -> Result<Vec<(u32, Mono)>, AllocError>
    ensures { IfOk result (λ found. reverse found.items ≡ seen_pairs fresh.now.entries) }
{
    let mut found = Vec::new(alloc);
    let mut left = fresh.len();
    while left > 0 {
        left -= 1;
        let Some((variable, ty)) = fresh.get_index(left) else {
            unreachable!();
        };
        found.push((*variable, ty.copied(alloc)?))?;
    }
    Ok(found)
}

fn joined(
    alloc: Global,
    given: &[(u32, Mono)],
    fresh: Vec<(u32, Mono)>,
) -> Result<Seq<(u32, Mono)>, AllocError>
    ensures { IfOk result (λ pairs. pairs ≡ given.now ++ reverse fresh.items) }
{
    let mut fresh = fresh;
    let mut pairs = Vec::new(alloc);
    for (variable, ty) in given {
        pairs.push((*variable, ty.copied(alloc)?))?;
    }
    while let Some(pair) = fresh.pop() {
        pairs.push(pair)?;
    }
    Ok(Seq { list: pairs })
}

/// Makes a variable that has no type known at one, unless that leads back to it.
fn bind<'a>(
    alloc: Global,
    variable: u32,
    ty: &'a Mono,
    known: &mut Known<'a>,
) -> Result<(), UnifyError>
    requires good { IsGood (pairs_of known.old) }
    requires binds { Binds (pairs_of known.old) variable ty.now }
    ensures bound { Extends (pairs_of known.old) variable ty.now (pairs_of known.new) result }
    ensures given { known.new.given.now.entries ≡ known.old.given.now.entries }
{
    if let Err(error) = check_occurs(alloc, known, variable, ty) {
        return Err(error);
    }
    make_known(known, variable, ty).map_err(UnifyError::Memory)?;
    Ok(())
}

/// Whether a variable may be bound to a type: not where the type leads back to it.
fn check_occurs<'a>(
    alloc: Global,
    known: &Known<'a>,
    variable: u32,
    ty: &'a Mono,
) -> Result<(), UnifyError>
    requires good { IsGood (pairs_of known.now) }
    requires binds { Binds (pairs_of known.now) variable ty.now }
    ensures { MayBind (pairs_of known.now) variable ty.now result }
{
    if is_loose(ty) {
        return Ok(());
    }
    let may = leads(alloc, known, variable, ty).map_err(UnifyError::Memory)?;
    if !may {
        return Ok(());
    }
    let mut seen = Vec::new(alloc);
    match find(alloc, LEVELS, known, &mut seen, variable, ty).map_err(UnifyError::Memory)? {
        None => Ok(()),
        Some(found) => Err(UnifyError::Occurs {
            var: variable,
            ty: found,
        }),
    }
}

/// Whether a type is a variable.
fn is_loose(ty: &Mono) -> bool
    ensures { IsTrue result ↔ (head_of ty.now ≡ no_head) }
{
    match ty {
        Mono::Var(_) => true,
        Mono::Con(_, _) => false,
        Mono::Fun(_, _) => false,
    }
}
