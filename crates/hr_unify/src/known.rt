ghost use Rattle.std.specs.Prelude.{◌≡◌, ◌++◌, ◌∷◌, [], IsTrue, None, OnOk};
ghost use Rattle.std.specs.Option.{option_copied};
ghost use Rattle.hr_type.specs.declared.mono.Mono.TheVariants.{Var};
ghost use Rattle.hr_type.specs.Types.{first_for};
ghost use Rattle.hr_unify.specs.Tasks.{marks, pairs_of, put};
ghost use Rattle.hr_unify.specs.Unifiers.{IsOneOf};

use hr_type::{Bindings, Mono, look_up};
use indexmap::IndexMap;
use std::alloc::{AllocError, Global};

/// The types of variables: those that were given, and those that are found as equations are solved.
#[derive(Drop)]
pub struct Known<'a> {
    pub given: &'a Bindings,
    pub fresh: IndexMap<u32, &'a Mono>,
}

/// The type of a variable.
pub fn known_type<'a>(known: &Known<'a>, variable: u32) -> Option<&'a Mono>
    ensures { option_copied result ≡ first_for variable (pairs_of known.now) }
{
    if let Some(ty) = look_up(known.given, variable) {
        return Some(ty);
    }
    match known.fresh.get(&variable) {
        Some(ty) => Some(*ty),
        None => None,
    }
}

/// Gives a variable that has none its type.
pub fn make_known<'a>(known: &mut Known<'a>, variable: u32, ty: &'a Mono) -> Result<(), AllocError>
    requires { first_for variable (pairs_of known.old) ≡ None }
    ensures bound { OnOk result (pairs_of known.new ≡ pairs_of known.old ++ (variable, ty.now) ∷ []) }
    ensures given { known.new.given.now.entries ≡ known.old.given.now.entries }
{
    known.fresh.insert(variable, ty)?;
    Ok(())
}

/// With each variable another one.
pub type Marks = IndexMap<u32, u32>;

/// Whether a variable was marked with another one last.
pub fn is_marked(marked: &Marks, variable: u32, other: u32) -> bool
    ensures { IsTrue result → IsOneOf (variable, Var other) (marks marked.now.entries) }
{
    match marked.get(&variable) {
        Some(found) => *found == other,
        None => false,
    }
}

/// Marks a variable with another one.
pub fn mark(marked: &mut Marks, variable: u32, other: u32) -> Result<(), AllocError>
    ensures { OnOk result (marked.new.entries ≡ put variable other marked.old.entries) }
{
    marked.insert(variable, other)?;
    Ok(())
}
