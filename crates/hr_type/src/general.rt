ghost use Rattle.std.specs.Prelude.{◌≡◌, ◌↔◌, ◌++◌, ◌∷◌, [], IfOk, IsTrue, None, OnErr, OnOk};
ghost use Rattle.std.specs.Option.{option_copied};
ghost use Rattle.hr_type.specs.Matching.{Settles};
ghost use Rattle.hr_type.specs.Types.{IsInstance, bounded, first_for};

use crate::parts::{have_same_head, is_variable, push_parts};
use crate::{Mono, Scheme};
use indexmap::IndexMap;
use std::alloc::{AllocError, Global};

/// Types of variables, in the order in which they were given.
pub type Bindings = IndexMap<u32, Mono>;

/// Whether some substitution of the bound variables of `general` gives `special`.
pub fn instance(alloc: Global, general: &Scheme, special: &Mono) -> Result<bool, AllocError>
    ensures { IfOk result (λ yes. IsTrue yes ↔ IsInstance general.now special.now) }
{
    let mut chosen = IndexMap::new(alloc);
    let mut generals = Vec::new(alloc);
    let mut specials = Vec::new(alloc);
    generals.push(&general.body)?;
    specials.push(special)?;
    while let Some(pattern) = generals.pop() {
        let Some(ty) = specials.pop() else {
            return Ok(false);
        };
        if let Mono::Var(variable) = pattern {
            if !match_variable(alloc, general.bound, &mut chosen, *variable, ty)? {
                return Ok(false);
            }
            continue;
        }
        if !have_same_head(pattern, ty) {
            return Ok(false);
        }
        push_parts(pattern, &mut generals)?;
        push_parts(ty, &mut specials)?;
    }
    Ok(specials.is_empty())
}

fn match_variable(
    alloc: Global,
    bound: u32,
    chosen: &mut Bindings,
    variable: u32,
    special: &Mono,
) -> Result<bool, AllocError>
    ensures { IfOk result (λ yes. Settles yes chosen.old.entries chosen.new.entries
        (λ by. bounded bound by variable ≡ special.now)) }
{
    if variable >= bound {
        return Ok(is_variable(special, variable));
    }
    if let Some(ty) = look_up(chosen, variable) {
        return ty.is_same(alloc, special);
    }
    add(chosen, variable, special.copied(alloc)?)?;
    Ok(true)
}

/// The type of a variable.
pub fn look_up(bindings: &Bindings, variable: u32) -> Option<&Mono>
    ensures { option_copied result ≡ first_for variable bindings.now.entries }
{
    bindings.get(&variable)
}

/// Gives a variable that has none its type.
pub fn add(bindings: &mut Bindings, variable: u32, ty: Mono) -> Result<(), AllocError>
    requires { first_for variable bindings.old.entries ≡ None }
    ensures added { OnOk result (bindings.new.entries ≡ bindings.old.entries ++ (variable, ty) ∷ []) }
    ensures unchanged { OnErr result (bindings.new.entries ≡ bindings.old.entries) }
{
    bindings.insert(variable, ty)?;
    Ok(())
}
