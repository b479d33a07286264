ghost use Rattle.std.specs.Prelude.{◌≡◌, ◌++◌, ◌∷◌, [], ℕ, IfErr, IfOk, OnErr, OnOk, map, nat_eq, reverse};
ghost use Rattle.std.specs.List.{IsDistinct};
ghost use Rattle.std.specs.Option.{option_copied};
ghost use Rattle.hr_type.specs.declared.mono.Mono.{Mono};
ghost use Rattle.hr_type.specs.Types.{first_for, replaced};
ghost use Rattle.hr_unify.specs.Refusals.{Shows};
ghost use Rattle.hr_unify.specs.Unifiers.{HasUnifiersOf, IsGood, IsMeaning, Solves, SpeaksOf, problem};

use crate::UnifyError;
use crate::resolve::resolved;
use crate::unifier::bindings_found;
use hr_type::{Bindings, Mono, add, look_up};
use indexmap::IndexMap;
use std::alloc::{AllocError, Global};

/// Equations of types solved one after another, in place.
#[derive(Drop)]
pub struct Solver {
    pub bindings: Bindings,
}

impl Solver {
    /// Nothing is known.
    pub fn new(alloc: Global) -> Solver
        ensures none { result.bindings.entries ≡ [] }
        ensures good { IsGood result.bindings.entries }
    {
        Solver {
            bindings: IndexMap::new(alloc),
        }
    }

    /// Makes two types equal as well, where a unifier does. After a refusal nothing has changed.
    pub fn unify(&mut self, alloc: Global, left: &Mono, right: &Mono) -> Result<(), UnifyError>
        requires { IsGood self.old.bindings.entries }
        ensures good { IsGood self.new.bindings.entries }
        ensures solves { OnOk result (Solves self.new.bindings.entries (problem self.old.bindings.entries left.now right.now)) }
        ensures exact { OnOk result (HasUnifiersOf self.new.bindings.entries (problem self.old.bindings.entries left.now right.now)) }
        ensures variables { OnOk result (SpeaksOf self.new.bindings.entries (problem self.old.bindings.entries left.now right.now)) }
        ensures refuses { IfErr result (Shows (problem self.old.bindings.entries left.now right.now)) }
        ensures unchanged { OnErr result (self.new.bindings.entries ≡ self.old.bindings.entries) }
    {
        let fresh = bindings_found(alloc, &self.bindings, left, right)?;
        add_all(&mut self.bindings, fresh).map_err(UnifyError::Memory)?;
        Ok(())
    }

    /// The type of a variable.
    pub fn look_up(&self, variable: u32) -> Option<&Mono>
        ensures { option_copied result ≡ first_for variable self.now.bindings.entries }
    {
        look_up(&self.bindings, variable)
    }

    /// A type with the types of its variables in their places, all the way down. It wants memory
    /// where it would have more than `limit` variables, constructors and arrows.
    pub fn resolved(&self, alloc: Global, limit: usize, ty: &Mono) -> Result<Mono, AllocError>
        requires { IsGood self.now.bindings.entries }
        ensures { IfOk result (λ whole. (by : ℕ → Mono) → IsMeaning self.now.bindings.entries by → whole ≡ replaced by ty.now) }
    {
        resolved(alloc, &self.bindings, limit, ty)
    }
}

/// Adds all pairs, from the last on, or none.
fn add_all(bindings: &mut Bindings, fresh: Vec<(u32, Mono)>) -> Result<(), AllocError>
    requires { IsDistinct nat_eq (map (λ p. p.0) (bindings.old.entries ++ reverse fresh.items)) }
    ensures all { OnOk result (bindings.new.entries ≡ bindings.old.entries ++ reverse fresh.items) }
    ensures none { OnErr result (bindings.new.entries ≡ bindings.old.entries) }
{
    let mut fresh = fresh;
    let count = bindings.len();
    while let Some((variable, ty)) = fresh.pop() {
        if let Err(error) = add(bindings, variable, ty) {
            bindings.truncate(count);
            return Err(error);
        }
    }
    Ok(())
}
