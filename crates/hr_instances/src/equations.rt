ghost use Rattle.hr_unify.specs.Unifiers.{IsGood};
ghost use Rattle.hr_instances.specs.Good.{IsGood-prop};

use hr_type::{Mono, size_of_type};
use hr_unify::{Solver, UnifyError};
use std::alloc::{AllocError, Global};

/// Equations of types, solved one after another. Variables are never bound to what leads back to them.
#[derive(Drop)]
pub struct Equations {
    solver: Solver,
    ghost good: { IsGood solver.bindings.entries } by { IsGood-prop solver.bindings.entries },
}

impl Equations {
    pub fn new(alloc: Global) -> Equations {
        Equations {
            solver: Solver::new(alloc),
        }
    }

    /// Makes two types equal as well, and answers the size of what was bound for it.
    pub fn unify(&mut self, alloc: Global, left: &Mono, right: &Mono) -> Result<u64, UnifyError> {
        let before = self.solver.bindings.len();
        self.solver.unify(alloc, left, right)?;
        self.size_from(alloc, before).map_err(UnifyError::Memory)
    }

    /// The type of a variable that has one.
    pub fn look_up(&self, variable: u32) -> Option<&Mono> {
        self.solver.look_up(variable)
    }

    /// How many variables have types.
    pub fn len(&self) -> usize {
        self.solver.bindings.len()
    }

    /// The variable that was bound so many bindings after the first, and its type.
    pub fn binding(&self, number: usize) -> Option<(u32, &Mono)> {
        match self.solver.bindings.get_index(number) {
            Some((variable, ty)) => Some((*variable, ty)),
            None => None,
        }
    }

    fn size_from(&self, alloc: Global, number: usize) -> Result<u64, AllocError> {
        let mut sum = 0u64;
        for binding in number..self.len() {
            if let Some((_, ty)) = self.binding(binding) {
                sum = sum.saturating_add(size_of_type(alloc, ty)?);
            }
        }
        Ok(sum)
    }
}
