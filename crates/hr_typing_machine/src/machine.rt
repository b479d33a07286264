//! The state in which the rules of a group are run.
use crate::context::{Context, Sign, Signs};
use crate::error::{Halt, lost};
use crate::pushing::push;
use hr_base::Binder;
use hr_instances::{
    Equations, GROUP_LIMIT, TYPE_LIMIT, Which, copied, fixed_type, next_number, replaced,
    variables_from,
};
use hr_type::{Mono, Scheme, size_of_type};
use indexmap::{IndexMap, IndexSet};
use std::alloc::{AllocError, Global};

/// What a use of a local name takes: the type of a variable, an instance of it, or an instance of a declared type.
#[derive(Clone, Copy)]
pub enum Known {
    One(u32),
    Any(u32),
    Signed(usize),
}

/// A group or an annotated expression that is open: how many variables and bindings there were before it, and the
/// lexemes that bind its names first.
#[derive(Drop)]
pub struct Scope {
    pub variables: u32,
    pub bindings: usize,
    pub names: Vec<usize>,
}

#[derive(Drop)]
pub struct Machine<'a> {
    pub alloc: Global,
    pub context: Context<'a>,
    /// signatures whose lexeme is before this one are demanded of their definitions
    pub demanded: usize,
    pub equations: Equations,
    /// the next variable
    pub next: u32,
    /// the next fixed variable
    pub next_fixed: u32,
    /// how much has been made
    pub made: u64,
    /// the types that rules put and take
    pub types: Vec<Mono>,
    pub known: IndexMap<Binder, Known>,
    /// the types of definitions whose groups are open
    pub own: IndexMap<Binder, u32>,
    /// the signatures of local names
    pub signs: Signs,
    /// variables that stand for any type
    pub general: IndexSet<u32>,
    pub scopes: Vec<Scope>,
}

impl<'a> Machine<'a> {
    pub fn new(alloc: Global, context: Context<'a>, demanded: usize) -> Machine<'a> {
        Machine {
            alloc,
            context,
            demanded,
            equations: Equations::new(alloc),
            next: 0,
            next_fixed: 0,
            made: 0,
            types: Vec::new(alloc),
            known: IndexMap::new(alloc),
            own: IndexMap::new(alloc),
            signs: IndexMap::new(alloc),
            general: IndexSet::new(alloc),
            scopes: Vec::new(alloc),
        }
    }

    /// Counts what is made.
    fn count(&mut self, size: u64) -> Result<(), AllocError> {
        self.made = self.made.saturating_add(size);
        if self.made > GROUP_LIMIT {
            return Err(AllocError);
        }
        Ok(())
    }

    pub fn put(&mut self, ty: Mono) -> Result<(), Halt> {
        Ok(push(&mut self.types, ty)?)
    }

    /// Takes the last type. The rules of a tree leave one where another one takes one.
    pub fn take(&mut self) -> Result<Mono, Halt> {
        match self.types.pop() {
            Some(ty) => Ok(ty),
            None => lost(),
        }
    }

    /// Takes so many types from the end, in order.
    pub fn take_last(&mut self, count: usize) -> Result<Vec<Mono>, Halt> {
        let at = self.types.len().saturating_sub(count);
        let taken = self.types.split_off(at)?;
        Ok(taken)
    }

    /// A new variable.
    pub fn fresh(&mut self) -> Result<u32, Halt> {
        let variable = self.next;
        self.next = next_number(variable)?;
        Ok(variable)
    }

    /// Puts a new variable.
    pub fn put_fresh(&mut self) -> Result<(), Halt> {
        let variable = self.fresh()?;
        self.put(Mono::Var(variable))
    }

    pub fn unify(&mut self, left: &Mono, right: &Mono) -> Result<(), Halt> {
        let size = self.equations.unify(self.alloc, left, right)?;
        self.count(size)?;
        Ok(())
    }

    /// A scheme with new variables in place of the bound ones.
    pub fn instance(&mut self, scheme: &Scheme) -> Result<Mono, Halt> {
        let fresh = variables_from(self.alloc, self.next, scheme.bound)?;
        let Some(next) = self.next.checked_add(scheme.bound) else {
            return Err(Halt::Memory(AllocError));
        };
        self.next = next;
        self.with(scheme, fresh.as_slice())
    }

    /// A scheme with fixed variables in place of the bound ones.
    pub fn fixed(&mut self, scheme: &Scheme) -> Result<Mono, Halt> {
        let mut fixed = Vec::new(self.alloc);
        for _ in 0..scheme.bound {
            push(&mut fixed, fixed_type(self.alloc, self.next_fixed)?)?;
            self.next_fixed = next_number(self.next_fixed)?;
        }
        self.with(scheme, fixed.as_slice())
    }

    fn with(&mut self, scheme: &Scheme, by: &[Mono]) -> Result<Mono, Halt> {
        let ty = replaced(self.alloc, TYPE_LIMIT, &scheme.body, by)?;
        let size = size_of_type(self.alloc, &ty)?;
        self.count(size)?;
        Ok(ty)
    }

    /// The type of a variable, with new variables in place of those that stand for any type.
    pub fn general_instance(&mut self, variable: u32) -> Result<Mono, Halt> {
        let any = Which::These(&self.general);
        let copy = copied(
            self.alloc,
            &self.equations,
            any,
            &Mono::Var(variable),
            self.next,
        )?;
        let Some(next) = self.next.checked_add(copy.count) else {
            return Err(Halt::Memory(AllocError));
        };
        self.next = next;
        self.count(copy.size)?;
        Ok(copy.ty)
    }

    /// The signature of a name.
    pub fn sign(&self, binder: &Binder) -> Option<Sign> {
        match binder {
            Binder::Local(_) => self.signs.get(binder).copied(),
            Binder::Global(_) => self.context.signs.get(binder).copied(),
        }
    }
}
