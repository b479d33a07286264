//! Groups of definitions and annotated expressions: what is generalised, and whether definitions have the types that
//! signatures give them.
use crate::context::Sign;
use crate::error::{Halt, lost};
use crate::machine::{Known, Machine, Scope};
use crate::pushing::push;
use hr_base::{Binder, Text};
use hr_instances::{fixed_entity, is_fixed, type_behind};
use hr_type::{Mono, push_parts};
use indexmap::IndexSet;
use std::alloc::AllocError;

impl Machine<'_> {
    fn scope(&self, names: Vec<usize>) -> Scope {
        Scope {
            variables: self.next,
            bindings: self.equations.len(),
            names,
        }
    }

    /// Begins the definitions of names.
    pub fn open(&mut self, names: &[usize]) -> Result<(), Halt> {
        let names = Vec::from_slice(self.alloc, names)?;
        let scope = self.scope(names.clone()?);
        push(&mut self.scopes, scope)?;
        for name in names.as_slice() {
            self.open_name(*name)?;
        }
        Ok(())
    }

    fn open_name(&mut self, name: usize) -> Result<(), Halt> {
        let Some(binder) = self.context.binder(name) else {
            return lost();
        };
        let variable = self.fresh()?;
        self.set_own(binder, variable)?;
        if self.sign(binder).is_none() {
            self.set_known(binder, Known::One(variable))?;
        }
        Ok(())
    }

    fn set_own(&mut self, binder: &Binder, variable: u32) -> Result<(), AllocError> {
        self.own.insert(binder.clone()?, variable)?;
        Ok(())
    }

    pub fn set_sign(&mut self, binder: &Binder, sign: Sign) -> Result<(), AllocError> {
        self.signs.insert(binder.clone()?, sign)?;
        Ok(())
    }

    pub fn set_known(&mut self, binder: &Binder, known: Known) -> Result<(), AllocError> {
        self.known.insert(binder.clone()?, known)?;
        Ok(())
    }

    /// Begins an annotated expression.
    pub fn open_annotated(&mut self) -> Result<(), Halt> {
        let scope = self.scope(Vec::new(self.alloc));
        push(&mut self.scopes, scope)?;
        Ok(())
    }

    fn close_scope(&mut self) -> Result<Scope, Halt> {
        match self.scopes.pop() {
            Some(scope) => Ok(scope),
            None => lost(),
        }
    }

    /// Ends the definitions of names: those with signatures have their types, the others are generalised.
    pub fn close(&mut self) -> Result<(), Halt> {
        let scope = self.close_scope()?;
        let mut fixed = IndexSet::new(self.alloc);
        for name in scope.names.as_slice() {
            self.demand_name(*name, &mut fixed)?;
        }
        let bound = self.leaked(&scope, &fixed)?;
        for name in scope.names.as_slice() {
            self.generalise_name(*name, &scope, &bound)?;
        }
        Ok(())
    }

    fn demand_name(&mut self, name: usize, fixed: &mut IndexSet<Text>) -> Result<(), Halt> {
        let Some(binder) = self.context.binder(name) else {
            return Ok(());
        };
        let Some(sign) = self.sign(binder) else {
            return Ok(());
        };
        let Some(variable) = self.own.get(binder).copied() else {
            return Ok(());
        };
        self.demand(sign.lexeme, sign.number, &Mono::Var(variable), fixed)
    }

    /// Makes a type that of a signature, with its variables held fixed, where the signature at the lexeme is demanded.
    fn demand(
        &mut self,
        lexeme: usize,
        number: usize,
        ty: &Mono,
        fixed: &mut IndexSet<Text>,
    ) -> Result<(), Halt> {
        if lexeme >= self.demanded {
            return Ok(());
        }
        let Some(scheme) = self.context.signature(number) else {
            return lost();
        };
        let first = self.next_fixed;
        let held = self.fixed(scheme)?;
        for number in first..self.next_fixed {
            let entity = fixed_entity(self.alloc, number)?;
            add_text(fixed, entity.text)?;
        }
        self.unify(ty, &held)
    }

    /// Takes the expression before a `::`, and puts an instance of the type behind it.
    pub fn annotated(&mut self, colons: usize) -> Result<(), Halt> {
        let scope = self.close_scope()?;
        let ty = self.take()?;
        let Some(number) = self.context.number(colons) else {
            return lost();
        };
        let mut fixed = IndexSet::new(self.alloc);
        self.demand(colons, number, &ty, &mut fixed)?;
        let _bound = self.leaked(&scope, &fixed)?;
        let Some(scheme) = self.context.signature(number) else {
            return lost();
        };
        let given = self.instance(scheme)?;
        self.put(given)
    }

    /// The new variables that are free in the types of what is outside a scope: those that variables from before it
    /// lead to, as far as they were bound since. None of these may lead to a fixed variable of the scope.
    fn leaked(&self, scope: &Scope, fixed: &IndexSet<Text>) -> Result<IndexSet<u32>, Halt> {
        let mut seen = IndexSet::new(self.alloc);
        let mut left = Vec::new(self.alloc);
        for number in scope.bindings..self.equations.len() {
            if let Some((variable, ty)) = self.equations.binding(number) {
                if variable < scope.variables {
                    left.push(ty).map_err(|_| Halt::Memory(AllocError))?;
                }
            }
        }
        for _ in 0..u64::MAX {
            let Some(next) = left.pop() else {
                return Ok(seen);
            };
            if has_fixed(next, fixed) {
                return Err(Halt::Refused);
            }
            self.go_into(next, scope, &mut seen, &mut left)?;
        }
        Err(Halt::Memory(AllocError))
    }

    /// Puts what is inside a type on the stack, what new variables stand for as well, each once.
    fn go_into<'b>(
        &'b self,
        ty: &'b Mono,
        scope: &Scope,
        seen: &mut IndexSet<u32>,
        left: &mut Vec<&'b Mono>,
    ) -> Result<(), AllocError> {
        let Mono::Var(variable) = ty else {
            return push_parts(ty, left);
        };
        if *variable < scope.variables || seen.contains(variable) {
            return Ok(());
        }
        add_variable(seen, *variable)?;
        if let Some(its) = type_behind(&self.equations, ty) {
            left.push(its)?;
        }
        Ok(())
    }

    fn generalise_name(
        &mut self,
        name: usize,
        scope: &Scope,
        bound: &IndexSet<u32>,
    ) -> Result<(), Halt> {
        let Some(binder) = self.context.binder(name) else {
            return Ok(());
        };
        if self.sign(binder).is_some() {
            return Ok(());
        }
        let Some(variable) = self.own.get(binder).copied() else {
            return Ok(());
        };
        if self.generalise(variable, scope, bound)? {
            self.set_known(binder, Known::Any(variable))?;
        }
        Ok(())
    }

    /// Notes the variables of a type that stand for any type. Whether there is one, or a fixed one.
    fn generalise(
        &mut self,
        variable: u32,
        scope: &Scope,
        bound: &IndexSet<u32>,
    ) -> Result<bool, Halt> {
        let root = Mono::Var(variable);
        let found = self.found(&root, scope, bound)?;
        for other in found.free.as_slice() {
            add_variable(&mut self.general, *other)?;
        }
        Ok(found.has_fixed || !found.free.is_empty())
    }

    /// What a type has inside, what new variables stand for as well.
    fn found<'b>(
        &'b self,
        root: &'b Mono,
        scope: &Scope,
        bound: &IndexSet<u32>,
    ) -> Result<Found, Halt> {
        let mut seen = IndexSet::new(self.alloc);
        let mut found = Found {
            free: Vec::new(self.alloc),
            has_fixed: false,
        };
        let mut left = Vec::new(self.alloc);
        left.push(root).map_err(|_| Halt::Memory(AllocError))?;
        for _ in 0..u64::MAX {
            let Some(next) = left.pop() else {
                return Ok(found);
            };
            self.note(next, scope, bound, &mut found)?;
            self.go_into(next, scope, &mut seen, &mut left)?;
        }
        Err(Halt::Memory(AllocError))
    }

    fn note(
        &self,
        ty: &Mono,
        scope: &Scope,
        bound: &IndexSet<u32>,
        found: &mut Found,
    ) -> Result<(), AllocError> {
        match ty {
            Mono::Con(entity, _) => {
                found.has_fixed = found.has_fixed || is_fixed(entity);
            }
            Mono::Var(variable) => {
                if self.is_general(*variable, scope, bound) {
                    found.free.push(*variable)?;
                }
            }
            Mono::Fun(_, _) => {}
        }
        Ok(())
    }

    /// Whether a variable is new, without a type, and not free outside the scope.
    fn is_general(&self, variable: u32, scope: &Scope, bound: &IndexSet<u32>) -> bool {
        variable >= scope.variables
            && self.equations.look_up(variable).is_none()
            && !bound.contains(&variable)
    }
}

/// What a type has inside: variables that stand for any type, and whether there is a fixed one.
#[derive(Drop)]
struct Found {
    free: Vec<u32>,
    has_fixed: bool,
}

fn has_fixed(ty: &Mono, fixed: &IndexSet<Text>) -> bool {
    match ty {
        Mono::Con(entity, _) => is_fixed(entity) && fixed.contains(&entity.text),
        _ => false,
    }
}

fn add_text(set: &mut IndexSet<Text>, text: Text) -> Result<(), AllocError> {
    let _place = set.insert_full(text)?;
    Ok(())
}

fn add_variable(set: &mut IndexSet<u32>, variable: u32) -> Result<(), AllocError> {
    let _place = set.insert_full(variable)?;
    Ok(())
}
