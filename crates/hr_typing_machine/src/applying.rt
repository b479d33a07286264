//! Functions and their arguments.
use crate::error::{Halt, lost};
use crate::machine::Machine;
use crate::pushing::push;
use hr_instances::function;
use hr_type::Mono;

impl Machine<'_> {
    /// Takes a function and so many arguments, and puts what it gives.
    pub fn apply(&mut self, count: usize) -> Result<(), Halt> {
        let arguments = self.take_last(count)?;
        let called = self.take()?;
        let ty = self.applied(&called, arguments)?;
        self.put(ty)
    }

    /// Takes a constructor and the patterns of all its fields.
    pub fn construct(&mut self, count: usize) -> Result<(), Halt> {
        let arguments = self.take_last(count)?;
        let called = self.take()?;
        let ty = self.constructed(&called, arguments)?;
        self.put(ty)
    }

    /// What a constructor with patterns for all its fields gives, which is no function.
    pub fn constructed(&mut self, called: &Mono, arguments: Vec<Mono>) -> Result<Mono, Halt> {
        let ty = self.applied(called, arguments)?;
        if is_function(&ty) {
            return Err(Halt::Refused);
        }
        Ok(ty)
    }

    /// What a function gives for arguments.
    pub fn applied(&mut self, called: &Mono, arguments: Vec<Mono>) -> Result<Mono, Halt> {
        let mut ty = called;
        let mut left = arguments;
        left.reverse();
        for _ in 0..left.len() {
            match ty {
                Mono::Fun(from, to) => {
                    let argument = last_of(&mut left)?;
                    self.unify(from.get(), &argument)?;
                    ty = to.get();
                }
                Mono::Var(variable) => return self.applied_unknown(*variable, left),
                Mono::Con(_, _) => return Err(Halt::Refused),
            }
        }
        Ok(ty.copied(self.alloc)?)
    }

    /// What a function whose type is a variable gives for arguments, the first one last.
    fn applied_unknown(&mut self, variable: u32, arguments: Vec<Mono>) -> Result<Mono, Halt> {
        let given = self.fresh()?;
        let mut ty = Mono::Var(given);
        for argument in arguments {
            ty = function(self.alloc, argument, ty)?;
        }
        self.unify(&Mono::Var(variable), &ty)?;
        Ok(Mono::Var(given))
    }

    /// Takes so many patterns and a body, and gives the function from the former to the latter.
    pub fn take_function(&mut self, count: usize) -> Result<Mono, Halt> {
        let mut ty = self.take()?;
        for _ in 0..count {
            let pattern = self.take()?;
            ty = function(self.alloc, pattern, ty)?;
        }
        Ok(ty)
    }

    /// Takes an operand and an operator: `\x -> e op x`.
    pub fn left_section(&mut self) -> Result<(), Halt> {
        let operator = self.take()?;
        let operand = self.take()?;
        let mut arguments = Vec::new(self.alloc);
        push(&mut arguments, operand)?;
        let ty = self.applied(&operator, arguments)?;
        let (from, to) = (self.fresh()?, self.fresh()?);
        let section = function(self.alloc, Mono::Var(from), Mono::Var(to))?;
        self.unify(&ty, &section)?;
        self.put(ty)
    }

    /// Takes an operator and an operand: `\x -> x op e`.
    pub fn right_section(&mut self) -> Result<(), Halt> {
        let operand = self.take()?;
        let operator = self.take()?;
        let from = self.fresh()?;
        let mut arguments = Vec::new(self.alloc);
        push(&mut arguments, Mono::Var(from))?;
        push(&mut arguments, operand)?;
        let to = self.applied(&operator, arguments)?;
        let section = function(self.alloc, Mono::Var(from), to)?;
        self.put(section)
    }
}

fn is_function(ty: &Mono) -> bool {
    match ty {
        Mono::Fun(_, _) => true,
        _ => false,
    }
}

/// Takes the last of some types.
pub fn last_of(types: &mut Vec<Mono>) -> Result<Mono, Halt> {
    match types.pop() {
        Some(ty) => Ok(ty),
        None => lost(),
    }
}
