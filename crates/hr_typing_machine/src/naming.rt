//! Names, literals and constructors that are syntax.
use crate::error::{Halt, lost};
use crate::machine::{Known, Machine};
use crate::pushing::push;
use hr_base::Binder;
use hr_instances::function;
use hr_type::Mono;
use hr_typing_walk::{Literal, Used};

impl Machine<'_> {
    /// An instance of the type of a name or constructor.
    pub fn used(&mut self, used: Used) -> Result<Mono, Halt> {
        match used {
            Used::Name(lexeme) => self.named(lexeme),
            Used::Cons => self.cons(),
            Used::Nil => {
                let element = self.fresh()?;
                Ok(
                    self.context
                        .entities
                        .list_of(self.alloc, Mono::Var(element))?,
                )
            }
            Used::Unit => Ok(
                self.context
                    .entities
                    .tuple_of(self.alloc, Vec::new(self.alloc))?,
            ),
            Used::Tuple(parts) => self.tuple_maker(parts),
        }
    }

    fn named(&mut self, lexeme: usize) -> Result<Mono, Halt> {
        let Some(binder) = self.context.binder(lexeme) else {
            return lost();
        };
        if let Some(known) = self.known.get(binder).copied() {
            return self.instance_of(known);
        }
        let Binder::Global(entity) = binder else {
            return lost();
        };
        let schemes = self.context.schemes;
        match schemes.get(entity) {
            Some(scheme) => self.instance(scheme),
            None => lost(),
        }
    }

    fn instance_of(&mut self, known: Known) -> Result<Mono, Halt> {
        match known {
            Known::One(variable) => Ok(Mono::Var(variable)),
            Known::Any(variable) => self.general_instance(variable),
            Known::Signed(number) => match self.context.signature(number) {
                Some(scheme) => self.instance(scheme),
                None => lost(),
            },
        }
    }

    /// `a -> [a] -> [a]`
    fn cons(&mut self) -> Result<Mono, Halt> {
        let element = self.fresh()?;
        let entities = self.context.entities;
        let given = entities.list_of(self.alloc, Mono::Var(element))?;
        let taken = entities.list_of(self.alloc, Mono::Var(element))?;
        let behind = function(self.alloc, taken, given)?;
        Ok(function(self.alloc, Mono::Var(element), behind)?)
    }

    /// `a -> b -> (a, b)` and its kin.
    fn tuple_maker(&mut self, count: usize) -> Result<Mono, Halt> {
        let mut parts = Vec::new(self.alloc);
        let mut variables = Vec::new(self.alloc);
        for _ in 0..count {
            let variable = self.fresh()?;
            push(&mut variables, variable)?;
            push(&mut parts, Mono::Var(variable))?;
        }
        let mut ty = self.context.entities.tuple_of(self.alloc, parts)?;
        for variable in variables.as_slice().iter().rev() {
            ty = function(self.alloc, Mono::Var(*variable), ty)?;
        }
        Ok(ty)
    }

    pub fn literal(&self, literal: Literal) -> Result<Mono, Halt> {
        let entities = self.context.entities;
        match literal {
            Literal::Integer => Ok(entities.number(self.alloc)?),
            Literal::Character => Ok(entities.character(self.alloc)?),
            Literal::Text => {
                let character = entities.character(self.alloc)?;
                Ok(entities.list_of(self.alloc, character)?)
            }
        }
    }
}
