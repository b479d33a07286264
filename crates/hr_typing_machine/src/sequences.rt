//! Infix sequences, typed in the order of their grades.
use crate::applying::last_of;
use crate::error::{Halt, lost};
use crate::machine::Machine;
use crate::pushing::push;
use hr_type::Mono;
use hr_typing_grades::Step;
use hr_typing_walk::Used;

/// Whether a sequence is of patterns, whose operators are constructors, or of expressions.
#[derive(Clone, Copy, PartialEq, Eq)]
pub enum Kind {
    Patterns,
    Expressions,
}

impl Machine<'_> {
    /// Takes so many operands of a sequence with these operators, and puts its type.
    pub fn sequence(&mut self, count: usize, operators: &[usize], kind: Kind) -> Result<(), Halt> {
        let steps = match operators.first() {
            Some(first) => self.context.grades.steps(self.alloc, *first)?,
            None => None,
        };
        let Some(steps) = steps else {
            return lost();
        };
        let mut operands = self.take_last(count)?;
        operands.reverse();
        let mut done = Vec::new(self.alloc);
        for step in steps.as_slice() {
            let ty = self.step(*step, kind, &mut operands, &mut done)?;
            push(&mut done, ty)?;
        }
        let ty = last_of(&mut done)?;
        self.put(ty)
    }

    /// One step: the next operand, or an operator on the types that are last.
    fn step(
        &mut self,
        step: Step,
        kind: Kind,
        operands: &mut Vec<Mono>,
        done: &mut Vec<Mono>,
    ) -> Result<Mono, Halt> {
        match step {
            Step::Operand => last_of(operands),
            Step::Negate => {
                let ty = last_of(done)?;
                let number = self.context.entities.number(self.alloc)?;
                self.unify(&ty, &number)?;
                Ok(number)
            }
            Step::Operator(lexeme) => {
                let at = done.len().saturating_sub(2);
                let arguments = done.split_off(at)?;
                let operator = self.operator(lexeme)?;
                match kind {
                    Kind::Patterns => self.constructed(&operator, arguments),
                    Kind::Expressions => self.applied(&operator, arguments),
                }
            }
        }
    }

    /// An instance of the type of an operator. Of these `:` alone is bound to nothing.
    fn operator(&mut self, lexeme: usize) -> Result<Mono, Halt> {
        match self.context.binder(lexeme) {
            Some(_) => self.used(Used::Name(lexeme)),
            None => self.used(Used::Cons),
        }
    }
}
