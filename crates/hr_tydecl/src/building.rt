//! Types from their written parts, with synonyms expanded.
use crate::checking::Numbers;
use crate::known::{Types, entity_at, known_at};
use hr_base::{Binder, Text};
use hr_instances::{DECLARED_LIMIT, TYPE_LIMIT, list_entity, replaced, tuple_entity};
use hr_items::{Boxed, Items};
use hr_type::{Mono, Scheme, size_of_type};
use hr_typing_walk::{Head, TypeMark};
use std::alloc::{AllocError, Global};

/// What types are built with: the project's types, the expansions of synonyms so far, and how many variables,
/// constructors and arrows have been built.
#[derive(Drop)]
pub struct Builder<'a> {
    pub alloc: Global,
    pub types: &'a Types,
    pub expansions: Vec<Option<Scheme>>,
    pub built: u64,
}

/// The number of a type variable: its own, or the next one where it has none yet.
fn number_of(text: &Text, numbers: &mut Numbers) -> Result<u32, AllocError> {
    if let Some(number) = numbers.get(text) {
        return Ok(*number);
    }
    let Ok(number) = u32::try_from(numbers.len()) else {
        return Err(AllocError);
    };
    numbers.insert(text.clone()?, number)?;
    Ok(number)
}

/// Numbers the variables of a type, each that has none yet in the order in which they are written.
pub fn number_variables(marks: &[TypeMark], numbers: &mut Numbers) -> Result<(), AllocError> {
    for mark in marks {
        if let TypeMark::Variable(_, text) = mark {
            let _number = number_of(text, numbers)?;
        }
    }
    Ok(())
}

impl Builder<'_> {
    /// The type of written parts whose variables are numbered.
    pub fn build(
        &mut self,
        marks: &[TypeMark],
        numbers: &Numbers,
        entries: &[Option<Binder>],
    ) -> Result<Mono, AllocError> {
        let mut stack = Vec::new(self.alloc);
        for mark in marks.iter().rev() {
            let ty = self.mark_type(mark, numbers, entries, &mut stack)?;
            stack.push(ty)?;
        }
        let ty = last_of(&mut stack);
        self.count(&ty)?;
        Ok(ty)
    }

    /// Counts what was built.
    pub fn count(&mut self, ty: &Mono) -> Result<(), AllocError> {
        let size = size_of_type(self.alloc, ty)?;
        self.built = self.built.saturating_add(size);
        if size > TYPE_LIMIT || self.built > DECLARED_LIMIT {
            return Err(AllocError);
        }
        Ok(())
    }

    /// The type of a part, whose arguments are the last of the stack, the first one last.
    fn mark_type(
        &mut self,
        mark: &TypeMark,
        numbers: &Numbers,
        entries: &[Option<Binder>],
        stack: &mut Vec<Mono>,
    ) -> Result<Mono, AllocError> {
        match mark {
            TypeMark::Variable(_, text) => {
                Ok(Mono::Var(numbers.get(text).copied().unwrap_or(u32::MAX)))
            }
            TypeMark::Applied(lexeme, head, count) => {
                let arguments = arguments_of(self.alloc, *count, stack)?;
                self.applied(*lexeme, *head, arguments, entries)
            }
        }
    }

    fn applied(
        &mut self,
        lexeme: usize,
        head: Head,
        arguments: Vec<Mono>,
        entries: &[Option<Binder>],
    ) -> Result<Mono, AllocError> {
        match head {
            Head::List => Ok(Mono::Con(list_entity(self.alloc)?, Items::from_vec(arguments))),
            Head::Tuple(parts) => {
                Ok(Mono::Con(tuple_entity(self.alloc, parts)?, Items::from_vec(arguments)))
            }
            Head::Arrow => function_of(self.alloc, arguments),
            Head::Named => self.named(lexeme, arguments, entries),
        }
    }

    /// The type of a name with its arguments: a synonym's expansion.
    fn named(
        &mut self,
        lexeme: usize,
        arguments: Vec<Mono>,
        entries: &[Option<Binder>],
    ) -> Result<Mono, AllocError> {
        let Some(entity) = entity_at(entries, lexeme) else {
            return Err(AllocError);
        };
        if let Some(scheme) = self.expansion_at(lexeme, entries) {
            let ty = replaced(self.alloc, TYPE_LIMIT, &scheme.body, arguments.as_slice())?;
            self.count(&ty)?;
            return Ok(ty);
        }
        Ok(Mono::Con(entity.clone()?, Items::from_vec(arguments)))
    }

    fn expansion_at(&self, lexeme: usize, entries: &[Option<Binder>]) -> Option<&Scheme> {
        let known = known_at(self.types, entries, lexeme)?;
        match self.expansions.get(known.synonym?) {
            Some(expansion) => expansion.as_ref(),
            None => None,
        }
    }
}

/// Takes so many types from the end, in turn.
fn arguments_of(
    alloc: Global,
    count: usize,
    stack: &mut Vec<Mono>,
) -> Result<Vec<Mono>, AllocError> {
    let mut arguments = Vec::new(alloc);
    for _ in 0..count {
        if let Some(argument) = stack.pop() {
            arguments.push(argument)?;
        }
    }
    Ok(arguments)
}

/// The last type; there is one.
fn last_of(stack: &mut Vec<Mono>) -> Mono {
    stack.pop().unwrap_or(Mono::Var(u32::MAX))
}

/// The function from the first of two types to the second.
fn function_of(alloc: Global, types: Vec<Mono>) -> Result<Mono, AllocError> {
    let mut types = types;
    let to = last_of(&mut types);
    let from = last_of(&mut types);
    Ok(Mono::Fun(Boxed::new(alloc, from)?, Boxed::new(alloc, to)?))
}
