//! The first fault of what a module says of types.
use crate::cycles::Order;
use crate::known::{Types, entity_at, known_at};
use hr_base::{Binder, Text};
use hr_typing_walk::{Construction, Head, TypeMark, Written};
use indexmap::IndexMap;
use std::alloc::{AllocError, Global};

/// What is wrong, by the lexeme where it is.
#[derive(Clone, Copy)]
pub enum Fault {
    Cycle(usize),
    Arity(usize),
    Variable(usize),
}

/// The variables of a type's head with their numbers.
pub type Numbers = IndexMap<Text, u32>;

/// What the types of a module are held against.
#[derive(Clone, Copy)]
pub struct Context<'a> {
    pub types: &'a Types,
    pub order: &'a Order,
    pub entries: &'a [Option<Binder>],
}

/// The numbers of the variables of a type's head, from 0.
pub fn numbers_of(alloc: Global, variables: &[Text]) -> Result<Numbers, AllocError> {
    let mut numbers = IndexMap::new(alloc);
    for (number, text) in variables.iter().enumerate() {
        let Ok(number) = u32::try_from(number) else {
            return Err(AllocError);
        };
        numbers.insert(text.clone()?, number)?;
    }
    Ok(numbers)
}

/// The first fault of one declaration or type.
pub fn fault_of(
    alloc: Global,
    written: &Written,
    context: Context,
) -> Result<Option<Fault>, AllocError> {
    match written {
        Written::Synonym {
            name,
            variables,
            ty,
        } => {
            if is_cyclic(*name, context) {
                return Ok(Some(Fault::Cycle(*name)));
            }
            let numbers = numbers_of(alloc, variables.as_slice())?;
            Ok(type_fault(ty.as_slice(), Some(&numbers), context))
        }
        Written::Data {
            name: _,
            variables,
            constructions,
        } => {
            let numbers = numbers_of(alloc, variables.as_slice())?;
            Ok(field_fault(constructions.as_slice(), &numbers, context))
        }
        Written::Annotation { colons: _, ty } => Ok(type_fault(ty.as_slice(), None, context)),
    }
}

fn is_cyclic(name: usize, context: Context) -> bool {
    let Some(known) = known_at(context.types, context.entries, name) else {
        return false;
    };
    match known.synonym {
        Some(synonym) => context.order.cyclic.get(synonym).copied().unwrap_or(false),
        None => false,
    }
}

fn field_fault(
    constructions: &[Construction],
    numbers: &Numbers,
    context: Context,
) -> Option<Fault> {
    for construction in constructions {
        for field in construction.fields.as_slice() {
            if let Some(fault) = type_fault(field.as_slice(), Some(numbers), context) {
                return Some(fault);
            }
        }
    }
    None
}

/// The first fault of a type. Where there are numbers of variables, others are not bound.
fn type_fault(marks: &[TypeMark], numbers: Option<&Numbers>, context: Context) -> Option<Fault> {
    for mark in marks {
        if let Some(fault) = mark_fault(mark, numbers, context) {
            return Some(fault);
        }
    }
    None
}

fn mark_fault(mark: &TypeMark, numbers: Option<&Numbers>, context: Context) -> Option<Fault> {
    match mark {
        TypeMark::Variable(lexeme, text) => match numbers {
            Some(numbers) => {
                if numbers.get(text).is_none() {
                    return Some(Fault::Variable(*lexeme));
                }
                None
            }
            None => None,
        },
        TypeMark::Applied(lexeme, head, count) => {
            if arity_of(*lexeme, *head, context) == Some(*count) {
                return None;
            }
            Some(Fault::Arity(*lexeme))
        }
    }
}

/// How many arguments a type takes.
fn arity_of(lexeme: usize, head: Head, context: Context) -> Option<usize> {
    match head {
        Head::Named => match known_at(context.types, context.entries, lexeme) {
            Some(known) => Some(known.arity),
            None => None,
        },
        Head::List => Some(1),
        Head::Tuple(parts) => Some(parts),
        Head::Arrow => Some(2),
    }
}

/// The text of the type that a lexeme names.
pub fn name_text(entries: &[Option<Binder>], lexeme: usize) -> Option<&Text> {
    match entity_at(entries, lexeme) {
        Some(entity) => Some(&entity.text),
        None => None,
    }
}
