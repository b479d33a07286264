//! The types of constructors, signatures and annotated expressions.
use crate::building::{Builder, number_variables};
use crate::checking::{Numbers, numbers_of};
use crate::declared::Declared;
use crate::known::entity_at;
use crate::synonyms::bound_of;
use hr_base::{Binder, Entity, Spot, Text};
use hr_items::{Boxed, Items};
use hr_type::{Mono, Scheme};
use hr_typing_walk::{Construction, TypeMark, Written};
use indexmap::IndexMap;
use std::alloc::{AllocError, Global};

/// Adds what one declaration or type says.
pub fn put_declared(
    written: &Written,
    module: usize,
    entries: &[Option<Binder>],
    builder: &mut Builder,
    declared: &mut Declared,
) -> Result<(), AllocError> {
    match written {
        Written::Synonym { .. } => Ok(()),
        Written::Data {
            name,
            variables,
            constructions,
        } => put_constructors(
            *name,
            variables.as_slice(),
            constructions.as_slice(),
            entries,
            builder,
            declared,
        ),
        Written::Annotation { colons, ty } => {
            let spot = Spot {
                module,
                item: *colons,
            };
            let scheme = signature_of(ty.as_slice(), entries, builder)?;
            declared.signatures.list.push((spot, scheme))?;
            Ok(())
        }
    }
}

fn put_constructors(
    name: usize,
    variables: &[Text],
    constructions: &[Construction],
    entries: &[Option<Binder>],
    builder: &mut Builder,
    declared: &mut Declared,
) -> Result<(), AllocError> {
    let Some(entity) = entity_at(entries, name) else {
        return Ok(());
    };
    let numbers = numbers_of(builder.alloc, variables)?;
    let bound = bound_of(variables.len())?;
    for construction in constructions {
        let Some(constructor) = entity_at(entries, construction.name) else {
            continue;
        };
        let body = constructor_type(entity, bound, construction, &numbers, entries, builder)?;
        declared
            .constructors
            .list
            .push((constructor.clone()?, Scheme { bound, body }))?;
    }
    Ok(())
}

/// The function from the types of a constructor's fields to its own type.
fn constructor_type(
    entity: &Entity,
    bound: u32,
    construction: &Construction,
    numbers: &Numbers,
    entries: &[Option<Binder>],
    builder: &mut Builder,
) -> Result<Mono, AllocError> {
    let mut ty = own_type(builder.alloc, entity, bound)?;
    builder.count(&ty)?;
    for field in construction.fields.as_slice().iter().rev() {
        let from = builder.build(field.as_slice(), numbers, entries)?;
        ty = Mono::Fun(
            Boxed::new(builder.alloc, from)?,
            Boxed::new(builder.alloc, ty)?,
        );
    }
    Ok(ty)
}

/// A type with its variables as arguments.
fn own_type(alloc: Global, entity: &Entity, bound: u32) -> Result<Mono, AllocError> {
    let mut arguments = Items::new(alloc);
    for variable in 0..bound {
        arguments.push(Mono::Var(variable))?;
    }
    Ok(Mono::Con(entity.clone()?, arguments))
}

/// The type of a signature, whose variables are numbered as they are written.
fn signature_of(
    marks: &[TypeMark],
    entries: &[Option<Binder>],
    builder: &mut Builder,
) -> Result<Scheme, AllocError> {
    let mut numbers = IndexMap::new(builder.alloc);
    number_variables(marks, &mut numbers)?;
    let body = builder.build(marks, &numbers, entries)?;
    Ok(Scheme {
        bound: bound_of(numbers.len())?,
        body,
    })
}
