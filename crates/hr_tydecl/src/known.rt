//! The types that a project has, by their entities.
use hr_base::{Binder, Entity};
use hr_instances::prelude_type;
use hr_typing_code::ModuleRules;
use hr_typing_walk::Written;
use indexmap::IndexMap;
use std::alloc::{AllocError, Global};

/// What is known of a type: its number of arguments, and for a synonym its number among the project's synonyms.
#[derive(Clone, Copy)]
pub struct Known {
    pub arity: usize,
    pub synonym: Option<usize>,
}

/// A synonym: its module's number, and its number in what that module says of types.
#[derive(Clone, Copy)]
pub struct Stated {
    pub module: usize,
    pub number: usize,
}

/// The types of a project, and its synonyms in text order.
#[derive(Drop)]
pub struct Types {
    pub known: IndexMap<Entity, Known>,
    pub synonyms: Vec<Stated>,
}

/// The top-level thing that a lexeme names.
pub fn entity_at(entries: &[Option<Binder>], lexeme: usize) -> Option<&Entity> {
    match entries.get(lexeme) {
        Some(Some(Binder::Global(entity))) => Some(entity),
        _ => None,
    }
}

/// The types of all modules, and those that the Prelude has without a declaration.
pub fn types_of(
    alloc: Global,
    modules: &[ModuleRules],
    entries: &[&[Option<Binder>]],
) -> Result<Types, AllocError> {
    let mut types = Types {
        known: IndexMap::new(alloc),
        synonyms: Vec::new(alloc),
    };
    put_plain(alloc, b"Int", &mut types)?;
    put_plain(alloc, b"Char", &mut types)?;
    for (module, rules) in modules.iter().enumerate() {
        let own = entries_of(entries, module);
        for (number, written) in rules.written.as_slice().iter().enumerate() {
            put_type(written, Stated { module, number }, own, &mut types)?;
        }
    }
    Ok(types)
}

/// What the lexemes of a module are bound to.
pub fn entries_of<'a>(entries: &[&'a [Option<Binder>]], module: usize) -> &'a [Option<Binder>] {
    match entries.get(module) {
        Some(own) => *own,
        None => &[],
    }
}

fn put_plain(alloc: Global, text: &[u8], types: &mut Types) -> Result<(), AllocError> {
    let entity = prelude_type(alloc, text)?;
    types.known.insert(
        entity,
        Known {
            arity: 0,
            synonym: None,
        },
    )?;
    Ok(())
}

fn put_type(
    written: &Written,
    stated: Stated,
    entries: &[Option<Binder>],
    types: &mut Types,
) -> Result<(), AllocError> {
    match written {
        Written::Synonym {
            name,
            variables,
            ..
        } => {
            let synonym = Some(types.synonyms.len());
            types.synonyms.push(stated)?;
            put_known(*name, variables.len(), synonym, entries, types)
        }
        Written::Data {
            name,
            variables,
            ..
        } => put_known(*name, variables.len(), None, entries, types),
        Written::Annotation { .. } => Ok(()),
    }
}

fn put_known(
    name: usize,
    arity: usize,
    synonym: Option<usize>,
    entries: &[Option<Binder>],
    types: &mut Types,
) -> Result<(), AllocError> {
    let Some(entity) = entity_at(entries, name) else {
        return Ok(());
    };
    types
        .known
        .insert(entity.clone()?, Known { arity, synonym })?;
    Ok(())
}

/// What is known of the type that a lexeme names.
pub fn known_at(types: &Types, entries: &[Option<Binder>], lexeme: usize) -> Option<Known> {
    match entity_at(entries, lexeme) {
        Some(entity) => types.known.get(entity).copied(),
        None => None,
    }
}
