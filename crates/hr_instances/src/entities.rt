use crate::builtin::{list_entity, prelude_type, tuple_entity};
use hr_base::Entity;
use hr_items::{Boxed, Items};
use hr_type::Mono;
use std::alloc::{AllocError, Global};

/// The constructors of the types that rules speak of, made once.
#[derive(Drop)]
pub struct Entities {
    int: Entity,
    character: Entity,
    boolean: Entity,
    list: Entity,
    tuples: Vec<Entity>,
}

/// How many parts a tuple has at most.
const PARTS: usize = 15;

impl Entities {
    pub fn new(alloc: Global) -> Result<Entities, AllocError> {
        Ok(Entities {
            int: prelude_type(alloc, b"Int")?,
            character: prelude_type(alloc, b"Char")?,
            boolean: prelude_type(alloc, b"Bool")?,
            list: list_entity(alloc)?,
            tuples: tuple_entities(alloc)?,
        })
    }

    /// `Int`
    pub fn number(&self, alloc: Global) -> Result<Mono, AllocError> {
        plain(alloc, &self.int)
    }

    /// `Char`
    pub fn character(&self, alloc: Global) -> Result<Mono, AllocError> {
        plain(alloc, &self.character)
    }

    /// `Bool`
    pub fn test(&self, alloc: Global) -> Result<Mono, AllocError> {
        plain(alloc, &self.boolean)
    }

    /// `String`
    pub fn text(&self, alloc: Global) -> Result<Mono, AllocError> {
        self.list_of(alloc, self.character(alloc)?)
    }

    /// The type of lists of such elements.
    pub fn list_of(&self, alloc: Global, element: Mono) -> Result<Mono, AllocError> {
        let mut arguments = Items::new(alloc);
        arguments.push(element)?;
        Ok(Mono::Con(self.list.clone()?, arguments))
    }

    /// The type of tuples of such parts.
    pub fn tuple_of(&self, alloc: Global, parts: Vec<Mono>) -> Result<Mono, AllocError> {
        let entity = self.tuple(alloc, parts.len())?;
        Ok(Mono::Con(entity, Items::from_vec(parts)))
    }

    fn tuple(&self, alloc: Global, parts: usize) -> Result<Entity, AllocError> {
        match self.tuples.get(parts) {
            Some(entity) => entity.clone(),
            None => tuple_entity(alloc, parts),
        }
    }
}

fn tuple_entities(alloc: Global) -> Result<Vec<Entity>, AllocError> {
    let mut tuples = Vec::new(alloc);
    for parts in 0..PARTS + 1 {
        tuples.push(tuple_entity(alloc, parts)?)?;
    }
    Ok(tuples)
}

/// A type without arguments.
fn plain(alloc: Global, entity: &Entity) -> Result<Mono, AllocError> {
    Ok(Mono::Con(entity.clone()?, Items::new(alloc)))
}

/// The function from one type to another.
pub fn function(alloc: Global, from: Mono, to: Mono) -> Result<Mono, AllocError> {
    Ok(Mono::Fun(Boxed::new(alloc, from)?, Boxed::new(alloc, to)?))
}
