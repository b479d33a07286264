use hr_base::{Entity, Space, Text};
use indexmap::{IndexMap, IndexSet};
use std::alloc::{AllocError, Global};

/// A name of a space, under a qualifier or under none.
#[derive(Clone, Debug, Drop, PartialEq, Eq, Hash)]
pub struct Key {
    pub qualifier: Option<Text>,
    pub space: Space,
    pub text: Text,
}

/// The entities that names stand for: what is in scope, or what a module exports. An entity stands under a name
/// once.
#[derive(Drop)]
pub struct Names {
    pub entries: IndexMap<Key, Vec<Entity>>,
    /// All of them, under whatever name.
    whole: IndexSet<Entity>,
}

pub fn key_of(qualifier: Option<&Text>, space: Space, text: &Text) -> Result<Key, AllocError> {
    let qualifier = match qualifier {
        Some(qualifier) => Some(qualifier.clone()?),
        None => None,
    };
    Ok(Key {
        qualifier,
        space,
        text: text.clone()?,
    })
}

impl Names {
    pub fn new(alloc: Global) -> Names {
        Names {
            entries: IndexMap::new(alloc),
            whole: IndexSet::new(alloc),
        }
    }

    /// Lets the entity stand under its own spelling and the qualifier.
    pub fn add(
        &mut self,
        alloc: Global,
        qualifier: Option<&Text>,
        entity: &Entity,
    ) -> Result<(), AllocError> {
        let key = key_of(qualifier, entity.space, &entity.text)?;
        if !self.whole.contains(entity) {
            self.whole.insert(entity.clone()?)?;
        }
        if let Some(others) = self.entries.get_mut(&key) {
            if !others.iter().any(|other| other == entity) {
                others.push(entity.clone()?)?;
            }
            return Ok(());
        }
        let first = vec![in alloc; entity.clone()?]?;
        self.entries.insert(key, first)?;
        Ok(())
    }

    /// The entities of the name.
    pub fn found(&self, key: &Key) -> &[Entity] {
        match self.entries.get(key) {
            Some(entities) => entities.as_slice(),
            None => &[],
        }
    }

    /// Whether the entity stands under its own spelling and the qualifier.
    pub fn has(&self, qualifier: Option<&Text>, entity: &Entity) -> Result<bool, AllocError> {
        let key = key_of(qualifier, entity.space, &entity.text)?;
        Ok(self.found(&key).iter().any(|other| other == entity))
    }

    /// Whether the entity stands under any name.
    pub fn has_any(&self, entity: &Entity) -> bool {
        self.whole.contains(entity)
    }

    /// All entities, in the order in which they came.
    pub fn all(&self) -> &IndexSet<Entity> {
        &self.whole
    }
}
