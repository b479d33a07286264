use crate::{Key, key_of};
use hr_base::{Entity, Text};
use indexmap::{IndexMap, IndexSet};
use std::alloc::{AllocError, Global};
use std::hash::Hash;

/// The entities that names stand for. An entity stands under a name once.
#[derive(Drop)]
pub struct Names {
    pub entries: IndexMap<Key, Vec<Entity>>,
    /// Those under each qualifier.
    qualified: IndexMap<Text, Vec<Entity>>,
    /// All of them, under whatever name.
    whole: IndexSet<Entity>,
}

impl Names {
    pub fn new(alloc: Global) -> Names {
        Names {
            entries: IndexMap::new(alloc),
            qualified: IndexMap::new(alloc),
            whole: IndexSet::new(alloc),
        }
    }

    /// Lets the entity stand under its own spelling and the qualifier.
    pub fn add(
        &mut self,
        alloc: Global,
        qualifier: Option<&Text>,
        entity: &Entity,
    ) -> Result<(), AllocError> {
        let key = key_of(qualifier, entity.space, &entity.text)?;
        if is_among(self.found(&key), entity) {
            return Ok(());
        }
        self.whole.insert(entity.clone()?)?;
        if let Some(qualifier) = qualifier {
            append(alloc, &mut self.qualified, qualifier.clone()?, entity)?;
        }
        append(alloc, &mut self.entries, key, entity)
    }

    /// The entities of the name.
    pub fn found(&self, key: &Key) -> &[Entity] {
        match self.entries.get(key) {
            Some(entities) => entities.as_slice(),
            None => &[],
        }
    }

    /// Whether the entity stands under its own spelling and the qualifier.
    pub fn has(&self, qualifier: Option<&Text>, entity: &Entity) -> Result<bool, AllocError> {
        let key = key_of(qualifier, entity.space, &entity.text)?;
        Ok(is_among(self.found(&key), entity))
    }

    /// The entities that stand under the qualifier.
    pub fn under(&self, qualifier: &Text) -> &[Entity] {
        match self.qualified.get(qualifier) {
            Some(entities) => entities.as_slice(),
            None => &[],
        }
    }

    /// Whether the entity stands under any name.
    pub fn has_any(&self, entity: &Entity) -> bool {
        self.whole.contains(entity)
    }

    /// All entities, in the order in which they came.
    pub fn all(&self) -> &IndexSet<Entity> {
        &self.whole
    }
}

fn is_among(entities: &[Entity], entity: &Entity) -> bool {
    entities.iter().any(|other| other == entity)
}

/// Adds the entity to those of the key.
fn append<K: Drop + Eq + Hash>(
    alloc: Global,
    lists: &mut IndexMap<K, Vec<Entity>>,
    key: K,
    entity: &Entity,
) -> Result<(), AllocError> {
    if let Some(others) = lists.get_mut(&key) {
        others.push(entity.clone()?)?;
        return Ok(());
    }
    let first = vec![in alloc; entity.clone()?]?;
    lists.insert(key, first)?;
    Ok(())
}
