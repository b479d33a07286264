//! Whether exports clash.
use crate::ExportError;
use crate::budget::Budget;
use crate::chosen::Chosen;
use crate::settling::export_list;
use crate::unit::{Unit, Units};
use hr_base::{Entity, Space, Text};
use hr_names::{Key, key_of};
use std::alloc::{AllocError, Global};
use std::cmp::Ordering;

/// Whether no two things of one spelling and space are exported. The first item in the text that brings a name
/// that clashes is shown.
pub(crate) fn exports_apart(
    alloc: Global,
    units: &Units<'_>,
    unit: &Unit<'_>,
    budget: &mut Budget,
) -> Result<(), ExportError> {
    if !unit
        .exports
        .entries
        .values()
        .any(|entities| entities.len() > 1)
    {
        return Ok(());
    }
    let Some(list) = export_list(unit) else {
        let main = key_of(None, Space::Value, &Text::from_slice(alloc, b"main")?)?;
        return Err(clash(units, unit, &main)?);
    };
    for listed in list {
        let mut chosen = Chosen::new(alloc, budget);
        chosen.add_exported(units, unit, &listed.part)?;
        if let Some(key) = least_clash(unit, &chosen.list)? {
            return Err(clash(units, unit, &key)?);
        }
    }
    Ok(())
}

/// The least of the names that clash, in the order of bytes, a constructor before a type.
fn least_clash(unit: &Unit<'_>, entities: &[Entity]) -> Result<Option<Key>, AllocError> {
    let mut least: Option<Key> = None;
    for entity in entities {
        let key = key_of(None, entity.space, &entity.text)?;
        if unit.exports.found(&key).len() < 2 {
            continue;
        }
        let is_less = match &least {
            Some(other) => comes_before(&key, other),
            None => true,
        };
        if is_less {
            least = Some(key);
        }
    }
    Ok(least)
}

fn comes_before(key: &Key, other: &Key) -> bool {
    match key.text.cmp(&other.text) {
        Ordering::Less => true,
        Ordering::Equal => key.space < other.space,
        Ordering::Greater => false,
    }
}

/// The refusal of a name that clashes: its first two entities by the order of their modules.
fn clash(units: &Units<'_>, unit: &Unit<'_>, key: &Key) -> Result<ExportError, AllocError> {
    let entities = unit.exports.found(key);
    let Some(first) = next_in_order(units, entities, None) else {
        return Err(AllocError);
    };
    let Some(second) = next_in_order(units, entities, Some(units.rank(&first.module))) else {
        return Err(AllocError);
    };
    Ok(ExportError::ExportClash {
        module: unit.name.clone()?,
        name: key.text.clone()?,
        first: first.clone()?,
        second: second.clone()?,
    })
}

/// The entity whose module comes first behind a rank.
fn next_in_order<'b>(
    units: &Units<'_>,
    entities: &'b [Entity],
    behind: Option<usize>,
) -> Option<&'b Entity> {
    let mut least: Option<&'b Entity> = None;
    for entity in entities {
        let rank = units.rank(&entity.module);
        let is_behind = match behind {
            Some(before) => before < rank,
            None => true,
        };
        let is_less = match least {
            Some(other) => rank < units.rank(&other.module),
            None => true,
        };
        if is_behind && is_less {
            least = Some(entity);
        }
    }
    least
}
