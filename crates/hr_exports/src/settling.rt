use crate::brought::brought;
use crate::budget::Budget;
use crate::chosen::Chosen;
use crate::unit::{Unit, Units};
use hr_base::{Entity, Name, Seq, Space, Text};
use hr_names::{Names, key_of};
use hr_tables::{Interfaces, Seen};
use hr_tree::{Export, Listed, Module};
use std::alloc::{AllocError, Global};

/// What the modules export and what is in scope in each, also where `close` refuses. The order has each module
/// once, behind those that it imports.
pub fn tables(
    alloc: Global,
    modules: &[Module],
    order: &[usize],
) -> Result<Interfaces, AllocError> {
    let mut units = Units::new(alloc, modules)?;
    let mut budget = Budget::new();
    for number in order {
        settle(alloc, &mut units, *number, &mut budget)?;
    }
    interfaces(alloc, &units)
}

/// Finds the scope and the exports of the module, where those of its imports are known.
pub(crate) fn settle(
    alloc: Global,
    units: &mut Units<'_>,
    number: usize,
    budget: &mut Budget,
) -> Result<(), AllocError> {
    let Some(unit) = units.list.get(number) else {
        return Ok(());
    };
    let scope = scope_of(alloc, units, unit, budget)?;
    if let Some(unit) = units.list.get_mut(number) {
        unit.scope = scope;
    }
    let Some(unit) = units.list.get(number) else {
        return Ok(());
    };
    let exports = exports_of(alloc, units, unit, budget)?;
    if let Some(unit) = units.list.get_mut(number) {
        unit.exports = exports;
    }
    Ok(())
}

fn scope_of(
    alloc: Global,
    units: &Units<'_>,
    unit: &Unit<'_>,
    budget: &mut Budget,
) -> Result<Names, AllocError> {
    let mut scope = Names::new(alloc);
    add_under(alloc, &mut scope, None, &unit.own)?;
    add_under(alloc, &mut scope, Some(&unit.name), &unit.own)?;
    for access in unit.accesses.iter() {
        let Some(origin) = units.named(&access.origin) else {
            continue;
        };
        let entities = brought(alloc, units, &origin.exports, access.names, budget)?;
        if !access.qualified {
            add_under(alloc, &mut scope, None, &entities)?;
        }
        add_under(alloc, &mut scope, Some(&access.qualifier), &entities)?;
    }
    Ok(scope)
}

/// Lets the entities stand under the qualifier.
fn add_under(
    alloc: Global,
    names: &mut Names,
    qualifier: Option<&Text>,
    entities: &[Entity],
) -> Result<(), AllocError> {
    for entity in entities {
        names.add(alloc, qualifier, entity)?;
    }
    Ok(())
}

/// The items of the export list of a module that has one.
pub(crate) fn export_list<'a>(unit: &Unit<'a>) -> Option<&'a [Listed<Export>]> {
    let names = unit.tree.header.as_ref()?.exports.as_ref()?;
    Some(names.list.as_slice())
}

fn exports_of(
    alloc: Global,
    units: &Units<'_>,
    unit: &Unit<'_>,
    budget: &mut Budget,
) -> Result<Names, AllocError> {
    let mut exports = Names::new(alloc);
    if unit.tree.header.is_none() {
        let main = key_of(None, Space::Value, &Text::from_slice(alloc, b"main")?)?;
        add_under(alloc, &mut exports, None, unit.scope.found(&main))?;
        return Ok(exports);
    }
    let Some(list) = export_list(unit) else {
        add_under(alloc, &mut exports, None, &unit.own)?;
        return Ok(exports);
    };
    for listed in list {
        let mut chosen = Chosen::new(alloc, budget);
        chosen.add_exported(units, unit, &listed.part)?;
        add_under(alloc, &mut exports, None, &chosen.list)?;
    }
    Ok(exports)
}

pub(crate) fn interfaces(alloc: Global, units: &Units<'_>) -> Result<Interfaces, AllocError> {
    let mut exports = Vec::new(alloc);
    let mut in_scope = Vec::new(alloc);
    for (module, unit) in units.list.iter().enumerate() {
        add_seen(&mut exports, module, &unit.exports)?;
        add_seen(&mut in_scope, module, &unit.scope)?;
    }
    Ok(Interfaces {
        exports: Seq { list: exports },
        in_scope: Seq { list: in_scope },
    })
}

fn add_seen(list: &mut Vec<Seen>, module: usize, names: &Names) -> Result<(), AllocError> {
    for (key, entities) in names.entries.iter() {
        for entity in entities.iter() {
            let key = key.clone()?;
            list.push(Seen {
                module,
                name: Name {
                    qualifier: key.qualifier,
                    text: key.text,
                },
                entity: entity.clone()?,
            })?;
        }
    }
    Ok(())
}
