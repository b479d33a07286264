//! What imports bring of what modules export.
use crate::budget::Budget;
use crate::chosen::{Chosen, lexeme_of, member_item};
use crate::unit::Units;
use hr_base::{Entity, Text};
use hr_names::Names;
use hr_tree::{ImportNames, Imported, Listed, Member, Members};
use indexmap::IndexSet;
use std::alloc::{AllocError, Global};

/// What a hiding list hides: spellings, and constructors of types.
#[derive(Drop)]
struct Hidden {
    texts: IndexSet<Text>,
    entities: IndexSet<Entity>,
}

impl Hidden {
    fn new(
        alloc: Global,
        units: &Units<'_>,
        exports: &Names,
        list: &[Listed<Imported>],
        budget: &mut Budget,
    ) -> Result<Hidden, AllocError> {
        let mut hidden = Hidden {
            texts: IndexSet::new(alloc),
            entities: IndexSet::new(alloc),
        };
        for listed in list {
            hidden.add_spellings(&listed.part)?;
            if hides_parts(&listed.part) {
                let mut chosen = Chosen::new(alloc, budget);
                chosen.add_imported(units, exports, &listed.part)?;
                let Chosen { list, .. } = chosen;
                hidden.add_entities(list)?;
            }
        }
        Ok(hidden)
    }

    fn add_entities(&mut self, entities: Vec<Entity>) -> Result<(), AllocError> {
        for entity in entities {
            self.entities.insert(entity)?;
        }
        Ok(())
    }

    fn add_spellings(&mut self, item: &Imported) -> Result<(), AllocError> {
        match item {
            Imported::Variable(variable) => self.add_text(&lexeme_of(variable).lexeme.text),
            Imported::Type(name, members) => {
                self.add_text(&name.lexeme.text)?;
                match members {
                    Some(Members::Named(_, list, _)) => self.add_members(list.as_slice()),
                    _ => Ok(()),
                }
            }
        }
    }

    fn add_members(&mut self, list: &[Listed<Member>]) -> Result<(), AllocError> {
        for listed in list {
            if let Some(item) = member_item(&listed.part) {
                self.add_text(&item.lexeme.text)?;
            }
        }
        Ok(())
    }

    fn add_text(&mut self, text: &Text) -> Result<(), AllocError> {
        self.texts.insert(text.clone()?)?;
        Ok(())
    }

    fn hides(&self, entity: &Entity) -> bool {
        self.texts.contains(&entity.text) || self.entities.contains(entity)
    }
}

/// Whether the item hides the constructors of its type whatever their spellings.
fn hides_parts(item: &Imported) -> bool {
    match item {
        Imported::Type(_, Some(Members::All(..))) => true,
        _ => false,
    }
}

/// What an import brings of what the module exports.
pub(crate) fn brought(
    alloc: Global,
    units: &Units<'_>,
    exports: &Names,
    names: Option<&ImportNames>,
    budget: &mut Budget,
) -> Result<Vec<Entity>, AllocError> {
    let Some(names) = names else {
        return unhidden(alloc, exports, None, budget);
    };
    let list = names.list.list.as_slice();
    if names.hiding.is_some() {
        let hidden = Hidden::new(alloc, units, exports, list, budget)?;
        return unhidden(alloc, exports, Some(&hidden), budget);
    }
    let mut chosen = Chosen::new(alloc, budget);
    for listed in list {
        chosen.add_imported(units, exports, &listed.part)?;
    }
    let Chosen { list, .. } = chosen;
    Ok(list)
}

/// The exported entities that aren't hidden.
fn unhidden(
    alloc: Global,
    exports: &Names,
    hidden: Option<&Hidden>,
    budget: &mut Budget,
) -> Result<Vec<Entity>, AllocError> {
    budget.spend(exports.all().len())?;
    let mut list = Vec::new(alloc);
    for entity in exports.all().iter() {
        let is_hidden = match hidden {
            Some(hidden) => hidden.hides(entity),
            None => false,
        };
        if !is_hidden {
            list.push(entity.clone()?)?;
        }
    }
    Ok(list)
}
