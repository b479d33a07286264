//! What the items of lists choose.
ghost use Rattle.std.specs.Prelude.{◌≡◌};
ghost use Rattle.hr_scope_rules.specs.Exports.{lexeme_of};

use crate::budget::Budget;
use crate::unit::{Unit, Units, constructor_of};
use hr_base::{Entity, Item, Space};
use hr_names::{Names, key_of};
use hr_outline::name_of;
use hr_tree::{Constructor, Export, Imported, Member, Members, Variable};
use std::alloc::{AllocError, Global};

/// The lexeme that is the name of a variable.
pub(crate) fn lexeme_of(variable: &Variable) -> &Item
    ensures { result.now ≡ lexeme_of variable.now }
{
    match variable {
        Variable::Name(name) => name,
        Variable::Symbol(_, symbol, _) => symbol,
    }
}

/// The lexeme that names a part of a type in a list. Constructors that are no names stand in no list.
pub(crate) fn member_item(member: &Member) -> Option<&Item> {
    match member {
        Member::Constructor(constructor) => constructor_item(constructor),
        Member::Field(variable) => Some(lexeme_of(variable)),
    }
}

fn constructor_item(constructor: &Constructor) -> Option<&Item> {
    match constructor {
        Constructor::Name(name) => Some(name),
        Constructor::Symbol(_, symbol, _) => Some(symbol),
        _ => None,
    }
}

/// What lists have chosen, in order, and how much more they may choose.
#[derive(Drop)]
pub(crate) struct Chosen<'a> {
    pub(crate) list: Vec<Entity>,
    pub(crate) budget: &'a mut Budget,
}

impl<'a> Chosen<'a> {
    pub(crate) fn new(alloc: Global, budget: &'a mut Budget) -> Chosen<'a> {
        Chosen {
            list: Vec::new(alloc),
            budget,
        }
    }

    pub(crate) fn add_all(&mut self, entities: &[Entity]) -> Result<(), AllocError> {
        self.budget.spend(entities.len())?;
        for entity in entities {
            self.list.push(entity.clone()?)?;
        }
        Ok(())
    }

    /// Adds those parts of a type that are named with it, of those that stand among the names.
    fn add_members(
        &mut self,
        units: &Units<'_>,
        names: &Names,
        ty: &Entity,
        members: &Option<Members>,
    ) -> Result<(), AllocError> {
        let Some(parts) = units.parts_of(ty) else {
            return Ok(());
        };
        match members {
            None => Ok(()),
            Some(Members::All(..)) => {
                self.budget.spend(parts.len())?;
                for part in parts.iter() {
                    self.add_if_among(names, constructor_of(ty, part)?)?;
                }
                Ok(())
            }
            Some(Members::Named(_, list, _)) => {
                self.budget.spend(list.len())?;
                for listed in list.as_slice() {
                    if let Some(item) = member_item(&listed.part) {
                        if parts.contains(&item.lexeme.text) {
                            self.add_if_among(names, constructor_of(ty, &item.lexeme.text)?)?;
                        }
                    }
                }
                Ok(())
            }
        }
    }

    fn add_if_among(&mut self, names: &Names, constructor: Entity) -> Result<(), AllocError> {
        if names.has_any(&constructor) {
            self.list.push(constructor)?;
        }
        Ok(())
    }

    /// Adds the exported entities that an item of an import list names.
    pub(crate) fn add_imported(
        &mut self,
        units: &Units<'_>,
        exports: &Names,
        item: &Imported,
    ) -> Result<(), AllocError> {
        match item {
            Imported::Variable(variable) => {
                let key = key_of(None, Space::Value, &lexeme_of(variable).lexeme.text)?;
                self.add_all(exports.found(&key))
            }
            Imported::Type(name, members) => {
                let key = key_of(None, Space::TypeName, &name.lexeme.text)?;
                self.add_types(units, exports, exports.found(&key), members)
            }
        }
    }

    fn add_types(
        &mut self,
        units: &Units<'_>,
        names: &Names,
        types: &[Entity],
        members: &Option<Members>,
    ) -> Result<(), AllocError> {
        self.add_all(types)?;
        for ty in types {
            self.add_members(units, names, ty, members)?;
        }
        Ok(())
    }

    /// Adds what an export item brings out.
    pub(crate) fn add_exported(
        &mut self,
        units: &Units<'_>,
        unit: &Unit<'_>,
        item: &Export,
    ) -> Result<(), AllocError> {
        let scope = &unit.scope;
        match item {
            Export::Variable(variable) => {
                self.add_all(standing(scope, Space::Value, lexeme_of(variable))?)
            }
            Export::Type(name, members) => {
                let types = standing(scope, Space::TypeName, name)?;
                self.add_types(units, scope, types, members)
            }
            Export::Module(_, name) => {
                let entities = scope.under(&name.lexeme.text);
                self.budget.spend(entities.len())?;
                for entity in entities {
                    if scope.has(None, entity)? {
                        self.list.push(entity.clone()?)?;
                    }
                }
                Ok(())
            }
        }
    }
}

/// What stands for the name that a lexeme spells.
pub(crate) fn standing<'b>(
    scope: &'b Names,
    space: Space,
    item: &Item,
) -> Result<&'b [Entity], AllocError> {
    let name = name_of(&item.lexeme)?;
    let key = key_of(name.qualifier.as_ref(), space, &name.text)?;
    Ok(scope.found(&key))
}
