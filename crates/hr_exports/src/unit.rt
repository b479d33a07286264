ghost use Rattle.std.specs.Prelude.{◌≡◌, IfOk};
ghost use Rattle.hr_base.specs.declared.bind.Space.{Space};
ghost use Rattle.hr_scope_rules.specs.Modules.{entity_of};

use crate::access::{Access, accesses};
use hr_base::{Entity, Space, Text};
use hr_names::Names;
use hr_outline::{Outline, Parts, module_name, outline_of, own_entities, type_parts};
use hr_tree::Module;
use indexmap::{IndexMap, IndexSet};
use std::alloc::{AllocError, Global};

/// A module with what its exports and its scope follow from, and both of them once they are known.
#[derive(Drop)]
pub(crate) struct Unit<'a> {
    pub(crate) tree: &'a Module,
    pub(crate) name: Text,
    pub(crate) outline: Outline<'a>,
    pub(crate) own: Vec<Entity>,
    pub(crate) parts: Parts,
    pub(crate) accesses: Vec<Access<'a>>,
    /// The qualifiers that the imports give.
    pub(crate) qualifiers: IndexSet<Text>,
    pub(crate) scope: Names,
    pub(crate) exports: Names,
}

/// The modules of a project, and the number of each by its name.
#[derive(Drop)]
pub(crate) struct Units<'a> {
    pub(crate) list: Vec<Unit<'a>>,
    numbers: IndexMap<Text, usize>,
}

fn unit_of(alloc: Global, tree: &Module) -> Result<Unit<'_>, AllocError> {
    let name = module_name(alloc, tree)?;
    let outline = outline_of(alloc, tree)?;
    let accesses = accesses(alloc, &name, tree)?;
    let mut qualifiers = IndexSet::new(alloc);
    for access in accesses.iter() {
        qualifiers.insert(access.qualifier.clone()?)?;
    }
    Ok(Unit {
        own: own_entities(alloc, &name, &outline)?,
        parts: type_parts(alloc, &outline)?,
        accesses,
        qualifiers,
        tree,
        name,
        outline,
        scope: Names::new(alloc),
        exports: Names::new(alloc),
    })
}

impl<'a> Units<'a> {
    pub(crate) fn new(alloc: Global, modules: &'a [Module]) -> Result<Units<'a>, AllocError> {
        let mut list = Vec::new(alloc);
        let mut numbers = IndexMap::new(alloc);
        for (number, tree) in modules.iter().enumerate() {
            let unit = unit_of(alloc, tree)?;
            numbers.insert(unit.name.clone()?, number)?;
            list.push(unit)?;
        }
        Ok(Units { list, numbers })
    }

    /// The module of that name.
    pub(crate) fn named(&self, name: &Text) -> Option<&Unit<'a>> {
        let number = self.numbers.get(name)?;
        self.list.get(*number)
    }

    /// The spellings of the constructors of a type.
    pub(crate) fn parts_of(&self, ty: &Entity) -> Option<&IndexSet<Text>> {
        self.named(&ty.module)?.parts.get(&ty.text)
    }

    /// The place of a module among those by which entities are ordered: Prelude, Char, and then the others in
    /// the order of the list.
    pub(crate) fn rank(&self, name: &Text) -> usize {
        if name.is(b"Prelude") {
            return 0;
        }
        if name.is(b"Char") {
            return 1;
        }
        match self.numbers.get(name) {
            Some(number) => number.saturating_add(2),
            None => usize::MAX,
        }
    }
}

/// The constructor of that spelling that a type may have as a part.
pub(crate) fn constructor_of(ty: &Entity, text: &Text) -> Result<Entity, AllocError>
    ensures { IfOk result (λ constructor. constructor ≡ entity_of ty.now.«module» Space.Constructor text.now) }
{
    Ok(Entity {
        module: ty.module.clone()?,
        space: Space::Constructor,
        text: text.clone()?,
    })
}
