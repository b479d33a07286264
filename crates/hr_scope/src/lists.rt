//! What the items of lists name.
use crate::project::{Project, Unit};
use hr_base::{Entity, Name, Space, Text};
use hr_names::{Names, key_of};
use hr_outline::name_of;
use std::alloc::{AllocError, Global};

/// The entities for which a name stands.
pub(crate) fn standing<'b>(
    names: &'b Names,
    space: Space,
    name: &Name,
) -> Result<&'b [Entity], AllocError> {
    let key = key_of(name.qualifier.as_ref(), space, &name.text)?;
    Ok(names.found(&key))
}

/// The entities of the spelling that a module exports.
fn exported<'b>(exports: &'b Names, space: Space, text: &Text) -> Result<&'b [Entity], AllocError> {
    let key = key_of(None, space, text)?;
    Ok(exports.found(&key))
}

/// What the module that the lexeme of that number names exports.
fn exports_at<'b>(project: &'b Project<'_>, unit: &Unit<'_>, origin: usize) -> Option<&'b Names> {
    let mark = unit.outline.marks.get(origin)?;
    let origin = project.named(&mark.item.lexeme.text)?;
    Some(&origin.exports)
}

/// What an item of an import list names.
pub(crate) fn imported<'b>(
    project: &'b Project<'_>,
    unit: &Unit<'_>,
    origin: usize,
    space: Space,
    text: &Text,
) -> Result<&'b [Entity], AllocError> {
    match exports_at(project, unit, origin) {
        Some(exports) => exported(exports, space, text),
        None => Ok(&[]),
    }
}

/// What a name in a hiding list is bound to: the value or type that is exported, or else the constructor.
pub(crate) fn hidden<'b>(
    project: &'b Project<'_>,
    unit: &Unit<'_>,
    origin: usize,
    text: &Text,
) -> Result<&'b [Entity], AllocError> {
    let Some(exports) = exports_at(project, unit, origin) else {
        return Ok(&[]);
    };
    for space in [Space::Value, Space::TypeName] {
        let found = exported(exports, space, text)?;
        if !found.is_empty() {
            return Ok(found);
        }
    }
    exported(exports, Space::Constructor, text)
}

/// The constructors of that spelling of some types, of those that stand among the names.
fn parts(
    alloc: Global,
    project: &Project<'_>,
    names: &Names,
    types: &[Entity],
    text: &Text,
) -> Result<Vec<Entity>, AllocError> {
    let mut chosen = Vec::new(alloc);
    for ty in types {
        if let Some(part) = project.part(ty, text)? {
            if names.has_any(&part) {
                chosen.push(part)?;
            }
        }
    }
    Ok(chosen)
}

/// What a constructor is bound to that an import list names with its type.
pub(crate) fn imported_part(
    alloc: Global,
    project: &Project<'_>,
    unit: &Unit<'_>,
    origin: usize,
    ty: usize,
    text: &Text,
) -> Result<Vec<Entity>, AllocError> {
    let Some(exports) = exports_at(project, unit, origin) else {
        return Ok(Vec::new(alloc));
    };
    let Some(ty) = unit.outline.marks.get(ty) else {
        return Ok(Vec::new(alloc));
    };
    let types = exported(exports, Space::TypeName, &ty.item.lexeme.text)?;
    parts(alloc, project, exports, types, text)
}

/// What a constructor is bound to that an export item names with its type.
pub(crate) fn exported_part(
    alloc: Global,
    project: &Project<'_>,
    unit: &Unit<'_>,
    ty: usize,
    text: &Text,
) -> Result<Vec<Entity>, AllocError> {
    let Some(ty) = unit.outline.marks.get(ty) else {
        return Ok(Vec::new(alloc));
    };
    let name = name_of(&ty.item.lexeme)?;
    let types = standing(&unit.scope, Space::TypeName, &name)?;
    parts(alloc, project, &unit.scope, types, text)
}
