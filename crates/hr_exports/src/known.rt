//! Whether what lists name is there.
use crate::ExportError;
use crate::chosen::{lexeme_of, member_item, standing};
use crate::settling::export_list;
use crate::unit::{Unit, Units, constructor_of};
use hr_base::{Entity, Item, Space, Text};
use hr_names::{Names, key_of};
use hr_outline::place_of;
use hr_scope_rules::Role;
use hr_tree::{Export, Members};
use std::alloc::{AllocError, Global};

/// Whether each lexeme of the import lists names something.
pub(crate) fn imports_exported(units: &Units<'_>, unit: &Unit<'_>) -> Result<(), ExportError> {
    for (number, mark) in unit.outline.marks.iter().enumerate() {
        let text = &mark.item.lexeme.text;
        let named = match mark.role {
            Role::Imported(origin, space) => is_exported(units, unit, origin, space, text)?,
            Role::ImportedPart(origin, ty) => is_part_exported(units, unit, origin, ty, text)?,
            _ => true,
        };
        if !named {
            return Err(ExportError::NotExported {
                name: text.clone()?,
                place: place_of(&unit.name, &unit.outline, number)?,
            });
        }
    }
    Ok(())
}

/// What the module that the lexeme of that number names exports.
fn exports_at<'b>(units: &'b Units<'_>, unit: &Unit<'_>, origin: usize) -> Option<&'b Names> {
    let mark = unit.outline.marks.get(origin)?;
    let origin = units.named(&mark.item.lexeme.text)?;
    Some(&origin.exports)
}

fn is_exported(
    units: &Units<'_>,
    unit: &Unit<'_>,
    origin: usize,
    space: Space,
    text: &Text,
) -> Result<bool, AllocError> {
    let key = key_of(None, space, text)?;
    Ok(match exports_at(units, unit, origin) {
        Some(exports) => !exports.found(&key).is_empty(),
        None => false,
    })
}

fn is_part_exported(
    units: &Units<'_>,
    unit: &Unit<'_>,
    origin: usize,
    ty: usize,
    text: &Text,
) -> Result<bool, AllocError> {
    let Some(exports) = exports_at(units, unit, origin) else {
        return Ok(false);
    };
    let Some(ty) = unit.outline.marks.get(ty) else {
        return Ok(false);
    };
    let key = key_of(None, Space::TypeName, &ty.item.lexeme.text)?;
    has_part(units, exports, exports.found(&key), text)
}

/// Whether a constructor of that spelling is a part of one of the types, and stands among the names.
fn has_part(
    units: &Units<'_>,
    names: &Names,
    types: &[Entity],
    text: &Text,
) -> Result<bool, AllocError> {
    for ty in types {
        let is_part = match units.parts_of(ty) {
            Some(parts) => parts.contains(text),
            None => false,
        };
        if is_part && names.has_any(&constructor_of(ty, text)?) {
            return Ok(true);
        }
    }
    Ok(false)
}

/// Whether each lexeme of the export list names something in scope.
pub(crate) fn exports_known(
    alloc: Global,
    units: &Units<'_>,
    unit: &Unit<'_>,
) -> Result<(), ExportError> {
    if unit.tree.header.is_none() && unit.exports.all().is_empty() {
        return Err(unknown(unit, &Text::from_slice(alloc, b"main")?)?);
    }
    let Some(list) = export_list(unit) else {
        return Ok(());
    };
    for listed in list {
        if let Some(item) = unknown_in(units, unit, &listed.part)? {
            return Err(unknown(unit, &item.lexeme.text)?);
        }
    }
    Ok(())
}

fn unknown(unit: &Unit<'_>, name: &Text) -> Result<ExportError, AllocError> {
    Ok(ExportError::UnknownExport {
        module: unit.name.clone()?,
        name: name.clone()?,
    })
}

/// The first lexeme of an export item that names nothing.
fn unknown_in<'b>(
    units: &Units<'_>,
    unit: &Unit<'_>,
    item: &'b Export,
) -> Result<Option<&'b Item>, AllocError> {
    match item {
        Export::Variable(variable) => {
            let name = lexeme_of(variable);
            let found = standing(&unit.scope, Space::Value, name)?;
            Ok(if found.is_empty() { Some(name) } else { None })
        }
        Export::Type(name, members) => {
            let types = standing(&unit.scope, Space::TypeName, name)?;
            if types.is_empty() {
                return Ok(Some(name));
            }
            unknown_member(units, unit, types, members)
        }
        Export::Module(_, name) => {
            let known = is_qualifier(unit, &name.lexeme.text);
            Ok(if known { None } else { Some(name) })
        }
    }
}

fn unknown_member<'b>(
    units: &Units<'_>,
    unit: &Unit<'_>,
    types: &[Entity],
    members: &'b Option<Members>,
) -> Result<Option<&'b Item>, AllocError> {
    let Some(Members::Named(_, list, _)) = members else {
        return Ok(None);
    };
    for listed in list.as_slice() {
        if let Some(item) = member_item(&listed.part) {
            if !has_part(units, &unit.scope, types, &item.lexeme.text)? {
                return Ok(Some(item));
            }
        }
    }
    Ok(None)
}

/// Whether it is the module's own name, or a qualifier that one of its imports gives.
fn is_qualifier(unit: &Unit<'_>, text: &Text) -> bool {
    unit.name == *text || unit.qualifiers.contains(text)
}
