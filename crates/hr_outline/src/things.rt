use crate::Outline;
use hr_base::{Entity, Space, Text};
use hr_scope_rules::Role;
use indexmap::{IndexMap, IndexSet};
use std::alloc::{AllocError, Global};

/// The constructors of each type that a module declares.
pub type Parts = IndexMap<Text, IndexSet<Text>>;

/// The top-level things of a module, in the order of the text. Int and Char are types of Prelude, though nothing
/// declares them.
pub fn own_entities(
    alloc: Global,
    module: &Text,
    outline: &Outline<'_>,
) -> Result<Vec<Entity>, AllocError> {
    let mut entities = Vec::new(alloc);
    if module.is(b"Prelude") {
        for text in [b"Int".as_slice(), b"Char".as_slice()] {
            entities.push(Entity {
                module: module.clone()?,
                space: Space::TypeName,
                text: Text::from_slice(alloc, text)?,
            })?;
        }
    }
    for mark in outline.marks.iter() {
        if let (Role::Declares(space), None) = (mark.role, mark.region) {
            entities.push(Entity {
                module: module.clone()?,
                space,
                text: mark.item.lexeme.text.clone()?,
            })?;
        }
    }
    Ok(entities)
}

/// The constructors by their types. A constructor is of the type that is declared last before it.
pub fn type_parts(alloc: Global, outline: &Outline<'_>) -> Result<Parts, AllocError> {
    let mut parts = IndexMap::new(alloc);
    let mut ty = Text::from_slice(alloc, b"")?;
    for mark in outline.marks.iter() {
        match (mark.role, mark.region) {
            (Role::Declares(Space::TypeName), None) => ty = mark.item.lexeme.text.clone()?,
            (Role::Declares(Space::Constructor), None) => {
                add_part(alloc, &mut parts, &ty, &mark.item.lexeme.text)?;
            }
            _ => {}
        }
    }
    Ok(parts)
}

fn add_part(alloc: Global, parts: &mut Parts, ty: &Text, part: &Text) -> Result<(), AllocError> {
    let part = part.clone()?;
    if let Some(others) = parts.get_mut(ty) {
        others.insert(part)?;
        return Ok(());
    }
    let mut first = IndexSet::new(alloc);
    first.insert(part)?;
    parts.insert(ty.clone()?, first)?;
    Ok(())
}
