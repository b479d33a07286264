//! Types that the Prelude has without a declaration.
use hr_base::{Entity, Space, Text};
use std::alloc::{AllocError, Global};

/// A type of the Prelude.
pub fn prelude_type(alloc: Global, text: &[u8]) -> Result<Entity, AllocError> {
    Ok(Entity {
        module: Text::from_slice(alloc, b"Prelude")?,
        space: Space::TypeName,
        text: Text::from_slice(alloc, text)?,
    })
}

/// `[]`
pub fn list_entity(alloc: Global) -> Result<Entity, AllocError> {
    prelude_type(alloc, b"[]")
}

/// The type of tuples of so many parts, and `()` for none.
pub fn tuple_entity(alloc: Global, parts: usize) -> Result<Entity, AllocError> {
    let mut text = Vec::new(alloc);
    text.push(b'(')?;
    for _ in 1..parts {
        text.push(b',')?;
    }
    text.push(b')')?;
    prelude_type(alloc, text.as_slice())
}
