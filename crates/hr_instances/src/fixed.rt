//! Types that stand for a signature's variables where these are held fixed.
use hr_base::{Entity, Space, Text};
use hr_items::Items;
use hr_type::Mono;
use std::alloc::{AllocError, Global};

/// The constructor that stands for a fixed variable. No module has an empty name.
pub fn fixed_entity(alloc: Global, number: u32) -> Result<Entity, AllocError> {
    Ok(Entity {
        module: Text::from_slice(alloc, b"")?,
        space: Space::TypeName,
        text: Text::from_slice(alloc, number.to_be_bytes().as_slice())?,
    })
}

/// A fixed variable, as a type.
pub fn fixed_type(alloc: Global, number: u32) -> Result<Mono, AllocError> {
    Ok(Mono::Con(fixed_entity(alloc, number)?, Items::new(alloc)))
}

/// Whether a constructor stands for a fixed variable.
pub fn is_fixed(entity: &Entity) -> bool {
    entity.module.is_empty()
}
