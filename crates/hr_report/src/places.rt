ghost use Rattle.std.specs.Prelude.{◌≡◌, IfOk};
ghost use Rattle.std.specs.String.{string_bytes};
ghost use Rattle.hr_report.specs.Places as spec;

use hr_base::{Entity, Place, Pos};
use std::alloc::{AllocError, Global};

/// A place: its module's name, its line and its column.
pub fn place_text(alloc: Global, place: &Place) -> Result<Vec<u8>, AllocError>
    ensures { IfOk result (λ text. text.items ≡ spec.place_text place.now) }
{
    place_at(alloc, place.module.as_slice(), place.pos)
}

/// A position behind the name of a module or a file.
pub fn place_at(alloc: Global, name: &[u8], pos: Pos) -> Result<Vec<u8>, AllocError>
    ensures { IfOk result (λ text. text.items ≡ spec.at name.now pos) }
{
    let Pos { line, col } = pos;
    let mut text = Vec::from_slice(alloc, name)?;
    let behind = format!(in alloc; ":{line}:{col}")?;
    text.extend_from_slice(behind.as_bytes())?;
    Ok(text)
}

/// A top-level thing: its module and its name.
pub fn entity_text(alloc: Global, entity: &Entity) -> Result<Vec<u8>, AllocError>
    ensures { IfOk result (λ text. text.items ≡ spec.entity_text entity.now) }
{
    let mut text = entity.module.to_vec(alloc)?;
    text.push(b'.')?;
    text.extend_from_slice(entity.text.as_slice())?;
    Ok(text)
}
