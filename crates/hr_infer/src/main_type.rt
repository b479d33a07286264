//! Whether a project has a main.
ghost use Rattle.std.specs.Prelude.{◌≡◌, IfOk, IsTrue, Some};
ghost use Rattle.indexmap.specs.IndexMap.{get};
ghost use Rattle.hr_base.specs.declared.bind.Entity.{Entity};
ghost use Rattle.hr_type.specs.declared.mono.Scheme.{Scheme};
ghost use Rattle.hr_type.specs.Types.{IsInstance};
ghost use Rattle.hr_infer.specs.Main as spec;

use hr_base::{Entity, Space, Text};
use hr_items::{Boxed, Items};
use hr_type::{Mono, Scheme, instance};
use indexmap::IndexMap;
use std::alloc::{AllocError, Global};

/// Whether the types have `main` of `Main`, and it can be a function from text to text.
pub fn has_main(alloc: Global, schemes: &IndexMap<Entity, Scheme>) -> Result<bool, AllocError>
    ensures { IfOk result (λ yes. IsTrue yes → (scheme : Scheme) × (get ⟦<Entity as PartialEq>⟧.eq schemes.now spec.main_entity ≡ Some scheme) × IsInstance scheme spec.main_type) }
{
    let main = main_entity(alloc)?;
    match schemes.get(&main) {
        Some(scheme) => instance(alloc, scheme, &main_type(alloc)?),
        None => Ok(false),
    }
}

fn main_entity(alloc: Global) -> Result<Entity, AllocError>
    ensures { IfOk result (λ entity. entity ≡ spec.main_entity) }
{
    Ok(Entity {
        module: Text::from_slice(alloc, b"Main")?,
        space: Space::Value,
        text: Text::from_slice(alloc, b"main")?,
    })
}

/// `String -> String`
fn main_type(alloc: Global) -> Result<Mono, AllocError>
    ensures { IfOk result (λ ty. ty ≡ spec.main_type) }
{
    let from = Boxed::new(alloc, text_type(alloc)?)?;
    let to = Boxed::new(alloc, text_type(alloc)?)?;
    Ok(Mono::Fun(from, to))
}

/// `String`
fn text_type(alloc: Global) -> Result<Mono, AllocError>
    ensures { IfOk result (λ ty. ty ≡ spec.text_type) }
{
    let character = Mono::Con(prelude_type(alloc, b"Char")?, Items::new(alloc));
    let mut arguments = Items::new(alloc);
    arguments.push(character)?;
    Ok(Mono::Con(prelude_type(alloc, b"[]")?, arguments))
}

fn prelude_type(alloc: Global, text: &[u8]) -> Result<Entity, AllocError>
    ensures { IfOk result (λ entity. entity ≡ spec.prelude_type text.now) }
{
    Ok(Entity {
        module: Text::from_slice(alloc, b"Prelude")?,
        space: Space::TypeName,
        text: Text::from_slice(alloc, text)?,
    })
}
