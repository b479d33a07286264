//! What a rename writes, or why it is refused before anything is written.
ghost use Rattle.std.specs.Prelude.{◌≡◌, IfOk};
ghost use Rattle.hr_rename.specs.Named.{IsNamed};

use crate::edits::edits_of;
use crate::scene::Scene;
use crate::spelling::{is_lexeme_of, plain_text};
use crate::thing::thing_at;
use hr_base::{Binder, Entity, Pos, Seq, Space, Text};
use hr_edit::Edit;
use hr_step::NameMap;
use hr_why::Why;
use std::alloc::{AllocError, Global};

/// What a rename writes: what is renamed, the edits, and the top-level thing with its new name, where it is one.
#[derive(Drop)]
pub struct Renaming {
    pub binder: Binder,
    pub edits: Vec<Edit>,
    pub map: NameMap,
}

/// The edits of the rename of what begins at the position of the module, or the first of the reasons for which it is
/// refused before anything is written: nothing is there (31), it is Prelude's or Char's (32), it or the new name has
/// the wrong form (33), it has that name (34), it is `Main.main` (35).
pub fn plan_rename(
    alloc: Global,
    scene: &Scene,
    module: &Text,
    pos: Pos,
    new: &Text,
) -> Result<Renaming, Why>
    ensures { IfOk result (λ renaming. IsNamed scene.now.files scene.now.modules.now scene.now.bindings.now.modules «module».now pos renaming.binder) }
{
    let thing = thing_at(alloc, scene, module, pos)?;
    if let Binder::Global(entity) = thing.binder {
        if is_builtin(entity) {
            let entity = entity.clone()?;
            return Err(Why::Builtin { entity });
        }
    }
    if !is_lexeme_of(alloc, new, thing.class)? {
        return Err(Why::WrongForm);
    }
    if new.is(plain_text(&thing.item.lexeme)) {
        return Err(Why::SameName);
    }
    if is_main(thing.binder) {
        return Err(Why::MainFixed);
    }
    Ok(respelling(alloc, scene, thing.binder, new)?)
}

fn respelling(
    alloc: Global,
    scene: &Scene,
    binder: &Binder,
    new: &Text,
) -> Result<Renaming, AllocError>
    ensures { IfOk result (λ renaming. renaming.binder ≡ binder.now) }
{
    let edits = edits_of(alloc, scene.modules, scene.bindings, binder, new)?;
    let mut list = Vec::new(alloc);
    if let Binder::Global(entity) = binder {
        list.push((entity.clone()?, renamed(entity, new)?))?;
    }
    Ok(Renaming {
        binder: binder.clone()?,
        edits,
        map: NameMap {
            pairs: Seq { list },
        },
    })
}

/// The top-level thing under its new name.
fn renamed(entity: &Entity, new: &Text) -> Result<Entity, AllocError> {
    Ok(Entity {
        module: entity.module.clone()?,
        space: entity.space,
        text: new.clone()?,
    })
}

/// Whether Prelude or Char declares it.
fn is_builtin(entity: &Entity) -> bool {
    entity.module.is(b"Prelude") || entity.module.is(b"Char")
}

fn is_main(binder: &Binder) -> bool {
    match binder {
        Binder::Global(entity) => {
            entity.space == Space::Value && entity.text.is(b"main") && entity.module.is(b"Main")
        }
        Binder::Local(_) => false,
    }
}
