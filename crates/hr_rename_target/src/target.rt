//! The target of a rename, made from what was there before.
ghost use Rattle.std.specs.Prelude.{◌≡◌, IfOk};
ghost use Rattle.hr_step.specs.Names.{binder_at};
ghost use Rattle.hr_rename_target.specs.Target.{drafted_at, lexeme_of, named, pairs_of, target_from};

use hr_base::{Binder, Entity, Item, Lexeme, Seq, Spot, Text};
use hr_draft::{Drafted, Origin};
use hr_rename::respelled;
use hr_step::{NameMap, binder_at};
use hr_tables::{Bindings, is_same_binder};
use std::alloc::{AllocError, Global};

/// What a rename is of: the binder, and its new name.
#[derive(Clone, Copy)]
pub struct Renamed<'a> {
    pub binder: &'a Binder,
    pub new: &'a Text,
}

/// The target of the module of that number, of its items.
pub fn target_of(
    alloc: Global,
    renamed: Renamed,
    bindings: &Bindings,
    module: usize,
    items: &[Item],
) -> Result<Vec<Drafted>, AllocError>
    ensures { IfOk result (λ target. target.items ≡ target_from renamed.entry.binder.now renamed.entry.new.now bindings.now.modules «module» 0 items.now) }
{
    let mut target = Vec::with_capacity(alloc, items.len())?;
    for (number, item) in items.iter().enumerate() {
        let spot = Spot {
            module,
            item: number,
        };
        target.push(drafted_at(alloc, renamed, bindings, spot, item)?)?;
    }
    Ok(target)
}

/// A lexeme of the target, where it stood.
fn drafted_at(
    alloc: Global,
    renamed: Renamed,
    bindings: &Bindings,
    spot: Spot,
    item: &Item,
) -> Result<Drafted, AllocError>
    ensures { IfOk result (λ drafted. drafted ≡ drafted_at renamed.entry.binder.now renamed.entry.new.now bindings.now.modules spot item.now) }
{
    Ok(Drafted {
        lexeme: lexeme_of(alloc, renamed, bindings, spot, &item.lexeme)?,
        origin: Origin::Kept(spot),
        manner: None,
        first: false,
    })
}

/// The lexeme at the spot, respelled where it is bound to the binder.
fn lexeme_of(
    alloc: Global,
    renamed: Renamed,
    bindings: &Bindings,
    spot: Spot,
    lexeme: &Lexeme,
) -> Result<Lexeme, AllocError>
    ensures { IfOk result (λ found. found ≡ lexeme_of renamed.entry.binder.now renamed.entry.new.now lexeme.now (binder_at bindings.now.modules spot)) }
{
    match binder_at(bindings, spot) {
        Some(bound) => {
            if is_same_binder(bound, renamed.binder) {
                return respelled(alloc, lexeme, renamed.new);
            }
            lexeme.clone()
        }
        None => lexeme.clone(),
    }
}

/// Which top-level thing takes the place of another: the renamed one, under its new name.
pub fn map_of(alloc: Global, renamed: Renamed) -> Result<NameMap, AllocError>
    ensures { IfOk result (λ map. map.pairs ≡ pairs_of renamed.entry.binder.now renamed.entry.new.now) }
{
    let mut list = Vec::new(alloc);
    if let Binder::Global(entity) = renamed.binder {
        list.push((entity.clone()?, named(entity, renamed.new)?))?;
    }
    Ok(NameMap {
        pairs: Seq { list },
    })
}

/// The thing under its new name.
fn named(entity: &Entity, new: &Text) -> Result<Entity, AllocError>
    ensures { IfOk result (λ found. found ≡ named entity.now new.now) }
{
    Ok(Entity {
        module: entity.module.clone()?,
        space: entity.space,
        text: new.clone()?,
    })
}
