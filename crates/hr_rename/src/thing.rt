//! The thing that a position names.
ghost use Rattle.std.specs.Prelude.{◌≡◌, IfOk, IfSome, Some};
ghost use Rattle.hr_rename.specs.Named.{IsAt, IsNamed};

use crate::scene::Scene;
use crate::spelling::plain_class;
use hr_base::{Binder, Class, Item, Place, Pos, Spot, Text};
use hr_blocks::blocks_of;
use hr_draft::{Blocks, PartSpan};
use hr_tree::{at, items};
use hr_why::{Sought, Why};
use std::alloc::{AllocError, Global};

/// A lexeme of a module with the items of that module.
#[derive(Drop)]
pub struct Thing<'a> {
    pub item: Item,
    pub class: Class,
    pub binder: &'a Binder,
}

/// The name that begins at the position of the module, if it is one that is bound.
pub fn thing_at<'a>(
    alloc: Global,
    scene: &Scene<'a>,
    module: &Text,
    pos: Pos,
) -> Result<Thing<'a>, Why>
    ensures { IfOk result (λ thing. IsNamed scene.now.files scene.now.modules.now scene.now.bindings.now.modules «module».now pos thing.binder.now) }
{
    let Some((spot, item)) = lexeme_at(alloc, scene, module, pos)? else {
        return Err(nothing_at(module, pos));
    };
    let Some(class) = plain_class(item.lexeme.class) else {
        return Err(nothing_at(module, pos));
    };
    match scene.binder_of(spot) {
        Some(binder) => Ok(Thing {
            item,
            class,
            binder,
        }),
        None => Err(why_unbound(alloc, scene, spot, class, module, pos)),
    }
}

/// The lexeme that begins at the position.
fn lexeme_at(
    alloc: Global,
    scene: &Scene,
    module: &Text,
    pos: Pos,
) -> Result<Option<(Spot, Item)>, AllocError>
    ensures { IfOk result (λ found. IfSome found (λ lexeme. IsAt scene.now.files scene.now.modules.now «module».now pos lexeme.0)) }
{
    let Some((module, tree)) = scene.module_named(module) else {
        return Ok(None);
    };
    let Some(number) = at(tree, pos) else {
        return Ok(None);
    };
    let items = items(alloc, tree)?;
    match items.list.as_slice().get(number) {
        Some(item) => Ok(Some((
            Spot {
                module,
                item: number,
            },
            item.clone()?,
        ))),
        None => Ok(None),
    }
}

fn nothing_at(module: &Text, pos: Pos) -> Why {
    match module.clone() {
        Ok(module) => Why::NoSuchThing {
            at: Sought::At(Place { module, pos }),
        },
        Err(error) => Why::Memory(error),
    }
}

/// Why a name that is bound to nothing isn't renamed: type variables and modules have no other name to give, and all
/// else is nothing that could be meant.
fn why_unbound(
    alloc: Global,
    scene: &Scene,
    spot: Spot,
    class: Class,
    module: &Text,
    pos: Pos,
) -> Why {
    match is_nameless(alloc, scene, spot, class) {
        Ok(true) => nothing_at(module, pos),
        Ok(false) => Why::WrongForm,
        Err(error) => Why::Memory(error),
    }
}

/// Whether an unbound lexeme is neither a type variable nor a module's name: a prefix minus, a word of an import, or
/// a name of a hiding list that the module doesn't export.
fn is_nameless(alloc: Global, scene: &Scene, spot: Spot, class: Class) -> Result<bool, AllocError> {
    let Some(tree) = scene.modules.get(spot.module) else {
        return Ok(true);
    };
    let items = items(alloc, tree)?;
    let list = items.list.as_slice();
    let blocks = blocks_of(alloc, tree)?;
    let import = import_round(list, &blocks, spot.item);
    Ok(match class {
        Class::VarId => import.is_some(),
        Class::ConId => match import {
            Some(import) => stands_in_list(list, import, spot.item),
            None => false,
        },
        _ => true,
    })
}

/// The import that the lexeme stands in.
fn import_round(list: &[Item], blocks: &Blocks, item: usize) -> Option<PartSpan> {
    for part in blocks.parts.as_slice() {
        if part.from <= item && item < part.to && is_import(list, part.from) {
            return Some(*part);
        }
    }
    None
}

fn is_import(list: &[Item], item: usize) -> bool {
    match list.get(item) {
        Some(item) => item.lexeme.class == Class::ReservedId && item.lexeme.text.is(b"import"),
        None => false,
    }
}

/// Whether a parenthesis stands before the lexeme in the import.
fn stands_in_list(list: &[Item], import: PartSpan, item: usize) -> bool {
    for (number, found) in list.iter().enumerate() {
        if import.from <= number
            && number < item
            && found.lexeme.class == Class::Special
            && found.lexeme.text.is(b"(")
        {
            return true;
        }
    }
    false
}
