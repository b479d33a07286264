//! The edits of a rename.
ghost use Rattle.std.specs.Prelude.{◌≡◌, IfOk, Some, map};
ghost use Rattle.hr_tables.specs.Bindings.{all_spots};
ghost use Rattle.hr_rename.specs.Edits.{all_respelled, has_spot, list_of, lists_from, respelled_at};

use crate::spelling::respelled;
use hr_base::{Binder, Item, Items, Seq, Spot, Text};
use hr_edit::Edit;
use hr_tables::Bindings;
use hr_tree::{Module, items};
use std::alloc::{AllocError, Global};

/// Every occurrence of the binder, in every module, gets the new text, behind its qualifier where it has one.
pub fn edits_of(
    alloc: Global,
    modules: &[Module],
    bindings: &Bindings,
    binder: &Binder,
    new: &Text,
) -> Result<Vec<Edit>, AllocError>
    ensures { IfOk result (λ edits. map (λ edit. Some edit) edits.items ≡ all_respelled modules.now new.now (all_spots binder.now 0 bindings.now.modules)) }
{
    let spots = bindings.occurrences(alloc, binder)?;
    let lists = lists_of(alloc, modules, spots.as_slice())?;
    let mut edits = Vec::new(alloc);
    for spot in spots.as_slice() {
        edits.push(edit_at(alloc, lists.as_slice(), *spot, new)?)?;
    }
    Ok(edits)
}

/// The items of each module in which one of the spots is; none of the others.
fn lists_of(alloc: Global, modules: &[Module], spots: &[Spot]) -> Result<Vec<Seq<Item>>, AllocError>
    ensures { IfOk result (λ lists. lists.items ≡ lists_from 0 spots.now modules.now) }
{
    let mut lists = Vec::new(alloc);
    for (module, tree) in modules.iter().enumerate() {
        lists.push(list_of(alloc, tree, has_spot(spots, module))?)?;
    }
    Ok(lists)
}

fn has_spot(spots: &[Spot], module: usize) -> bool
    ensures { result ≡ has_spot spots.now «module» }
{
    spots.iter().any(|spot| spot.module == module)
}

/// The items of the module, or none.
fn list_of(alloc: Global, tree: &Module, is_wanted: bool) -> Result<Seq<Item>, AllocError>
    ensures { IfOk result (λ list. list ≡ list_of tree.now is_wanted) }
{
    if is_wanted {
        let Items { list, tail: _ } = items(alloc, tree)?;
        return Ok(list);
    }
    Ok(Seq {
        list: Vec::new(alloc),
    })
}

/// The edit that gives the lexeme at the spot the new text.
fn edit_at(alloc: Global, lists: &[Seq<Item>], spot: Spot, new: &Text) -> Result<Edit, AllocError>
    ensures { IfOk result (λ edit. Some edit ≡ respelled_at lists.now new.now spot) }
{
    let Some(list) = lists.get(spot.module) else {
        return Err(AllocError);
    };
    let Some(item) = list.as_slice().get(spot.item) else {
        return Err(AllocError);
    };
    let lexeme = respelled(alloc, &item.lexeme, new)?;
    Ok(Edit::Respell { spot, lexeme })
}
