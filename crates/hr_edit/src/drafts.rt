//! The drafts that edits make.

use crate::Edit;
use crate::plan::{Slot, plan};
use hr_base::{Item, Lexeme, Seq, Spot};
use hr_draft::{Draft, Drafted, Manner, Origin};
use hr_tree::{Module, items};
use std::alloc::{AllocError, Global};

/// The draft of each module that an edit changes, in the order of the modules.
pub fn apply(alloc: Global, modules: &[Module], edits: &[Edit]) -> Result<Seq<Draft>, AllocError> {
    let mut drafts = Vec::new(alloc);
    for (module, tree) in modules.iter().enumerate() {
        if edits.iter().any(|edit| edit.module() == module) {
            let old = items(alloc, tree)?;
            drafts.push(draft_of(alloc, module, old.list.as_slice(), edits)?)?;
        }
    }
    Ok(Seq { list: drafts })
}

impl Edit {
    /// The module that the edit changes.
    fn module(&self) -> usize {
        match self {
            Edit::Respell { spot, .. } => spot.module,
            Edit::Insert { before, .. } => before.module,
            Edit::Remove { from, .. } => from.module,
        }
    }
}

/// The draft of the module that has these items.
pub fn draft_of(
    alloc: Global,
    module: usize,
    items: &[Item],
    edits: &[Edit],
) -> Result<Draft, AllocError> {
    let slots = plan(alloc, module, items.len(), edits)?;
    let mut list = Vec::with_capacity(alloc, items.len())?;
    for (number, slot) in slots.as_slice().iter().enumerate() {
        add_inserted(&mut list, slot, edits)?;
        if let Some(item) = items.get(number) {
            let spot = Spot {
                module,
                item: number,
            };
            add_kept(&mut list, spot, item, slot, edits)?;
        }
    }
    Ok(Draft {
        module,
        lexemes: Seq { list },
        gone: Seq {
            list: Vec::new(alloc),
        },
    })
}

/// Adds what the edits of the slot put in.
fn add_inserted(list: &mut Vec<Drafted>, slot: &Slot, edits: &[Edit]) -> Result<(), AllocError> {
    for number in slot.inserts.as_slice() {
        if let Some(
            Edit::Insert {
                lexemes,
                manner,
                ..
            },
        ) = edits.get(*number)
        {
            add_new(list, lexemes.as_slice(), *manner)?;
        }
    }
    Ok(())
}

/// Adds the lexemes that one edit puts in.
fn add_new(list: &mut Vec<Drafted>, lexemes: &[Lexeme], manner: Manner) -> Result<(), AllocError> {
    let mut first = true;
    for lexeme in lexemes {
        list.push(Drafted {
            lexeme: lexeme.clone()?,
            origin: Origin::New,
            manner: Some(manner),
            first,
        })?;
        first = false;
    }
    Ok(())
}

/// Adds the old lexeme, unless it goes.
fn add_kept(
    list: &mut Vec<Drafted>,
    spot: Spot,
    item: &Item,
    slot: &Slot,
    edits: &[Edit],
) -> Result<(), AllocError> {
    if slot.removed {
        return Ok(());
    }
    let lexeme = respelled(item, slot, edits)?;
    list.push(Drafted {
        lexeme,
        origin: Origin::Kept(spot),
        manner: None,
        first: false,
    })?;
    Ok(())
}

/// The lexeme of the item, or the one that an edit gives it.
fn respelled(item: &Item, slot: &Slot, edits: &[Edit]) -> Result<Lexeme, AllocError> {
    let edit = slot.respelled.and_then(|number| edits.get(number));
    match edit {
        Some(Edit::Respell { lexeme, .. }) => lexeme.clone(),
        _ => item.lexeme.clone(),
    }
}
