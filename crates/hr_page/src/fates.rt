//! What becomes of the old lexemes.

use hr_draft::{Draft, Origin};
use std::alloc::{AllocError, Global};

#[derive(Clone, Copy, Debug, PartialEq, Eq)]
pub enum Fate {
    Kept,
    /// Carried to another place of the module or into another module.
    Carried,
    Removed,
}

/// The fate of each of the old lexemes of the draft's module, of which there are so many.
pub fn fates(alloc: Global, lexemes: usize, draft: &Draft) -> Result<Vec<Fate>, AllocError> {
    let mut fates = vec![in alloc; Fate::Removed; lexemes]?;
    for spot in draft.gone.as_slice() {
        set_fate(fates.as_mut_slice(), spot.item, Fate::Carried);
    }
    for drafted in draft.lexemes.as_slice() {
        match drafted.origin {
            Origin::Kept(spot) => set_fate(fates.as_mut_slice(), spot.item, Fate::Kept),
            Origin::Carried(spot) if spot.module == draft.module => {
                set_fate(fates.as_mut_slice(), spot.item, Fate::Carried);
            }
            _ => {}
        }
    }
    Ok(fates)
}

fn set_fate(fates: &mut [Fate], item: usize, fate: Fate) {
    if let Some(slot) = fates.get_mut(item) {
        *slot = fate;
    }
}
