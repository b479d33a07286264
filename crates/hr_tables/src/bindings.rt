ghost use Rattle.std.specs.Prelude.{◌≡◌, ◌<◌, [], None, length, slice_index_or, option_copied, IfOk, OnOk, ◌++◌};
ghost use Rattle.hr_tables.specs.Bindings.{all_spots, is_bound_to, module_spots};

use crate::is_same_binder;
use hr_base::{Binder, Seq, Spot};
use std::alloc::{AllocError, Global};

/// What the names of a project are bound to: a list for each module in the order of the modules, with an entry for
/// each lexeme. A lexeme that is no name, or is bound to nothing, has none.
#[derive(Debug, Drop)]
pub struct Bindings {
    pub modules: Seq<Seq<Option<Binder>>>,
}

impl Bindings {
    /// What the lexeme is bound to.
    pub fn binder_of(&self, spot: Spot) -> Option<&Binder>
        requires module_within { spot.«module» < length self.now.modules }
        requires item_within { spot.item < length (slice_index_or self.now.modules spot.«module» []) }
        ensures { option_copied result ≡ slice_index_or (slice_index_or self.now.modules spot.«module» []) spot.item None }
    {
        self.modules.as_slice()[spot.module].as_slice()[spot.item].as_ref()
    }

    /// The lexemes that are bound to the binder, in the order of the modules and of the text.
    pub fn occurrences(&self, alloc: Global, binder: &Binder) -> Result<Vec<Spot>, AllocError>
        ensures { IfOk result (λ spots. spots.items ≡ all_spots binder.now 0 self.now.modules) }
    {
        let mut spots = Vec::new(alloc);
        for (module, entries) in self.modules.as_slice().iter().enumerate() {
            add_spots(&mut spots, binder, module, entries.as_slice())?;
        }
        Ok(spots)
    }
}

/// Adds the lexemes of a module that are bound to the binder.
fn add_spots(
    spots: &mut Vec<Spot>,
    binder: &Binder,
    module: usize,
    entries: &[Option<Binder>],
) -> Result<(), AllocError>
    ensures { OnOk result (spots.new.items ≡ spots.old.items ++ module_spots binder.now «module» 0 entries.now) }
{
    for (item, entry) in entries.iter().enumerate() {
        if is_bound_to(entry, binder) {
            spots.push(Spot { module, item })?;
        }
    }
    Ok(())
}

/// Whether an entry has the binder.
fn is_bound_to(entry: &Option<Binder>, binder: &Binder) -> bool
    ensures { result ≡ is_bound_to entry.now binder.now }
{
    match entry {
        Some(bound) => is_same_binder(bound, binder),
        None => false,
    }
}
