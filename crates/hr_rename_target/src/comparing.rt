//! Whether modules are the target of a rename.
ghost use Rattle.std.specs.Prelude.{◌≡◌, [], IfOk, None, true};
ghost use Rattle.hr_step.specs.Names.{first_rebound};
ghost use Rattle.hr_tree.specs.Yields.{items_of};
ghost use Rattle.hr_rename_target.specs.Renamed.{AreRenamed, are_read_from, is_read_as};
ghost use Rattle.hr_rename_target.specs.Target.{pairs_of, target_from};

use crate::target::{Renamed, map_of, target_of};
use hr_base::Seq;
use hr_rename::Scene;
use hr_step::{Found, are_lexemes_read, does_trivia_stay, first_rebound};
use hr_tables::Bindings;
use hr_tree::{Module, items};
use std::alloc::{AllocError, Global};

/// Whether the modules after a rename are those before it with what has the binder renamed, and their names are bound
/// to the same as before.
pub fn are_renamed(
    alloc: Global,
    renamed: Renamed,
    before: Scene,
    after: Scene,
) -> Result<bool, AllocError>
    ensures { IfOk result (λ are. are ≡ true → AreRenamed renamed.entry.binder.now renamed.entry.new.now before.entry.modules.now after.entry.modules.now before.entry.bindings.now.modules after.entry.bindings.now.modules) }
{
    if !are_read(alloc, renamed, before, after.modules)? {
        return Ok(false);
    }
    are_bound(alloc, renamed, before.bindings, after.bindings)
}

/// Whether each module is read as its target.
fn are_read(
    alloc: Global,
    renamed: Renamed,
    before: Scene,
    after: &[Module],
) -> Result<bool, AllocError>
    ensures { IfOk result (λ are. are ≡ are_read_from renamed.entry.binder.now renamed.entry.new.now before.entry.bindings.now.modules 0 before.entry.modules.now after.now) }
{
    let mut left = after;
    for (module, tree) in before.modules.iter().enumerate() {
        let [found, rest @ ..] = left else {
            return Ok(false);
        };
        if !is_read(alloc, renamed, before.bindings, module, tree, found)? {
            return Ok(false);
        }
        left = rest;
    }
    Ok(left.is_empty())
}

/// Whether the module of that number is read as its target.
fn is_read(
    alloc: Global,
    renamed: Renamed,
    bindings: &Bindings,
    module: usize,
    before: &Module,
    after: &Module,
) -> Result<bool, AllocError>
    ensures { IfOk result (λ is. is ≡ is_read_as (target_from renamed.entry.binder.now renamed.entry.new.now bindings.now.modules «module» 0 (items_of before.now).list) before.now after.now) }
{
    let old = items(alloc, before)?;
    let new = items(alloc, after)?;
    let target = target_of(alloc, renamed, bindings, module, old.list.as_slice())?;
    Ok(
        are_lexemes_read(target.as_slice(), new.list.as_slice())
            && does_trivia_stay(&old, target.as_slice(), &new),
    )
}

/// Whether each lexeme that was bound is bound to the same.
fn are_bound(
    alloc: Global,
    renamed: Renamed,
    old: &Bindings,
    new: &Bindings,
) -> Result<bool, AllocError>
    ensures { IfOk result (λ are. are ≡ true → first_rebound [] (pairs_of renamed.entry.binder.now renamed.entry.new.now) old.now.modules new.now.modules [] ≡ None) }
{
    let map = map_of(alloc, renamed)?;
    let none = Bindings {
        modules: Seq {
            list: Vec::new(alloc),
        },
    };
    let found = Found { new, also: &none };
    match first_rebound(alloc, &[], &map, old, found)? {
        Some(_) => Ok(false),
        None => Ok(true),
    }
}
