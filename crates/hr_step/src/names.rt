//! Whether names are bound as meant.
ghost use Rattle.std.specs.Prelude.{◌≡◌, IfOk, option_copied, slice_get};
ghost use Rattle.hr_step.specs.Names.{drafts_behind, binder_at, first_from, first_in_draft, first_in_module, first_in_place, first_rebound, has_image, in_module, is_image, is_meant, is_spot, judged, lexeme_at, number_at, numbered, numbers_in, origin, partner, target_numbers, target_spot, targets_from};

use crate::kept::kept_number;
use hr_base::{Binder, Entity, Seq, Spot};
use hr_draft::{Draft, Drafted};
use hr_tables::{Bindings, is_same_entity};
use std::alloc::{AllocError, Global};

/// Pairs of a top-level thing and the one that takes its place in the target.
#[derive(Debug, Drop)]
pub struct NameMap {
    pub pairs: Seq<(Entity, Entity)>,
}

impl NameMap {
    /// The thing whose place this one takes, which is itself where it takes no other's.
    pub fn origin<'a>(&'a self, entity: &'a Entity) -> &'a Entity
        ensures { result.now ≡ origin self.now.pairs entity.now }
    {
        for pair in self.pairs.as_slice() {
            if is_same_entity(&pair.1, entity) {
                return &pair.0;
            }
        }
        entity
    }

    /// The thing that takes the place of this one, which is itself where no other does.
    pub fn partner<'a>(&'a self, entity: &'a Entity) -> &'a Entity
        ensures { result.now ≡ partner self.now.pairs entity.now }
    {
        for pair in self.pairs.as_slice() {
            if is_same_entity(&pair.0, entity) {
                return &pair.1;
            }
        }
        entity
    }
}

/// A kept lexeme that is bound otherwise than meant: the old one, and the one of the target.
#[derive(Clone, Copy, Debug, PartialEq, Eq)]
pub struct Rebound {
    pub old: Spot,
    pub new: Spot,
}

/// What the lexemes of the target are bound to. A lexeme whose region declares its spelling twice has the second
/// binder in `also`, where that is told.
#[derive(Clone, Copy)]
pub struct Found<'a> {
    pub new: &'a Bindings,
    pub also: &'a Bindings,
}

/// What the lexeme is bound to.
pub fn binder_at(bindings: &Bindings, spot: Spot) -> Option<&Binder>
    ensures { option_copied result ≡ binder_at bindings.now.modules spot }
{
    match bindings.modules.as_slice().get(spot.module) {
        Some(entries) => match entries.as_slice().get(spot.item) {
            Some(entry) => entry.as_ref(),
            None => None,
        },
        None => None,
    }
}

/// The first kept lexeme, in the order of the target, that isn't bound to the image of its old binder.
pub fn first_rebound(
    alloc: Global,
    drafts: &[Draft],
    map: &NameMap,
    old: &Bindings,
    found: Found,
) -> Result<Option<Rebound>, AllocError>
    ensures { IfOk result (λ rebound. rebound ≡ first_rebound drafts.now map.now.pairs old.now.modules found.entry.new.now.modules found.entry.also.now.modules) }
{
    let targets = targets_of(alloc, drafts, old)?;
    let judge = Judge {
        targets: targets.as_slice(),
        map,
        old,
        new: found.new,
        also: found.also,
    };
    Ok(first_of(judge, drafts, found.new))
}

/// The same, for the bindings of the target.
fn first_of(judge: Judge, drafts: &[Draft], new: &Bindings) -> Option<Rebound>
    ensures { result ≡ first_from (judged judge.entry.targets.now judge.entry.map.now.pairs judge.entry.old.now.modules judge.entry.new.now.modules judge.entry.also.now.modules) 0 drafts.now new.now.modules }
{
    let mut left = drafts;
    for (module, entries) in new.modules.as_slice().iter().enumerate() {
        if let Some(rebound) = first_in_module(judge, module, left, entries.as_slice()) {
            return Some(rebound);
        }
        left = drafts_behind(left, module);
    }
    None
}

/// The drafts behind that of the module, if it has one.
fn drafts_behind(drafts: &[Draft], module: usize) -> &[Draft]
    ensures { result.now ≡ drafts_behind drafts.now «module» }
{
    match drafts {
        [draft, rest @ ..] => {
            if draft.module == module {
                return rest;
            }
            drafts
        }
        [] => drafts,
    }
}

/// The numbers in the target of the lexemes of a module that has a draft.
type Numbers = Option<Seq<Option<usize>>>;

fn targets_of(alloc: Global, drafts: &[Draft], old: &Bindings) -> Result<Vec<Numbers>, AllocError>
    ensures { IfOk result (λ targets. targets.items ≡ targets_from 0 drafts.now old.now.modules) }
{
    let mut targets = Vec::new(alloc);
    let mut left = drafts;
    for (module, entries) in old.modules.as_slice().iter().enumerate() {
        targets.push(numbers_in(alloc, module, left, entries.len())?)?;
        left = drafts_behind(left, module);
    }
    Ok(targets)
}

/// The numbers of the module, of which the drafts may begin with the draft, and which has so many old lexemes.
fn numbers_in(
    alloc: Global,
    module: usize,
    drafts: &[Draft],
    lexemes: usize,
) -> Result<Numbers, AllocError>
    ensures { IfOk result (λ numbers. numbers ≡ numbers_in «module» drafts.now lexemes) }
{
    match drafts {
        [draft, ..] => {
            if draft.module == module {
                let list = target_numbers(alloc, lexemes, draft.lexemes.as_slice())?;
                return Ok(Some(Seq { list }));
            }
            Ok(None)
        }
        [] => Ok(None),
    }
}

/// Of each old lexeme, of which there are so many, its number in the draft.
fn target_numbers(
    alloc: Global,
    lexemes: usize,
    draft: &[Drafted],
) -> Result<Vec<Option<usize>>, AllocError>
    ensures { IfOk result (λ numbers. numbers.items ≡ target_numbers lexemes draft.now) }
{
    let mut numbers = vec![in alloc; None; lexemes]?;
    for (number, drafted) in draft.iter().enumerate() {
        note(numbers.as_mut_slice(), number, kept_number(drafted));
    }
    Ok(numbers)
}

/// Notes the number of an old lexeme in the draft, if it is kept.
fn note(numbers: &mut [Option<usize>], number: usize, kept: Option<usize>)
    ensures { numbers.new ≡ numbered numbers.old number kept }
{
    if let Some(item) = kept {
        if item < numbers.len() {
            numbers[item] = Some(number);
        }
    }
}

/// What the lexemes are held against: where those of the old text stand in the target, which things have others in
/// their place, what is bound to what before the step and in the target, and what names are bound to beside that.
#[derive(Clone, Copy)]
struct Judge<'a> {
    targets: &'a [Numbers],
    map: &'a NameMap,
    old: &'a Bindings,
    new: &'a Bindings,
    also: &'a Bindings,
}

/// The first lexeme of the module that isn't bound as meant, of which the drafts may begin with the draft.
fn first_in_module(
    judge: Judge,
    module: usize,
    drafts: &[Draft],
    entries: &[Option<Binder>],
) -> Option<Rebound>
    ensures { result ≡ first_in_module (judged judge.entry.targets.now judge.entry.map.now.pairs judge.entry.old.now.modules judge.entry.new.now.modules judge.entry.also.now.modules) «module» drafts.now entries.now }
{
    match drafts {
        [draft, ..] => {
            if draft.module == module {
                return first_in_draft(judge, module, draft.lexemes.as_slice());
            }
            first_in_place(judge, module, entries)
        }
        [] => first_in_place(judge, module, entries),
    }
}

/// The first lexeme of a module with a draft.
fn first_in_draft(judge: Judge, module: usize, lexemes: &[Drafted]) -> Option<Rebound>
    ensures { result ≡ first_in_draft (judged judge.entry.targets.now judge.entry.map.now.pairs judge.entry.old.now.modules judge.entry.new.now.modules judge.entry.also.now.modules) «module» 0 lexemes.now }
{
    for (item, drafted) in lexemes.iter().enumerate() {
        if let Some(number) = kept_number(drafted) {
            let lexeme = lexeme_at(module, number, item);
            if !is_meant(judge, lexeme) {
                return Some(lexeme);
            }
        }
    }
    None
}

/// The first lexeme of a module that no edit changes, for the entries of its lexemes.
fn first_in_place(judge: Judge, module: usize, entries: &[Option<Binder>]) -> Option<Rebound>
    ensures { result ≡ first_in_place (judged judge.entry.targets.now judge.entry.map.now.pairs judge.entry.old.now.modules judge.entry.new.now.modules judge.entry.also.now.modules) «module» 0 entries.now }
{
    for (item, _) in entries.iter().enumerate() {
        let lexeme = lexeme_at(module, item, item);
        if !is_meant(judge, lexeme) {
            return Some(lexeme);
        }
    }
    None
}

/// Whether the lexeme is bound to the image of its old binder. For one that had none nothing is meant.
fn is_meant(judge: Judge, lexeme: Rebound) -> bool
    ensures { result ≡ is_meant (judged judge.entry.targets.now judge.entry.map.now.pairs judge.entry.old.now.modules judge.entry.new.now.modules judge.entry.also.now.modules) lexeme }
{
    match binder_at(judge.old, lexeme.old) {
        Some(old) => {
            if has_image(judge.targets, judge.map, old, judge.new, lexeme.new) {
                return true;
            }
            has_image(judge.targets, judge.map, old, judge.also, lexeme.new)
        }
        None => true,
    }
}

/// Whether the lexeme is bound to the image of the binder.
fn has_image(
    targets: &[Numbers],
    map: &NameMap,
    old: &Binder,
    bindings: &Bindings,
    spot: Spot,
) -> bool
    ensures { result ≡ has_image targets.now map.now.pairs old.now (binder_at bindings.now.modules spot) }
{
    match binder_at(bindings, spot) {
        Some(new) => is_image(targets, map, old, new),
        None => false,
    }
}

/// A lexeme of the module, by its numbers in the old text and in the target.
fn lexeme_at(module: usize, number: usize, item: usize) -> Rebound
    ensures { result ≡ lexeme_at «module» number item }
{
    Rebound {
        old: Spot {
            module,
            item: number,
        },
        new: Spot { module, item },
    }
}

/// Whether the new binder is the image of the old one.
fn is_image(targets: &[Numbers], map: &NameMap, old: &Binder, new: &Binder) -> bool
    ensures { result ≡ is_image targets.now map.now.pairs old.now new.now }
{
    match (old, new) {
        (Binder::Global(old), Binder::Global(new)) => is_same_entity(map.partner(old), new),
        (Binder::Local(old), Binder::Local(new)) => is_spot(target_spot(targets, *old), *new),
        (Binder::Global(_), Binder::Local(_)) => false,
        (Binder::Local(_), Binder::Global(_)) => false,
    }
}

fn is_spot(spot: Option<Spot>, new: Spot) -> bool
    ensures { result ≡ is_spot spot new }
{
    match spot {
        Some(spot) => {
            if spot.module == new.module {
                spot.item == new.item
            } else {
                false
            }
        }
        None => false,
    }
}

/// Where the old lexeme stands in the target.
fn target_spot(targets: &[Numbers], spot: Spot) -> Option<Spot>
    ensures { result ≡ target_spot targets.now spot }
{
    match targets.get(spot.module) {
        Some(Some(numbers)) => in_module(spot.module, number_at(numbers.as_slice(), spot.item)),
        Some(None) => Some(spot),
        None => Some(spot),
    }
}

fn number_at(numbers: &[Option<usize>], item: usize) -> Option<usize>
    ensures { result ≡ number_at (slice_get numbers.now item) }
{
    match numbers.get(item) {
        Some(number) => *number,
        None => None,
    }
}

fn in_module(module: usize, item: Option<usize>) -> Option<Spot>
    ensures { result ≡ in_module «module» item }
{
    match item {
        Some(item) => Some(Spot { module, item }),
        None => None,
    }
}
