ghost use Rattle.std.specs.Prelude.{◌≡◌, IfOk};
ghost use Rattle.indexmap.specs.IndexMap.{get};
ghost use Rattle.hr_scope.specs.Once.{once_of};

use crate::locals::{Named, region_name};
use hr_base::{Space, Text};
use hr_outline::Outline;
use hr_scope_rules::Role;
use indexmap::IndexMap;
use std::alloc::{AllocError, Global};
use std::hash::Hash;

/// What a region has once of each spelling.
#[derive(Clone, Copy, Debug, Drop, PartialEq, Eq, Hash)]
enum Once {
    Declared(Space),
    Signed,
    Fixed(Space),
    Parameter,
}

fn counted(role: Role) -> Option<Once>
    ensures { result ≡ once_of role }
{
    match role {
        Role::Declares(space) => Some(Once::Declared(space)),
        Role::Signs => Some(Once::Signed),
        Role::Fixes(space) => Some(Once::Fixed(space)),
        Role::Parameter => Some(Once::Parameter),
        _ => None,
    }
}

/// The first lexeme that declares something again, or signs it or fixes it again, behind the first that did.
pub(crate) fn first_double(
    alloc: Global,
    outline: &Outline<'_>,
) -> Result<Option<(usize, usize)>, AllocError> {
    let mut seen: IndexMap<(Once, Option<Named>, Text), usize> = IndexMap::new(alloc);
    for (number, mark) in outline.marks.iter().enumerate() {
        if let Some(once) = counted(mark.role) {
            let region = mark.region.and_then(|number| region_name(outline, number));
            let key = (once, region, mark.item.lexeme.text.clone()?);
            if let Some(first) = first_of(&mut seen, key, number)? {
                return Ok(Some((first, number)));
            }
        }
    }
    Ok(None)
}

/// The number that was noted for the key; where there is none, this one is from now on.
fn first_of<K: Drop + Eq + Hash>(
    seen: &mut IndexMap<K, usize>,
    key: K,
    number: usize,
) -> Result<Option<usize>, AllocError>
    ensures { IfOk result (λ first. first ≡ get K.eq seen.old key) }
{
    if let Some(first) = seen.get(&key) {
        return Ok(Some(*first));
    }
    seen.insert(key, number)?;
    Ok(None)
}
