//! Exports of a target that clash.
ghost use Rattle.std.specs.Prelude.{IfOk, IfSome};
ghost use Rattle.hr_finish.specs.Endings.{IsEnding};

use hr_base::{Space, Text};
use hr_outline::module_name;
use hr_tables::{Interfaces, Seen};
use hr_tree::Module;
use hr_why::Why;
use indexmap::IndexMap;
use std::alloc::{AllocError, Global};

/// The refusal for the first module, in the order of the files, that exports two things of one spelling and space.
pub fn export_clash(
    alloc: Global,
    modules: &[Module],
    interfaces: &Interfaces,
) -> Result<Option<Why>, AllocError>
    ensures { IfOk result (λ found. IfSome found IsEnding) }
{
    let Some((number, name)) = first_clash(alloc, interfaces.exports.as_slice())? else {
        return Ok(None);
    };
    let Some(tree) = modules.get(number) else {
        return Ok(None);
    };
    let module = module_name(alloc, tree)?;
    Ok(Some(Why::WouldClashExport { module, name }))
}

/// The least number of a module with two exports of one spelling and space, and that spelling.
fn first_clash(alloc: Global, exports: &[Seen]) -> Result<Option<(usize, Text)>, AllocError> {
    let mut known: IndexMap<(usize, Space, Text), usize> = IndexMap::new(alloc);
    let mut first: Option<(usize, Text)> = None;
    for (place, seen) in exports.iter().enumerate() {
        let key = (seen.module, seen.entity.space, seen.name.text.clone()?);
        if known.insert(key, place)?.is_some() && is_before(seen.module, &first) {
            first = Some((seen.module, seen.name.text.clone()?));
        }
    }
    Ok(first)
}

fn is_before(module: usize, first: &Option<(usize, Text)>) -> bool {
    match first {
        Some((other, _)) => module < *other,
        None => true,
    }
}
