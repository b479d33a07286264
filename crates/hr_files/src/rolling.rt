ghost use Rattle.std.specs.Prelude.{◌≡◌, ◌+◌, ◌≤◌, [], All, IfOk, length, map, slice_index_or, vec_capacity};
ghost use Rattle.std.specs.String.{string_bytes};
ghost use Rattle.hr_files.specs.Replaced.{IsReadyChange};
ghost use Rattle.hr_files.specs.RolledBack as spec;
ghost use Rattle.hr_files.specs.RolledBack.{RollsBack, RoseBy};

use crate::Change;
use hr_base::{Seq, Text};
use hr_shelf::{Failed, Shelf};
use std::alloc::{AllocError, Global};

/// The changes that give the files of these changes their old texts again.
pub fn backs(alloc: Global, olds: &[Text], changes: &[Change]) -> Result<Vec<Change>, AllocError>
    ensures { IfOk result (λ backs. backs.items ≡ spec.backs olds.now changes.now) }
{
    let mut backs = Vec::new(alloc);
    for change in changes {
        let list = bytes_of(alloc, olds, change.file)?;
        backs.push(Change {
            file: change.file,
            bytes: Seq { list },
        })?;
    }
    Ok(backs)
}

/// The bytes of the text of that number.
fn bytes_of(alloc: Global, texts: &[Text], file: usize) -> Result<Vec<u8>, AllocError>
    ensures { IfOk result (λ bytes. bytes.items ≡ slice_index_or texts.now file []) }
{
    match texts.get(file) {
        Some(text) => text.to_vec(alloc),
        None => Ok(Vec::new(alloc)),
    }
}

/// Gives the files of these changes their bytes, the last one first, whatever becomes of the others. The numbers of
/// those that were refused, in the order of the tries, are put into `stayed`, which has room for all of them: nothing
/// here takes memory.
pub fn roll_back<S: Shelf>(
    shelf: &mut S,
    names: &[String],
    mut changes: Vec<Change>,
    stayed: &mut Vec<usize>,
)
    requires ready { All (IsReadyChange (S.store shelf.old).ready (map string_bytes names.now)) changes.items }
    requires none { stayed.old.items ≡ [] }
    requires room { length changes.items ≤ vec_capacity stayed.old }
    ensures puts { RollsBack (map string_bytes names.now) (S.store shelf.old).told changes.items stayed.new.items (S.store shelf.new).told }
    ensures cause { RoseBy (length stayed.new.items) (S.store shelf.old).replace_faults (S.store shelf.new).replace_faults }
    ensures reads { (S.store shelf.new).read_faults ≡ (S.store shelf.old).read_faults }
    ensures counted { (S.store shelf.new).calls ≤ (S.store shelf.old).calls + length changes.items }
{
    while let Some(Change { file, bytes }) = changes.pop() {
        let Seq { list } = bytes;
        match shelf.replace(names[file].as_str(), list) {
            Ok(()) => {}
            Err(Failed) => stayed.push_reserved(file),
        }
    }
}
