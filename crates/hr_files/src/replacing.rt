ghost use Rattle.std.specs.Prelude.{◌≡◌, ◌++◌, ◌+◌, ◌<◌, ◌≤◌, All, IfErr, IfOk, OnOk, length, map, slice_get, take};
ghost use Rattle.std.specs.String.{string_bytes};
ghost use Rattle.hr_shelf.specs.Outside.{Rose, StaysReady};
ghost use Rattle.std.specs.Option.{option_copied};
ghost use Rattle.hr_files.specs.Replaced.{IsReadyChange, after_changes, change_at, changes_from};

use hr_base::{Seq, Text};
use hr_shelf::{Failed, Shelf};
use std::alloc::{AllocError, Global};

/// A file that changes: the number of its name, from 0, and its new bytes.
#[derive(Drop)]
pub struct Change {
    pub file: usize,
    pub bytes: Seq<u8>,
}

/// The files whose texts differ, with their new texts.
pub fn changes(alloc: Global, olds: &[Text], news: &[Text]) -> Result<Vec<Change>, AllocError>
    ensures { IfOk result (λ changes. changes.items ≡ changes_from news.now 0 olds.now) }
{
    let mut changes = Vec::new(alloc);
    for (file, old) in olds.iter().enumerate() {
        add_change(alloc, &mut changes, file, old, text_at(news, file))?;
    }
    Ok(changes)
}

fn text_at(texts: &[Text], file: usize) -> Option<&Text>
    ensures { option_copied result ≡ slice_get texts.now file }
{
    texts.get(file)
}

/// Adds the file of that number where its new text differs.
fn add_change(
    alloc: Global,
    changes: &mut Vec<Change>,
    file: usize,
    old: &Text,
    new: Option<&Text>,
) -> Result<(), AllocError>
    ensures { OnOk result (changes.new.items ≡ changes.old.items ++ change_at file old.now (option_copied new.entry)) }
{
    match new {
        Some(new) if !new.is(old.as_slice()) => {
            let list = new.to_vec(alloc)?;
            let bytes = Seq { list };
            Ok(changes.push(Change { file, bytes })?)
        }
        _ => Ok(()),
    }
}

/// Replaces the files with these names one after another, up to the first that is refused: the number of its change
/// is the answer.
pub fn replace_files<S: Shelf>(
    shelf: &mut S,
    names: &[String],
    changes: Vec<Change>,
) -> Result<(), usize>
    requires { All (IsReadyChange (S.store shelf.old).ready (map string_bytes names.now)) changes.items }
    ensures puts { OnOk result ((S.store shelf.new).told ≡ after_changes (map string_bytes names.now) (S.store shelf.old).told changes.items) }
    ensures within { IfErr result (λ refused. refused < length changes.items) }
    ensures stops { IfErr result (λ refused. (S.store shelf.new).told ≡ after_changes (map string_bytes names.now) (S.store shelf.old).told (take refused changes.items)) }
    ensures cause { IfErr result (λ refused. Rose (S.store shelf.old).replace_faults (S.store shelf.new).replace_faults) }
    ensures kept { OnOk result ((S.store shelf.new).replace_faults ≡ (S.store shelf.old).replace_faults) }
    ensures reads { (S.store shelf.new).read_faults ≡ (S.store shelf.old).read_faults }
    ensures stays_ready { StaysReady (S.store shelf.old).ready (S.store shelf.new).ready }
    ensures counted { (S.store shelf.new).calls ≤ (S.store shelf.old).calls + length changes.items }
{
    let mut done = 0usize;
    for change in changes {
        let Change { file, bytes } = change;
        let Seq { list } = bytes;
        match shelf.replace(names[file].as_str(), list) {
            Ok(()) => done += 1,
            Err(Failed) => return Err(done),
        }
    }
    Ok(())
}
