//! The files that change are replaced, or get their old texts again.
ghost use Rattle.std.specs.Prelude.{◌≡◌, ◌≤◌, ◌+◌, ◌<◌, false, [], All, length, map, slice_index_or, vec_capacity, vec_len};
ghost use Rattle.std.specs.String.{string_bytes};
ghost use Rattle.hr_files.specs.Read.{AreReady};
ghost use Rattle.hr_files.specs.Replaced.{IsReadyChange, name_of};
ghost use Rattle.hare.specs.Ends.{status_of};
ghost use Rattle.hare.specs.Rooms.{longest};
ghost use Rattle.hare.specs.Shown.{shown};
ghost use Rattle.hare.specs.Steps.{IsGivenBack, RunsOut};

use crate::asked::Asked;
use crate::status::Status;
use crate::telling::tell;
use crate::{faults, report};
use hr_base::Text;
use hr_files::{Change, backs, changes, replace_files, roll_back};
use hr_shelf::{Shelf, Sink};
use std::alloc::{AllocError, Global};

/// Replaces the files that change and reports behind the lines of the commands. Where a file can't be replaced, those
/// before it get their old texts again. Nothing here takes memory once the bytes and the reports are made.
pub fn replace<S: Shelf, K: Sink>(
    alloc: Global,
    asked: Asked<'_>,
    told: Vec<u8>,
    olds: &[Text],
    news: &[Text],
    shelf: &mut S,
    out: &mut K,
) -> Result<Status, AllocError>
    requires ready { AreReady (S.store shelf.old).ready (map string_bytes asked.files.now) }
    requires count { length olds.now ≡ length (map string_bytes asked.files.now) }
    requires wet { asked.dry_run ≡ false }
    ensures { RunsOut (shown asked.entry) olds.now news.now told.items (S.store shelf.old) (K.output out.old) (S.store shelf.new) (K.output out.new) (status_of result) }
{
    let forth = changes(alloc, olds, news)?;
    let back = backs(alloc, olds, forth.as_slice())?;
    let stayed = Vec::with_capacity(alloc, back.len())?;
    let fault = faults::with_room(alloc, told.as_slice(), asked.files, forth.as_slice())?;
    let done = report::changed(alloc, told, asked.files, forth.as_slice())?;
    match replace_files(shelf, asked.files, forth) {
        Ok(()) => Ok(tell(out, done.as_slice(), Status::Done)),
        Err(refused) => {
            let fault = take_back(shelf, asked.files, refused, back, stayed, fault);
            Ok(tell(out, fault.as_slice(), Status::WriteFault))
        }
    }
}

/// Gives the files before the refused change their old texts again, and reports which file could not be replaced and
/// what became of the others. It takes no memory.
fn take_back<S: Shelf>(
    shelf: &mut S,
    files: &[String],
    refused: usize,
    back: Vec<Change>,
    stayed: Vec<usize>,
    fault: Vec<u8>,
) -> Vec<u8>
    requires ready { All (IsReadyChange (S.store shelf.old).ready (map string_bytes files.now)) back.items }
    requires within { refused < length back.items }
    requires none { stayed.items ≡ [] }
    requires places { length back.items ≤ vec_capacity stayed }
    requires room { vec_len fault + length (longest (map (λ change. name_of (map string_bytes files.now) change) back.items)) ≤ vec_capacity fault }
    ensures { IsGivenBack (map string_bytes files.now) back.items refused fault.items (S.store shelf.old) (S.store shelf.new) result.items }
{
    let file = file_at(back.as_slice(), refused);
    let mut back = back;
    back.truncate(refused);
    let mut stayed = stayed;
    roll_back(shelf, files, back, &mut stayed);
    let mut fault = fault;
    faults::add_fault(&mut fault, files, file, stayed.as_slice());
    fault
}

/// The number of the file of that change.
fn file_at(changes: &[Change], change: usize) -> usize
    ensures { result ≡ slice_index_or (map (λ change. change.file) changes.now) change 0 }
{
    match changes.get(change) {
        Some(change) => change.file,
        None => 0,
    }
}
