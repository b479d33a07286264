//! Reports of files that could not be replaced, made in room that was kept for them.
ghost use Rattle.std.specs.Prelude.{◌≡◌, ◌++◌, ◌+◌, ◌≤◌, [], IfOk, OnOk, length, map, slice_index_or, vec_capacity, vec_len};
ghost use Rattle.std.specs.String.{string_bytes};
ghost use Rattle.hr_files.specs.Replaced.{name_of};
ghost use Rattle.hare.specs.Report as spec;
ghost use Rattle.hare.specs.Rooms.{longest, longest_lines};

use crate::report::name_at;
use hr_files::Change;
use std::alloc::{AllocError, Global};

const WRITE_FAULT: &[u8] = b"write fault: ";

const NOT_ROLLED_BACK: &[u8] = b"not rolled back: ";

const ROLLED_BACK: &[u8] = b"rolled back";

/// The lines of the commands, with room behind them for what `add_fault` adds, whichever of these changes is refused
/// and whatever then stays: as much as all the lines together take.
pub fn with_room(
    alloc: Global,
    told: &[u8],
    files: &[String],
    changes: &[Change],
) -> Result<Vec<u8>, AllocError>
    ensures items { IfOk result (λ text. text.items ≡ told.now) }
    ensures len { IfOk result (λ text. vec_len text ≡ length told.now) }
    ensures room { IfOk result (λ text. length told.now + length (longest (map (λ change. name_of (map string_bytes files.now) change) changes.now)) ≤ vec_capacity text) }
{
    let mut text = Vec::from_slice(alloc, told)?;
    extend_line(&mut text, ROLLED_BACK, "")?;
    for change in changes {
        let name = name_at(files, change.file);
        extend_line(&mut text, WRITE_FAULT, name)?;
        extend_line(&mut text, NOT_ROLLED_BACK, name)?;
    }
    text.truncate(told.len());
    Ok(text)
}

/// Adds a line.
fn extend_line(text: &mut Vec<u8>, begin: &[u8], end: &str) -> Result<(), AllocError>
    ensures { OnOk result (text.new.items ≡ text.old.items ++ spec.line (begin.now ++ end.now)) }
{
    text.extend_from_slice(begin)?;
    text.extend_from_slice(end.as_bytes())?;
    text.push(b'\n')?;
    Ok(())
}

/// Behind the lines of the commands: the file that could not be replaced, and those that could not be given their old
/// bytes again, in the order of the tries. There is room for it, and no memory is taken.
pub fn add_fault(text: &mut Vec<u8>, files: &[String], file: usize, stayed: &[usize])
    requires { vec_len text.old + length (spec.write_fault (slice_index_or (map string_bytes files.now) file []) (map (λ file. slice_index_or (map string_bytes files.now) file []) stayed.now)) ≤ vec_capacity text.old }
    ensures { text.new.items ≡ text.old.items ++ spec.write_fault (slice_index_or (map string_bytes files.now) file []) (map (λ file. slice_index_or (map string_bytes files.now) file []) stayed.now) }
{
    put_line(text, WRITE_FAULT, name_at(files, file));
    match stayed {
        [] => put_line(text, ROLLED_BACK, ""),
        [_, ..] => put_stayed(text, files, stayed),
    }
}

/// A line for each file that stayed new.
fn put_stayed(text: &mut Vec<u8>, files: &[String], stayed: &[usize])
    requires { vec_len text.old + length (spec.stayed_lines (map (λ file. slice_index_or (map string_bytes files.now) file []) stayed.now)) ≤ vec_capacity text.old }
    ensures { text.new.items ≡ text.old.items ++ spec.stayed_lines (map (λ file. slice_index_or (map string_bytes files.now) file []) stayed.now) }
{
    for index in 0..stayed.len() {
        put_line(
            text,
            NOT_ROLLED_BACK,
            name_at(files, number_at(stayed, index)),
        );
    }
}

fn number_at(numbers: &[usize], index: usize) -> usize
    ensures { result ≡ slice_index_or numbers.now index 0 }
{
    match numbers.get(index) {
        Some(number) => *number,
        None => 0,
    }
}

/// Adds a line for which there is room.
fn put_line(text: &mut Vec<u8>, begin: &[u8], end: &str)
    requires { vec_len text.old + length (spec.line (begin.now ++ end.now)) ≤ vec_capacity text.old }
    ensures items { text.new.items ≡ text.old.items ++ spec.line (begin.now ++ end.now) }
    ensures len { vec_len text.new ≡ vec_len text.old + length (spec.line (begin.now ++ end.now)) }
    ensures capacity { vec_capacity text.old ≤ vec_capacity text.new }
{
    put(text, begin);
    put(text, end.as_bytes());
    put(text, b"\n");
}

/// Adds bytes for which there is room.
fn put(text: &mut Vec<u8>, bytes: &[u8])
    requires { vec_len text.old + length bytes.now ≤ vec_capacity text.old }
    ensures items { text.new.items ≡ text.old.items ++ bytes.now }
    ensures len { vec_len text.new ≡ vec_len text.old + length bytes.now }
    ensures capacity { vec_capacity text.old ≤ vec_capacity text.new }
{
    match text.extend_from_slice(bytes) {
        Ok(()) => {}
        Err(_) => {}
    }
}
