ghost use Rattle.std.specs.Prelude.{◌≡◌, ◌++◌, [], IfOk, OnOk, Some, map, slice_index_or};
ghost use Rattle.std.specs.String.{string_bytes};
ghost use Rattle.hr_files.specs.Replaced.{name_of};
ghost use Rattle.hare.specs.Report as spec;

use hr_check::LoadError;
use hr_files::Change;
use hr_report::{project_refusal, step_refusal};
use hr_script::Command;
use hr_session::{Line, Report};
use hr_why::Why;
use std::alloc::{AllocError, Global};

/// Words that are not good.
pub fn bad_words(alloc: Global) -> Result<Vec<u8>, AllocError>
    ensures { IfOk result (λ text. text.items ≡ spec.bad_words) }
{
    Vec::from_slice(alloc, b"words: refused\n")
}

/// A script whose line of this number is not of the language.
pub fn bad_script(alloc: Global, number: u32) -> Result<Vec<u8>, AllocError>
    ensures { IfOk result (λ text. text.items ≡ spec.bad_script number) }
{
    let mut text = Vec::from_slice(alloc, b"script: bad line ")?;
    let number = format!(in alloc; "{number}")?;
    add_line(&mut text, number.as_str())?;
    Ok(text)
}

/// Files that are no project, with the number of the cause and its fields.
pub fn not_accepted(
    alloc: Global,
    files: &[String],
    error: &LoadError,
) -> Result<Vec<u8>, AllocError>
    ensures { IfOk result (λ text. Some text.items ≡ spec.not_accepted (map string_bytes files.now) error.now) }
{
    let mut text = Vec::from_slice(alloc, b"not accepted: ")?;
    let cause = project_refusal(alloc, files, error)?;
    text.extend_from_slice(cause.as_slice())?;
    text.push(b'\n')?;
    Ok(text)
}

/// A file or a script that was not read.
pub fn read_fault(alloc: Global, file: &str) -> Result<Vec<u8>, AllocError>
    ensures { IfOk result (λ text. text.items ≡ spec.read_fault file.now) }
{
    let mut text = Vec::from_slice(alloc, b"read fault: ")?;
    add_line(&mut text, file)?;
    Ok(text)
}

/// A file, `modules`, `script`, `steps` or `project` that passes its limit.
pub fn over_limit(alloc: Global, what: &str) -> Result<Vec<u8>, AllocError>
    ensures { IfOk result (λ text. text.items ≡ spec.over_limit what.now) }
{
    let mut text = Vec::from_slice(alloc, b"over limit: ")?;
    add_line(&mut text, what)?;
    Ok(text)
}

fn add_line(text: &mut Vec<u8>, line: &str) -> Result<(), AllocError>
    ensures { OnOk result (text.new.items ≡ text.old.items ++ spec.line line.now) }
{
    text.extend_from_slice(line.as_bytes())?;
    text.push(b'\n')?;
    Ok(())
}

/// A line for each command that ran, with its number from 1.
pub fn steps(
    alloc: Global,
    commands: &[Command],
    lines: &[Line<Why>],
) -> Result<Vec<u8>, AllocError>
    ensures { IfOk result (λ text. text.items ≡ spec.step_lines 1 commands.now lines.now) }
{
    let mut text = Vec::new(alloc);
    let mut left = lines;
    for (index, command) in commands.iter().enumerate() {
        let [line, others @ ..] = left else {
            return Ok(text);
        };
        add_step(alloc, &mut text, index + 1, command, line)?;
        left = others;
    }
    Ok(text)
}

/// The line of a command with its number.
fn add_step(
    alloc: Global,
    text: &mut Vec<u8>,
    number: usize,
    command: &Command,
    line: &Line<Why>,
) -> Result<(), AllocError>
    ensures { OnOk result (text.new.items ≡ text.old.items ++ spec.step_line number command.now line.now) }
{
    let number = format!(in alloc; "{number}")?;
    text.extend_from_slice(number.as_bytes())?;
    text.push(b' ')?;
    text.extend_from_slice(command.verb().word().as_bytes())?;
    text.extend_from_slice(b": ")?;
    add_end(alloc, text, line)?;
    text.push(b'\n')?;
    Ok(())
}

/// What became of a command.
fn add_end(alloc: Global, text: &mut Vec<u8>, line: &Line<Why>) -> Result<(), AllocError>
    ensures { OnOk result (text.new.items ≡ text.old.items ++ spec.end_of line.now) }
{
    match line {
        Line::Good(report) => Ok(text.extend_from_slice(end_of(*report))?),
        Line::Refused(why) => {
            let cause = step_refusal(alloc, why)?;
            text.extend_from_slice(b"refused ")?;
            text.extend_from_slice(cause.as_slice())?;
            Ok(())
        }
    }
}

/// What became of a command that was not refused.
fn end_of(report: Report) -> &'static [u8]
    ensures { result.now ≡ spec.end_of_good report }
{
    match report {
        Report::Done => b"done",
        Report::Undone(true) => b"done",
        Report::Undone(false) => b"nothing",
    }
}

/// Behind the lines of the commands: no file changed.
pub fn nothing_changed(told: Vec<u8>) -> Result<Vec<u8>, AllocError>
    ensures { IfOk result (λ text. text.items ≡ told.items ++ spec.nothing_changed) }
{
    let mut text = told;
    text.extend_from_slice(b"changed 0\n")?;
    Ok(text)
}

/// Behind the lines of the commands: the files that changed.
pub fn changed(
    alloc: Global,
    told: Vec<u8>,
    files: &[String],
    changes: &[Change],
) -> Result<Vec<u8>, AllocError>
    ensures { IfOk result (λ text. text.items ≡ told.items ++ spec.changed (map (λ change. name_of (map string_bytes files.now) change) changes.now)) }
{
    let mut text = told;
    let count = format!(in alloc; "changed {}", changes.len())?;
    add_line(&mut text, count.as_str())?;
    add_names(&mut text, files, changes)?;
    Ok(text)
}

/// A line for each file that changed.
fn add_names(text: &mut Vec<u8>, files: &[String], changes: &[Change]) -> Result<(), AllocError>
    ensures { OnOk result (text.new.items ≡ text.old.items ++ spec.lines (map (λ change. name_of (map string_bytes files.now) change) changes.now)) }
{
    for change in changes {
        add_line(text, name_at(files, change.file))?;
    }
    Ok(())
}

/// The name of the file of that number.
pub fn name_at(files: &[String], file: usize) -> &str
    ensures { result.now ≡ slice_index_or (map string_bytes files.now) file [] }
{
    match files.get(file) {
        Some(name) => name.as_str(),
        None => "",
    }
}
