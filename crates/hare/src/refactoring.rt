ghost use Rattle.std.specs.Prelude.{◌≡◌, length, map};
ghost use Rattle.std.specs.String.{string_bytes};
ghost use Rattle.hr_check.specs.Projects.{modules_of, texts_of};
ghost use Rattle.hr_files.specs.Read.{AreReady};
ghost use Rattle.hr_tree_items.specs.Texts.{AreTextsOf};
ghost use Rattle.hare.specs.Ends.{Ends, status_of};
ghost use Rattle.hare.specs.Outsides.{outside};
ghost use Rattle.hare.specs.Shown.{shown};
ghost use Rattle.hare.specs.Steps.{RunsAny, RunsFew, RunsOn, RunsOut, RunsScript, RunsStopped, RunsUnread, RunsUnscripted};

use crate::asked::{Asked, borrowed};
use crate::replacing::replace;
use crate::report;
use crate::script::{Unscripted, read_script};
use crate::status::Status;
use crate::steps::Refactorings;
use crate::telling::tell;
use hr_base::Text;
use hr_check::{Project, check};
use hr_files::{Unread, changes, read_files};
use hr_script::{Command, ScriptError};
use hr_session::Session;
use hr_shelf::{Shelf, Sink};
use hr_words::request_of;
use std::alloc::{AllocError, Global};

/// The files of a project, at most.
const FILES_LIMIT: usize = 200;

/// Does what the words say: reads the script and the files, carries out the script's commands, replaces the files that
/// change and writes the report. The status says how far that came.
pub fn refactor<S: Shelf, K: Sink>(
    alloc: Global,
    words: &[String],
    shelf: &mut S,
    out: &mut K,
) -> Status
    ensures only { Ends (map string_bytes words.now) (outside (S.store shelf.old) (K.output out.old)) (outside (S.store shelf.new) (K.output out.new)) result }
{
    run(alloc, words, shelf, out).unwrap_or(Status::Memory)
}

/// The same; want of memory is an error.
fn run<S: Shelf, K: Sink>(
    alloc: Global,
    words: &[String],
    shelf: &mut S,
    out: &mut K,
) -> Result<Status, AllocError>
    ensures { Ends (map string_bytes words.now) (outside (S.store shelf.old) (K.output out.old)) (outside (S.store shelf.new) (K.output out.new)) (status_of result) }
{
    match request_of(alloc, words)? {
        Some(request) => run_asked(alloc, borrowed(&request), shelf, out),
        None => {
            let report = report::bad_words(alloc)?;
            Ok(tell(out, report.as_slice(), Status::BadWords))
        }
    }
}

/// Runs the script, if its files are not too many.
fn run_asked<S: Shelf, K: Sink>(
    alloc: Global,
    asked: Asked<'_>,
    shelf: &mut S,
    out: &mut K,
) -> Result<Status, AllocError>
    ensures { RunsAny (shown asked.entry) (S.store shelf.old) (K.output out.old) (S.store shelf.new) (K.output out.new) (status_of result) }
{
    if asked.files.len() > FILES_LIMIT {
        let report = report::over_limit(alloc, "modules")?;
        Ok(tell(out, report.as_slice(), Status::OverLimit))
    } else {
        run_script(alloc, asked, shelf, out)
    }
}

/// Reads the script, and goes on with its commands.
fn run_script<S: Shelf, K: Sink>(
    alloc: Global,
    asked: Asked<'_>,
    shelf: &mut S,
    out: &mut K,
) -> Result<Status, AllocError>
    ensures { RunsFew (shown asked.entry) (S.store shelf.old) (K.output out.old) (S.store shelf.new) (K.output out.new) (status_of result) }
{
    match read_script(alloc, shelf, asked.script) {
        Ok(commands) => run_commands(alloc, asked, commands.as_slice(), shelf, out),
        Err(unscripted) => tell_unscripted(alloc, asked, unscripted, out),
    }
}

/// Reports that there is no script.
fn tell_unscripted<K: Sink>(
    alloc: Global,
    asked: Asked<'_>,
    unscripted: Unscripted,
    out: &mut K,
) -> Result<Status, AllocError>
    ensures { RunsUnscripted (shown asked.entry) unscripted (K.output out.old) (K.output out.new) (status_of result) }
{
    match unscripted {
        Unscripted::Unread(unread) => tell_no_script(alloc, asked, unread, out),
        Unscripted::Bad(error) => tell_bad(alloc, asked, error, out),
    }
}

/// Reports that the script was not read.
fn tell_no_script<K: Sink>(
    alloc: Global,
    asked: Asked<'_>,
    unread: Unread,
    out: &mut K,
) -> Result<Status, AllocError>
    ensures { RunsUnscripted (shown asked.entry) (Unscripted.Unread unread) (K.output out.old) (K.output out.new) (status_of result) }
{
    match unread {
        Unread::Missing(_) => {
            let report = report::read_fault(alloc, asked.script)?;
            Ok(tell(out, report.as_slice(), Status::ReadFault))
        }
        Unread::TooLong(_) => {
            let report = report::over_limit(alloc, "script")?;
            Ok(tell(out, report.as_slice(), Status::OverLimit))
        }
        Unread::TooLongTogether => Ok(Status::Memory),
        Unread::Memory => Ok(Status::Memory),
    }
}

/// Reports that the bytes of the script are none.
fn tell_bad<K: Sink>(
    alloc: Global,
    asked: Asked<'_>,
    error: ScriptError,
    out: &mut K,
) -> Result<Status, AllocError>
    ensures { RunsUnscripted (shown asked.entry) (Unscripted.Bad error) (K.output out.old) (K.output out.new) (status_of result) }
{
    match error {
        ScriptError::BadLine { number } => {
            let report = report::bad_script(alloc, number)?;
            Ok(tell(out, report.as_slice(), Status::BadScript))
        }
        ScriptError::TooManySteps => {
            let report = report::over_limit(alloc, "steps")?;
            Ok(tell(out, report.as_slice(), Status::OverLimit))
        }
        ScriptError::Memory(_) => Ok(Status::Memory),
    }
}

/// Reads the files, and goes on with their texts.
fn run_commands<S: Shelf, K: Sink>(
    alloc: Global,
    asked: Asked<'_>,
    commands: &[Command],
    shelf: &mut S,
    out: &mut K,
) -> Result<Status, AllocError>
    ensures { RunsScript (shown asked.entry) commands.now (S.store shelf.old) (K.output out.old) (S.store shelf.new) (K.output out.new) (status_of result) }
{
    match read_files(alloc, shelf, asked.files) {
        Ok(texts) => run_texts(alloc, asked, commands, texts.as_slice(), shelf, out),
        Err(unread) => tell_unread(alloc, asked, commands, unread, out),
    }
}

/// Reports that the files were not read.
fn tell_unread<K: Sink>(
    alloc: Global,
    asked: Asked<'_>,
    commands: &[Command],
    unread: Unread,
    out: &mut K,
) -> Result<Status, AllocError>
    ensures { RunsUnread (shown asked.entry) commands.now unread (K.output out.old) (K.output out.new) (status_of result) }
{
    match unread {
        Unread::Missing(file) => {
            let report = report::read_fault(alloc, report::name_at(asked.files, file))?;
            Ok(tell(out, report.as_slice(), Status::ReadFault))
        }
        Unread::TooLong(file) => {
            let report = report::over_limit(alloc, report::name_at(asked.files, file))?;
            Ok(tell(out, report.as_slice(), Status::OverLimit))
        }
        Unread::TooLongTogether => {
            let report = report::over_limit(alloc, "project")?;
            Ok(tell(out, report.as_slice(), Status::OverLimit))
        }
        Unread::Memory => Ok(Status::Memory),
    }
}

/// Checks the project of the texts, whose files are ready to be replaced, and goes on with it.
fn run_texts<S: Shelf, K: Sink>(
    alloc: Global,
    asked: Asked<'_>,
    commands: &[Command],
    texts: &[Text],
    shelf: &mut S,
    out: &mut K,
) -> Result<Status, AllocError>
    requires ready { AreReady (S.store shelf.old).ready (map string_bytes asked.files.now) }
    requires count { length texts.now ≡ length (map string_bytes asked.files.now) }
    ensures { RunsOn (shown asked.entry) commands.now texts.now (S.store shelf.old) (K.output out.old) (S.store shelf.new) (K.output out.new) (status_of result) }
{
    match check(alloc, texts) {
        Ok(project) => run_project(alloc, asked, commands, texts, project, shelf, out),
        Err(error) => {
            let report = report::not_accepted(alloc, asked.files, &error)?;
            Ok(tell(out, report.as_slice(), Status::NotAccepted))
        }
    }
}

/// Carries out the commands in memory, and goes on with the texts of the last project.
fn run_project<S: Shelf, K: Sink>(
    alloc: Global,
    asked: Asked<'_>,
    commands: &[Command],
    texts: &[Text],
    project: Project,
    shelf: &mut S,
    out: &mut K,
) -> Result<Status, AllocError>
    requires ready { AreReady (S.store shelf.old).ready (map string_bytes asked.files.now) }
    requires count { length texts.now ≡ length (map string_bytes asked.files.now) }
    requires texts { texts_of project ≡ texts.now }
    requires read { AreTextsOf (texts_of project) (modules_of project) }
    ensures { RunsOn (shown asked.entry) commands.now texts.now (S.store shelf.old) (K.output out.old) (S.store shelf.new) (K.output out.new) (status_of result) }
{
    let mut session = Session::new(alloc, project)?;
    let ran = session.run_script(alloc, &Refactorings, commands, asked.keep_going)?;
    let told = report::steps(alloc, commands, ran.lines.as_slice())?;
    if ran.refused {
        tell_stopped(told, out)
    } else {
        let news = session.project().texts();
        end_run(alloc, asked, told, texts, news, shelf, out)
    }
}

/// Reports that a step was refused, at which the run ended.
fn tell_stopped<K: Sink>(told: Vec<u8>, out: &mut K) -> Result<Status, AllocError>
    ensures { RunsStopped told.items (K.output out.old) (K.output out.new) (status_of result) }
{
    let report = report::nothing_changed(told)?;
    Ok(tell(out, report.as_slice(), Status::StepRefused))
}

/// Replaces the files that change and reports; in a dry run it reports alone.
fn end_run<S: Shelf, K: Sink>(
    alloc: Global,
    asked: Asked<'_>,
    told: Vec<u8>,
    olds: &[Text],
    news: &[Text],
    shelf: &mut S,
    out: &mut K,
) -> Result<Status, AllocError>
    requires ready { AreReady (S.store shelf.old).ready (map string_bytes asked.files.now) }
    requires count { length olds.now ≡ length (map string_bytes asked.files.now) }
    ensures { RunsOut (shown asked.entry) olds.now news.now told.items (S.store shelf.old) (K.output out.old) (S.store shelf.new) (K.output out.new) (status_of result) }
{
    if asked.dry_run {
        let changes = changes(alloc, olds, news)?;
        let report = report::changed(alloc, told, asked.files, changes.as_slice())?;
        Ok(tell(out, report.as_slice(), Status::Done))
    } else {
        replace(alloc, asked, told, olds, news, shelf, out)
    }
}
