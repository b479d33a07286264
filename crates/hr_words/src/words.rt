ghost use Rattle.std.specs.Prelude.{◌≡◌, ◌≢◌, IfOk, IfSome, MatchOption, None, Some, codes, false, map};
ghost use Rattle.std.specs.String.{string_bytes};
ghost use Rattle.clap.specs.Matches.{found_of};
ghost use Rattle.clap.specs.Simple.{app_of};
ghost use Rattle.clap.specs.Values.{kind_of};
ghost use Rattle.clap.specs.Walk.{rows_of, rule_of};
ghost use Rattle.clap.specs.declared.error.kind.ErrorKind.TheVariants.{OutOfMemory};
ghost use Rattle.hr_words.specs.Words as spec;
ghost use Rattle.hr_words.specs.Words.{shown};

use clap::error::ErrorKind;
use clap::{Arg, ArgAction, ArgMatches, Command, Error};
use std::alloc::{AllocError, Global};

/// What the words ask for: the script of this name is to be run on the files of these names.
#[derive(Debug, Drop)]
pub struct Request {
    pub script: String,
    pub files: Vec<String>,
    /// No file is to be replaced.
    pub dry_run: bool,
    /// A step that is refused doesn't end the run.
    pub keep_going: bool,
}

/// The request that the words are, if they are good: `[--dry-run] [--keep-going] SCRIPT FILE ..`.
#[tactic(auto, unfolding(crate::specs::Words::request_of))]
pub fn request_of(alloc: Global, words: &[String]) -> Result<Option<Request>, AllocError>
    ensures { IfOk result (λ found. MatchOption found (spec.request_of (map string_bytes words.now) ≡ None) (λ request. spec.request_of (map string_bytes words.now) ≡ Some (shown request))) }
{
    match command(alloc)?.try_get_matches_from(words) {
        Ok(matches) => request_in(alloc, &matches),
        Err(error) => no_request(&error),
    }
}

/// Words that the command line refuses are no request; want of memory says nothing of them.
fn no_request(error: &Error) -> Result<Option<Request>, AllocError>
    ensures none { IfOk result (λ found. found ≡ None) }
    ensures refused { IfOk result (λ found. kind_of error.now ≢ OutOfMemory) }
{
    match error.kind() {
        ErrorKind::OutOfMemory => Err(AllocError),
        _ => Ok(None),
    }
}

/// The command line, without flags for help and version.
fn command<'a>(alloc: Global) -> Result<Command<'a>, AllocError>
    ensures { IfOk result (λ command. app_of command ≡ spec.hare_app) }
{
    let plain = Command::new(alloc, "hare")
        .no_binary_name(true)
        .disable_help_flag(true)
        .disable_version_flag(true);
    let flagged = plain.arg(flag(alloc, "dry-run"))?;
    let flagged = flagged.arg(flag(alloc, "keep-going"))?;
    let scripted = flagged.arg(script(alloc))?;
    let whole = scripted.arg(file(alloc))?;
    Ok(whole)
}

fn flag<'a>(alloc: Global, name: &'a str) -> Arg<'a>
    ensures rule { rule_of result ≡ spec.flag_rule name.entry.now }
    ensures local { result.global ≡ false }
{
    Arg::new(alloc, name).long(name).action(ArgAction::SetTrue)
}

fn script<'a>(alloc: Global) -> Arg<'a>
    ensures rule { rule_of result ≡ spec.script_rule }
    ensures local { result.global ≡ false }
{
    Arg::new(alloc, "SCRIPT")
}

fn file<'a>(alloc: Global) -> Arg<'a>
    ensures rule { rule_of result ≡ spec.file_rule }
    ensures local { result.global ≡ false }
{
    Arg::new(alloc, "FILE")
        .action(ArgAction::Append)
        .num_args(0..)
}

/// The request of words that the command line takes: a script and a file at least are there.
fn request_in(alloc: Global, matches: &ArgMatches<'_>) -> Result<Option<Request>, AllocError>
    ensures { IfOk result (λ found. MatchOption found (spec.request_in (rows_of (found_of matches.now)) ≡ None) (λ request. spec.request_in (rows_of (found_of matches.now)) ≡ Some (shown request))) }
{
    let scripts = values_of(alloc, matches, "SCRIPT")?;
    let files = values_of(alloc, matches, "FILE")?;
    let dry_run = is_on(values_of(alloc, matches, "dry-run")?.as_slice());
    let keep_going = is_on(values_of(alloc, matches, "keep-going")?.as_slice());
    request_with(scripts.as_slice(), files, dry_run, keep_going)
}

/// The request for these scripts and files, if there are one script and some files.
fn request_with(
    scripts: &[String],
    files: Vec<String>,
    dry_run: bool,
    keep_going: bool,
) -> Result<Option<Request>, AllocError>
    ensures { IfOk result (λ found. MatchOption found (spec.request_with (map string_bytes scripts.now) (map string_bytes files.items) dry_run keep_going ≡ None) (λ request. spec.request_with (map string_bytes scripts.now) (map string_bytes files.items) dry_run keep_going ≡ Some (shown request))) }
{
    let [script] = scripts else {
        return Ok(None);
    };
    if files.is_empty() {
        return Ok(None);
    }
    Ok(Some(Request {
        script: script.clone()?,
        files,
        dry_run,
        keep_going,
    }))
}

/// The values of an argument.
fn values_of(alloc: Global, matches: &ArgMatches<'_>, id: &str) -> Result<Vec<String>, AllocError>
    ensures { IfOk result (λ values. map string_bytes values.items ≡ spec.values_in (rows_of (found_of matches.now)) id.now) }
{
    match matches.get_strs(id) {
        Some(values) => copies(alloc, values),
        None => Ok(Vec::new(alloc)),
    }
}

/// Whether a flag with these values is set.
fn is_on(values: &[String]) -> bool
    ensures { result ≡ spec.is_on (map string_bytes values.now) }
{
    match values {
        [value] => value.as_str() == "true",
        _ => false,
    }
}

fn copies(alloc: Global, names: &[&str]) -> Result<Vec<String>, AllocError>
    ensures { IfOk result (λ copies. map string_bytes copies.items ≡ map (λ name. name.now) names.now) }
{
    let mut copies = Vec::with_capacity(alloc, names.len())?;
    for name in names {
        copies.push(String::from_str(alloc, name)?)?;
    }
    Ok(copies)
}
