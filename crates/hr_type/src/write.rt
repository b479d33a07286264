ghost use Rattle.std.specs.Prelude.{◌≡◌, ◌++◌, ◌+◌, ◌*◌, ◌<◌, ◌≤◌, MatchOption, OnOk, IsTrue, false, true, map, slice_get};
ghost use Rattle.hr_type.specs.Spelling as spec;
ghost use Rattle.hr_type.specs.Jobs.{job_bytes, job_load, load, pending};
ghost use Rattle.hr_type.specs.Sizes.{size, total};

use crate::Mono;
use crate::spell::{Brackets, TypeScope, brackets_of, grade, name_for};
use hr_base::{Entity, Name};
use std::alloc::{AllocError, Global};

fn append(out: &mut Vec<u8>, bytes: &[u8]) -> Result<(), AllocError>
    ensures { OnOk result (out.new.items ≡ out.old.items ++ bytes.now) }
{
    out.extend_from_slice(bytes)
}

fn write_variable(scope: &TypeScope, variable: u32, out: &mut Vec<u8>) -> Result<(), AllocError>
    ensures { OnOk result (out.new.items ≡ out.old.items ++ spec.bytes_of (spec.variable_pieces (slice_get scope.now.variables variable))) }
{
    match scope.variables.as_slice().get(variable as usize) {
        Some(text) => append(out, text.as_slice()),
        None => Ok(()),
    }
}

fn write_name(scope: &TypeScope, entity: &Entity, out: &mut Vec<u8>) -> Result<(), AllocError>
    ensures { OnOk result (out.new.items ≡ out.old.items ++ spec.bytes_of (spec.name_pieces (spec.name_for entity.now scope.now.names))) }
{
    match name_for(entity, scope.names.as_slice()) {
        Some(name) => write_dotted(name, out),
        None => Ok(()),
    }
}

fn write_dotted(name: &Name, out: &mut Vec<u8>) -> Result<(), AllocError>
    ensures { OnOk result (out.new.items ≡ out.old.items ++ spec.name_text name.now) }
{
    if let Some(qualifier) = &name.qualifier {
        append(out, qualifier.as_slice())?;
        append(out, b".")?;
    }
    append(out, name.text.as_slice())
}

fn opening(brackets: Brackets) -> &'static [u8]
    ensures { result.now ≡ spec.opening brackets }
{
    match brackets {
        Brackets::Square => b"[",
        Brackets::Round => b"(",
    }
}

fn closing(brackets: Brackets) -> &'static [u8]
    ensures { result.now ≡ spec.closing brackets }
{
    match brackets {
        Brackets::Square => b"]",
        Brackets::Round => b")",
    }
}

/// What is still to be written: a text, and behind it a type, in parentheses where its grade is less
/// than `least`.
#[derive(Drop)]
pub enum Job<'a> {
    Spelled {
        before: &'static [u8],
        least: u8,
        ty: &'a Mono,
    },
    Text(&'static [u8]),
}

/// Writes a type behind what is there.
pub fn write_type(
    alloc: Global,
    scope: &TypeScope,
    ty: &Mono,
    out: &mut Vec<u8>,
) -> Result<(), AllocError>
    ensures { OnOk result (out.new.items ≡ out.old.items ++ spec.bytes_of (spec.written scope.now ty.now).pieces) }
{
    let mut jobs = Vec::new(alloc);
    push_type(scope, b"", 0, ty, &mut jobs)?;
    while let Some(job) = jobs.pop() {
        do_job(scope, job, out, &mut jobs)?;
    }
    Ok(())
}

fn do_job<'a>(
    scope: &TypeScope,
    job: Job<'a>,
    out: &mut Vec<u8>,
    jobs: &mut Vec<Job<'a>>,
) -> Result<(), AllocError>
    ensures text { OnOk result (out.new.items ++ pending scope.now jobs.new.items ≡ out.old.items ++ (job_bytes scope.now job.entry ++ pending scope.now jobs.old.items)) }
    ensures work { OnOk result (load jobs.new.items < load jobs.old.items + job_load job.entry) }
{
    match job {
        Job::Text(text) => append(out, text),
        Job::Spelled { before, least, ty } => {
            append(out, before)?;
            write_within(scope, least, ty, out, jobs)
        }
    }
}

fn push_type<'a>(
    scope: &TypeScope,
    before: &'static [u8],
    least: u8,
    ty: &'a Mono,
    jobs: &mut Vec<Job<'a>>,
) -> Result<(), AllocError>
    ensures text { OnOk result (pending scope.now jobs.new.items ≡ before.now ++ spec.bytes_of (spec.within least (spec.written scope.now ty.now)) ++ pending scope.now jobs.old.items) }
    ensures work { OnOk result (load jobs.new.items ≡ load jobs.old.items + 3 * size ty.now) }
{
    jobs.push(Job::Spelled { before, least, ty })?;
    Ok(())
}

fn push_text<'a>(
    scope: &TypeScope,
    text: &'static [u8],
    jobs: &mut Vec<Job<'a>>,
) -> Result<(), AllocError>
    ensures text { OnOk result (pending scope.now jobs.new.items ≡ text.now ++ pending scope.now jobs.old.items) }
    ensures work { OnOk result (load jobs.new.items ≡ load jobs.old.items + 1) }
{
    jobs.push(Job::Text(text))?;
    Ok(())
}

/// Writes the beginning of a type, up to the first type inside it, and leaves the rest on the stack.
fn write_within<'a>(
    scope: &TypeScope,
    least: u8,
    ty: &'a Mono,
    out: &mut Vec<u8>,
    jobs: &mut Vec<Job<'a>>,
) -> Result<(), AllocError>
    ensures text { OnOk result (out.new.items ++ pending scope.now jobs.new.items ≡ out.old.items ++ (spec.bytes_of (spec.within least (spec.written scope.now ty.now)) ++ pending scope.now jobs.old.items)) }
    ensures work { OnOk result (load jobs.new.items < load jobs.old.items + 3 * size ty.now) }
{
    if grade(ty) < least {
        append(out, b"(")?;
        push_text(scope, b")", jobs)?;
        return write_layer(scope, ty, out, jobs);
    }
    write_layer(scope, ty, out, jobs)
}

/// The same without parentheses.
fn write_layer<'a>(
    scope: &TypeScope,
    ty: &'a Mono,
    out: &mut Vec<u8>,
    jobs: &mut Vec<Job<'a>>,
) -> Result<(), AllocError>
    ensures text { OnOk result (out.new.items ++ pending scope.now jobs.new.items ≡ out.old.items ++ (spec.bytes_of (spec.written scope.now ty.now).pieces ++ pending scope.now jobs.old.items)) }
    ensures work { OnOk result (load jobs.new.items + 2 ≤ load jobs.old.items + 3 * size ty.now) }
{
    match ty {
        Mono::Var(variable) => write_variable(scope, *variable, out),
        Mono::Con(entity, arguments) => match brackets_of(entity) {
            Some(brackets) => {
                append(out, opening(brackets))?;
                push_text(scope, closing(brackets), jobs)?;
                push_listed(scope, arguments.as_slice(), jobs)
            }
            None => {
                write_name(scope, entity, out)?;
                push_arguments(scope, arguments.as_slice(), jobs)
            }
        },
        Mono::Fun(from, to) => {
            push_type(scope, b" -> ", 0, to.get(), jobs)?;
            push_type(scope, b"", 1, from.get(), jobs)
        }
    }
}

fn push_arguments<'a>(
    scope: &TypeScope,
    types: &'a [Mono],
    jobs: &mut Vec<Job<'a>>,
) -> Result<(), AllocError>
    ensures text { OnOk result (pending scope.now jobs.new.items ≡ spec.bytes_of (spec.arguments (map (spec.written scope.now) types.now)) ++ pending scope.now jobs.old.items) }
    ensures work { OnOk result (load jobs.new.items ≡ load jobs.old.items + 3 * total (map size types.now)) }
{
    let mut left = types.len();
    while left > 0 {
        left -= 1;
        push_type(scope, b" ", 2, &types[left], jobs)?;
    }
    Ok(())
}

/// Types with a comma between each two.
fn push_listed<'a>(
    scope: &TypeScope,
    types: &'a [Mono],
    jobs: &mut Vec<Job<'a>>,
) -> Result<(), AllocError>
    ensures text { OnOk result (pending scope.now jobs.new.items ≡ spec.bytes_of (spec.listed (map (spec.written scope.now) types.now)) ++ pending scope.now jobs.old.items) }
    ensures work { OnOk result (load jobs.new.items ≡ load jobs.old.items + 3 * total (map size types.now)) }
{
    let mut left = types.len();
    while left > 1 {
        left -= 1;
        push_type(scope, b", ", 0, &types[left], jobs)?;
    }
    if left == 1 {
        push_type(scope, b"", 0, &types[0], jobs)?;
    }
    Ok(())
}
