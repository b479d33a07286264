//! A type with types in the places of its variables.
use hr_type::{Mono, push_parts, rebuilt};
use std::alloc::{AllocError, Global};

/// The type with the n-th type in the place of variable n, where there is one. It wants memory where it would have more
/// than `limit` variables, constructors and arrows.
pub fn replaced(alloc: Global, limit: u64, ty: &Mono, by: &[Mono]) -> Result<Mono, AllocError> {
    let nodes = inside(alloc, limit, ty, by)?;
    let mut types = rebuilt(alloc, nodes)?;
    match types.pop() {
        Some(whole) => Ok(whole),
        None => Err(AllocError),
    }
}

/// A part of a type that is still to be looked at: whether it stands in the place of a variable, and the part.
#[derive(Clone, Copy)]
struct Part<'a> {
    is_put: bool,
    ty: &'a Mono,
}

/// What the type is made of then, itself first: read from the end, each stands behind its parts.
fn inside<'a>(
    alloc: Global,
    limit: u64,
    ty: &'a Mono,
    by: &'a [Mono],
) -> Result<Vec<&'a Mono>, AllocError> {
    let mut found = Vec::new(alloc);
    let mut left = Vec::new(alloc);
    left.push(Part { is_put: false, ty })?;
    for count in 0..u64::MAX {
        let Some(part) = left.pop() else {
            return Ok(found);
        };
        if count > limit {
            return Err(AllocError);
        }
        let next = put_in(part, by);
        found.push(next.ty)?;
        push_behind(alloc, next, &mut left)?;
    }
    Err(AllocError)
}

/// The type that stands in the place of a variable, or the part itself.
fn put_in<'a>(part: Part<'a>, by: &'a [Mono]) -> Part<'a> {
    if part.is_put {
        return part;
    }
    let Mono::Var(variable) = part.ty else {
        return part;
    };
    match by.get(*variable as usize) {
        Some(ty) => Part { is_put: true, ty },
        None => part,
    }
}

fn push_behind<'a>(
    alloc: Global,
    part: Part<'a>,
    left: &mut Vec<Part<'a>>,
) -> Result<(), AllocError> {
    let mut parts = Vec::new(alloc);
    push_parts(part.ty, &mut parts)?;
    for ty in parts.as_slice() {
        left.push(Part {
            is_put: part.is_put,
            ty: *ty,
        })?;
    }
    Ok(())
}
