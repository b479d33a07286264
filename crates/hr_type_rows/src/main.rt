//! Rows of types: copies, measures, instances, spellings and unifiers.
//!
//!     same ;; TYPE ;; TYPE          whether a copy of the first is the second
//!     measure ;; TYPE               its size and its depth
//!     instance ;; N ;; TYPE ;; TYPE whether the second is an instance of the first, whose variables below N are bound
//!     print ;; TYPE                 its text, or `none`; of a long text the length, the beginning and the end
//!     unify ;; TYPE ;; TYPE ;; ..   each two made equal, one after another: the types of the variables, or the refusal
//!     elements ;; N                 the types of a list's N elements made equal to its own, one after another
//!     doubling ;; N                 two families of variables, each a pair of the one before, made equal
//!     chain ;; N                    each of N variables made equal to a list of the next one, and the first one's type
//!
//! A type is written behind its parts: a number is a variable, `->` takes the two types before it, and `Name/3`
//! the three before it; `[]`, `(,)` and `()` are those of the Prelude.
#![tactic(auto)]

mod family;
mod notation;
mod shown;
mod solved;

use hr_rows::answer_all;
use hr_type::{Mono, Scheme, depth_of_type, has_arities, instance, print_in, size_of_type};
use notation::{number_of, type_of};
use std::alloc::{AllocError, Global};
use std::io;

fn yes_or_no(alloc: Global, yes: bool) -> Result<Option<String>, AllocError> {
    Ok(Some(String::from_str(alloc, if yes { "yes" } else { "no" })?))
}

fn same(alloc: Global, left: &[u8], right: &[u8]) -> Result<Option<String>, AllocError> {
    match (type_of(alloc, left)?, type_of(alloc, right)?) {
        (Some(left), Some(right)) => {
            let yes = left.copied(alloc)?.is_same(alloc, &right)?;
            yes_or_no(alloc, yes)
        }
        _ => Ok(None),
    }
}

fn measured(alloc: Global, text: &[u8]) -> Result<Option<String>, AllocError> {
    let Some(ty) = type_of(alloc, text)? else {
        return Ok(None);
    };
    let (size, depth) = (size_of_type(alloc, &ty)?, depth_of_type(alloc, &ty)?);
    Ok(Some(format!(in alloc; "size {size} depth {depth}")?))
}

fn is_instance(
    alloc: Global,
    bound: &[u8],
    general: &[u8],
    special: &[u8],
) -> Result<Option<String>, AllocError> {
    let Some(bound) = number_of(bound) else {
        return Ok(None);
    };
    match (type_of(alloc, general)?, type_of(alloc, special)?) {
        (Some(body), Some(special)) => {
            let yes = instance(alloc, &Scheme { bound, body }, &special)?;
            yes_or_no(alloc, yes)
        }
        _ => Ok(None),
    }
}

fn printed(alloc: Global, text: &[u8]) -> Result<Option<String>, AllocError> {
    let Some(ty) = type_of(alloc, text)? else {
        return Ok(None);
    };
    if !has_arities(alloc, &ty)? {
        return Ok(None);
    }
    match print_in(alloc, &ty, &notation::scope(alloc)?)? {
        Some(text) => Ok(Some(shown::shortened(alloc, text.as_slice())?)),
        None => Ok(Some(String::from_str(alloc, "none")?)),
    }
}

/// The answer of a case, or none where it isn't one.
fn said(alloc: Global, fields: &[Vec<u8>]) -> Result<Option<String>, AllocError> {
    let [kind, rest @ ..] = fields else {
        return Ok(None);
    };
    if kind.as_slice() == b"unify".as_slice() {
        return solved::answers(alloc, rest);
    }
    match rest {
        [one] => {
            let one = one.as_slice();
            match kind.as_slice() {
                b"measure" => measured(alloc, one),
                b"print" => printed(alloc, one),
                b"elements" => family::elements(alloc, one),
                b"doubling" => family::doubling(alloc, one),
                b"chain" => family::chain(alloc, one),
                _ => Ok(None),
            }
        }
        [one, two] if kind.as_slice() == b"same".as_slice() => {
            same(alloc, one.as_slice(), two.as_slice())
        }
        [one, two, three] if kind.as_slice() == b"instance".as_slice() => {
            is_instance(alloc, one.as_slice(), two.as_slice(), three.as_slice())
        }
        _ => Ok(None),
    }
}

fn answer(alloc: Global, fields: &[Vec<u8>]) -> Result<String, AllocError> {
    match said(alloc, fields)? {
        Some(said) => Ok(said),
        None => String::from_str(alloc, "no case"),
    }
}

fn main(rt: HostRuntime) -> io::Result<()> {
    answer_all(&rt, rt.alloc(), answer)
}
