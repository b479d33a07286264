ghost use Rattle.hr_unify.specs.Unifiers.{IsGood};

use crate::notation::type_of;
use crate::shown::type_text;
use hr_type::Mono;
use hr_unify::{Solver, UnifyError};
use std::alloc::{AllocError, Global};

/// The size above which a type is not written out.
pub const LIMIT: usize = 1_000_000;

/// Each two of the types made equal, one after another: then the variables 0 to 9 that have a type,
/// with their types written out; or the refusal.
pub fn answers(alloc: Global, fields: &[Vec<u8>]) -> Result<Option<String>, AllocError> {
    let mut solver = Solver::new(alloc);
    let mut rest = fields;
    'equations: while let [left, right, later @ ..] = rest {
        let (Some(left), Some(right)) = (
            type_of(alloc, left.as_slice())?,
            type_of(alloc, right.as_slice())?,
        ) else {
            return Ok(None);
        };
        if let Err(error) = solver.unify(alloc, &left, &right) {
            return Ok(Some(refusal(alloc, error)?));
        }
        rest = later;
    }
    if !rest.is_empty() {
        return Ok(None);
    }
    Ok(Some(types_of(alloc, &solver)?))
}

pub fn refusal(alloc: Global, error: UnifyError) -> Result<String, AllocError> {
    match error {
        UnifyError::Mismatch { left, right } => {
            let (left, right) = (type_text(alloc, &left)?, type_text(alloc, &right)?);
            Ok(format!(in alloc; "mismatch of {left} and {right}")?)
        }
        UnifyError::Occurs { var, ty } => {
            let (var, ty) = (type_text(alloc, &Mono::Var(var))?, type_text(alloc, &ty)?);
            Ok(format!(in alloc; "{var} occurs in {ty}")?)
        }
        UnifyError::Memory(error) => Err(error),
    }
}

fn types_of(alloc: Global, solver: &Solver) -> Result<String, AllocError>
    requires { IsGood solver.now.bindings.entries }
{
    let mut said = String::new(alloc);
    for variable in 0..10 {
        if solver.look_up(variable).is_some() {
            let whole = solver.resolved(alloc, LIMIT, &Mono::Var(variable))?;
            let text = type_text(alloc, &whole)?;
            if !said.is_empty() {
                said.push_str(", ")?;
            }
            said.push_str(format!(in alloc; "{variable} = {text}")?.as_str())?;
        }
    }
    if said.is_empty() {
        said.push_str("equal")?;
    }
    Ok(said)
}
