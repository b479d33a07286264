ghost use Rattle.std.specs.Prelude.{◌≡◌, IfOk, nat_eq, codes};
ghost use Rattle.std.specs.Cmp.Lexicographic.{pointwise};
ghost use Rattle.hr_type.specs.Spelling as spec;

use crate::Mono;
use crate::parts::push_parts;
use crate::spell::{Brackets, brackets_of, is_prelude, is_type_name};
use hr_base::Entity;
use std::alloc::{AllocError, Global};

/// Whether in a type lists, tuples and () have their numbers of arguments, and `->` stands as a
/// function type alone.
pub fn has_arities(alloc: Global, ty: &Mono) -> Result<bool, AllocError>
    ensures { IfOk result (λ yes. yes ≡ spec.has_arities ty.now) }
{
    let mut left = Vec::new(alloc);
    left.push(ty)?;
    while let Some(next) = left.pop() {
        if !has_arity(next) {
            return Ok(false);
        }
        push_parts(next, &mut left)?;
    }
    Ok(true)
}

fn has_arity(ty: &Mono) -> bool
    ensures { result ≡ spec.has_arity ty.now }
{
    match ty {
        Mono::Var(_) => true,
        Mono::Con(entity, arguments) => fits_arity(entity, arguments.len()),
        Mono::Fun(_, _) => true,
    }
}

fn fits_arity(entity: &Entity, count: usize) -> bool
    ensures { result ≡ spec.fits_arity entity.now count (spec.brackets_of entity.now) }
{
    match brackets_of(entity) {
        Some(brackets) => count == arity_by(entity.text.len(), brackets),
        None => !is_arrow(entity),
    }
}

fn arity_by(size: usize, brackets: Brackets) -> usize
    ensures { result ≡ spec.arity_by size brackets }
{
    match brackets {
        Brackets::Square => 1,
        Brackets::Round => { if size == 2 { 0 } else { size.saturating_sub(1) } }
    }
}

fn is_arrow(entity: &Entity) -> bool
    ensures { result ≡ spec.is_arrow entity.now }
{
    is_type_name(entity.space)
        && is_prelude(entity.module.as_slice())
        && is_arrow_text(entity.text.as_slice())
}

fn is_arrow_text(text: &[u8]) -> bool
    ensures { result ≡ pointwise nat_eq text.now (codes "->") }
{
    text == b"->".as_slice()
}
