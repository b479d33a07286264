ghost use Rattle.std.specs.Prelude.{◌≡◌, ◌++◌, ◌∷◌, ◌-◌, [], IfOk, OnOk, drop, length, map, reverse, take};
ghost use Rattle.hr_type.specs.Heads.{built, head_of, last_function, placed, posts};

use crate::Mono;
use crate::mono::entity_copied;
use crate::parts::push_parts;
use hr_items::{Boxed, Items};
use std::alloc::{AllocError, Global};

impl Mono {
    /// A type equal to this one.
    pub fn copied(&self, alloc: Global) -> Result<Mono, AllocError>
        ensures { IfOk result (λ copy. copy ≡ self.now) }
    {
        let nodes = inside(alloc, self)?;
        let mut types = rebuilt(alloc, nodes)?;
        match types.pop() {
            Some(ty) => Ok(ty),
            None => unreachable!(),
        }
    }
}

/// What a type is made of, itself first: read from the end, each stands behind its parts.
fn inside<'a>(alloc: Global, ty: &'a Mono) -> Result<Vec<&'a Mono>, AllocError>
    ensures { IfOk result (λ found. reverse (map (λ t. head_of t.now) found.items) ≡ posts ty.now) }
{
    let mut found = Vec::new(alloc);
    let mut left = Vec::new(alloc);
    left.push(ty)?;
    while let Some(next) = left.pop() {
        found.push(next)?;
        push_parts(next, &mut left)?;
    }
    Ok(found)
}

/// The types that these heads make, read from the end.
pub fn rebuilt(alloc: Global, nodes: Vec<&Mono>) -> Result<Vec<Mono>, AllocError>
    ensures { IfOk result (λ types. types.items ≡ built (reverse (map (λ t. head_of t.now) nodes.entry.items)) []) }
{
    let mut nodes = nodes;
    let mut types = Vec::new(alloc);
    while let Some(node) = nodes.pop() {
        place(alloc, node, &mut types)?;
    }
    Ok(types)
}

/// Puts a type with the head of `node` in the place of its parts, which stand last.
fn place(alloc: Global, node: &Mono, types: &mut Vec<Mono>) -> Result<(), AllocError>
    ensures { OnOk result (types.new.items ≡ placed (head_of node.now) types.old.items) }
{
    let ty = made(alloc, node, types)?;
    types.push(ty)?;
    Ok(())
}

/// The type with the head of `node` whose parts stand last, and are taken from there.
fn made(alloc: Global, node: &Mono, types: &mut Vec<Mono>) -> Result<Mono, AllocError>
    ensures { IfOk result (λ ty. types.new.items ++ ty ∷ [] ≡ placed (head_of node.now) types.old.items) }
{
    match node {
        Mono::Var(variable) => Ok(Mono::Var(*variable)),
        Mono::Con(entity, arguments) => {
            let own = last_types(types, arguments.len())?;
            let copy = entity_copied(entity)?;
            Ok(Mono::Con(copy, Items::from_vec(own)))
        }
        Mono::Fun(_, _) => {
            let own = last_types(types, 2)?;
            function_of(alloc, own)
        }
    }
}

/// Takes so many types from the end, or all where there are fewer.
fn last_types(types: &mut Vec<Mono>, count: usize) -> Result<Vec<Mono>, AllocError>
    ensures taken { IfOk result (λ own. own.items ≡ drop (length types.old.items - count) types.old.items) }
    ensures left { OnOk result (types.new.items ≡ take (length types.old.items - count) types.old.items) }
{
    types.split_off(types.len().saturating_sub(count))
}

/// The function from the last type but one to the last.
fn function_of(alloc: Global, types: Vec<Mono>) -> Result<Mono, AllocError>
    ensures { IfOk result (λ ty. ty ≡ last_function (reverse types.items)) }
{
    let mut types = types;
    let Some(to) = types.pop() else {
        return Ok(Mono::Var(0));
    };
    let Some(from) = types.pop() else {
        return Ok(Mono::Var(0));
    };
    Ok(Mono::Fun(Boxed::new(alloc, from)?, Boxed::new(alloc, to)?))
}

/// Types equal to these, in order.
pub fn copies_of(alloc: Global, types: &[Mono]) -> Result<Items<Mono>, AllocError>
    ensures { IfOk result (λ copies. copies ≡ types.now) }
{
    let mut copies = Items::new(alloc);
    for ty in types {
        copies.push(ty.copied(alloc)?)?;
    }
    Ok(copies)
}
