//! Copies of types with other variables in place of those that stand for any type.
use crate::equations::Equations;
use crate::fixed::is_fixed;
use crate::limits::TYPE_LIMIT;
use hr_base::Text;
use hr_type::{Mono, push_parts, rebuilt};
use indexmap::{IndexMap, IndexSet};
use std::alloc::{AllocError, Global};

/// A copy, the number of its new variables, and its size.
#[derive(Drop)]
pub struct FreshCopy {
    pub ty: Mono,
    pub count: u32,
    pub size: u64,
}

/// The new numbers of variables and of fixed variables, from 0 in the order in which they stand in the type.
#[derive(Drop)]
struct Numbers {
    variables: IndexMap<u32, u32>,
    fixed: IndexMap<Text, u32>,
    count: u32,
}

/// Which variables stand for any type.
#[derive(Clone, Copy)]
pub enum Which<'a> {
    All,
    These(&'a IndexSet<u32>),
}

impl Which<'_> {
    fn has(self, variable: u32) -> bool {
        match self {
            Which::All => true,
            Which::These(set) => set.contains(&variable),
        }
    }
}

/// A copy of a type, all that is known of its variables put in. New variables, numbered from `first`, stand in place of
/// those that stand for any type and of fixed ones.
pub fn copied(
    alloc: Global,
    equations: &Equations,
    any: Which,
    ty: &Mono,
    first: u32,
) -> Result<FreshCopy, AllocError> {
    let nodes = inside(alloc, equations, ty)?;
    let numbers = numbers_of(alloc, nodes.as_slice(), any)?;
    let fresh = variables_from(alloc, first, numbers.count)?;
    let size = nodes.len() as u64;
    let nodes = renamed(alloc, nodes.as_slice(), &numbers, fresh.as_slice())?;
    let mut types = rebuilt(alloc, nodes)?;
    match types.pop() {
        Some(ty) => Ok(FreshCopy {
            ty,
            count: numbers.count,
            size,
        }),
        None => Err(AllocError),
    }
}

/// Variables in turn, from a first one.
pub fn variables_from(alloc: Global, first: u32, count: u32) -> Result<Vec<Mono>, AllocError> {
    let mut variables = Vec::new(alloc);
    for number in 0..count {
        match first.checked_add(number) {
            Some(variable) => variables.push(Mono::Var(variable))?,
            None => return Err(AllocError),
        }
    }
    Ok(variables)
}

/// What a type is made of, all that is known of its variables put in, itself first: read from the end, each stands
/// behind its parts.
fn inside<'a>(
    alloc: Global,
    equations: &'a Equations,
    ty: &'a Mono,
) -> Result<Vec<&'a Mono>, AllocError> {
    let mut found = Vec::new(alloc);
    let mut left = Vec::new(alloc);
    left.push(ty)?;
    for _ in 0..u64::MAX {
        let Some(next) = left.pop() else {
            return Ok(found);
        };
        if let Some(its) = type_behind(equations, next) {
            left.push(its)?;
            continue;
        }
        if found.len() as u64 >= TYPE_LIMIT {
            return Err(AllocError);
        }
        found.push(next)?;
        push_parts(next, &mut left)?;
    }
    Err(AllocError)
}

/// The type of a variable that has one.
pub fn type_behind<'a>(equations: &'a Equations, ty: &Mono) -> Option<&'a Mono> {
    match ty {
        Mono::Var(variable) => equations.look_up(*variable),
        _ => None,
    }
}

fn numbers_of(alloc: Global, nodes: &[&Mono], any: Which) -> Result<Numbers, AllocError> {
    let mut numbers = Numbers {
        variables: IndexMap::new(alloc),
        fixed: IndexMap::new(alloc),
        count: 0,
    };
    for node in nodes.iter().rev() {
        match *node {
            Mono::Var(variable) => {
                if any.has(*variable) {
                    put_variable(&mut numbers, *variable)?;
                }
            }
            Mono::Con(entity, _) => {
                if is_fixed(entity) {
                    put_fixed(&mut numbers, &entity.text)?;
                }
            }
            Mono::Fun(_, _) => {}
        }
    }
    Ok(numbers)
}

fn put_variable(numbers: &mut Numbers, variable: u32) -> Result<(), AllocError> {
    if numbers.variables.get(&variable).is_none() {
        numbers.variables.insert(variable, numbers.count)?;
        numbers.count = next_number(numbers.count)?;
    }
    Ok(())
}

fn put_fixed(numbers: &mut Numbers, text: &Text) -> Result<(), AllocError> {
    if numbers.fixed.get(text).is_none() {
        numbers.fixed.insert(text.clone()?, numbers.count)?;
        numbers.count = next_number(numbers.count)?;
    }
    Ok(())
}

/// The number behind one, which is want of memory past the greatest.
pub fn next_number(number: u32) -> Result<u32, AllocError> {
    match number.checked_add(1) {
        Some(next) => Ok(next),
        None => Err(AllocError),
    }
}

fn renamed<'a>(
    alloc: Global,
    nodes: &[&'a Mono],
    numbers: &Numbers,
    fresh: &'a [Mono],
) -> Result<Vec<&'a Mono>, AllocError> {
    let mut named = Vec::new(alloc);
    for node in nodes {
        named.push(renamed_node(*node, numbers, fresh))?;
    }
    Ok(named)
}

fn renamed_node<'a>(node: &'a Mono, numbers: &Numbers, fresh: &'a [Mono]) -> &'a Mono {
    let number = match node {
        Mono::Var(variable) => numbers.variables.get(variable).copied(),
        Mono::Con(entity, _) => fixed_number(entity, numbers),
        Mono::Fun(_, _) => None,
    };
    match number {
        Some(number) => fresh.get(number as usize).unwrap_or(node),
        None => node,
    }
}

fn fixed_number(entity: &hr_base::Entity, numbers: &Numbers) -> Option<u32> {
    if !is_fixed(entity) {
        return None;
    }
    numbers.fixed.get(&entity.text).copied()
}
