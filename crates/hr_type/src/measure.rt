ghost use Rattle.std.specs.Prelude.{◌≡◌, ◌+◌, ◌-◌, ◌^◌, IfOk, OnOk, map, max, min};
ghost use Rattle.hr_type.specs.Heads.{parts};
ghost use Rattle.hr_type.specs.Sizes.{depth, reach, size, total};
ghost use Rattle.hr_type.specs.Inside.{deepest_of, spread};

use crate::Mono;
use crate::parts::push_parts;
use std::alloc::{AllocError, Global};

/// How many variables, constructors and arrows a type has, up to 2^64 - 1.
pub fn size_of_type(alloc: Global, ty: &Mono) -> Result<u64, AllocError>
    ensures { IfOk result (λ n. n ≡ min (size ty.now) (2 ^ 64 - 1)) }
{
    let mut count: u64 = 0;
    let mut left = Vec::new(alloc);
    left.push(ty)?;
    while let Some(next) = left.pop() {
        count = count.saturating_add(1);
        push_parts(next, &mut left)?;
    }
    Ok(count)
}

/// A type inside another one, with the number of those that it stands in.
#[derive(Drop)]
pub struct Inner<'a> {
    pub ty: &'a Mono,
    pub above: u64,
}

/// How many of the variables, constructors and arrows of a type stand in one another, at most, up to
/// 2^64 - 1.
pub fn depth_of_type(alloc: Global, ty: &Mono) -> Result<u64, AllocError>
    ensures { IfOk result (λ n. n ≡ min (depth ty.now) (2 ^ 64 - 1)) }
{
    let mut deepest: u64 = 0;
    let mut left = Vec::new(alloc);
    left.push(Inner { ty, above: 0 })?;
    while let Some(next) = left.pop() {
        let here = next.above.saturating_add(1);
        deepest = deepest.max(here);
        push_inner(next.ty, here, &mut left)?;
    }
    Ok(deepest)
}

fn push_inner<'a>(ty: &'a Mono, above: u64, stack: &mut Vec<Inner<'a>>) -> Result<(), AllocError>
    ensures deep { OnOk result (deepest_of stack.new.items ≡ max (deepest_of stack.old.items) (reach above (parts ty.now))) }
    ensures wide { OnOk result (spread stack.new.items ≡ spread stack.old.items + total (map size (parts ty.now))) }
{
    match ty {
        Mono::Var(_) => Ok(()),
        Mono::Con(_, arguments) => push_each(arguments.as_slice(), above, stack),
        Mono::Fun(from, to) => {
            push_one(from.get(), above, stack)?;
            push_one(to.get(), above, stack)
        }
    }
}

fn push_each<'a>(
    types: &'a [Mono],
    above: u64,
    stack: &mut Vec<Inner<'a>>,
) -> Result<(), AllocError>
    ensures deep { OnOk result (deepest_of stack.new.items ≡ max (deepest_of stack.old.items) (reach above types.now)) }
    ensures wide { OnOk result (spread stack.new.items ≡ spread stack.old.items + total (map size types.now)) }
{
    for ty in types {
        push_one(ty, above, stack)?;
    }
    Ok(())
}

fn push_one<'a>(ty: &'a Mono, above: u64, stack: &mut Vec<Inner<'a>>) -> Result<(), AllocError>
    ensures deep { OnOk result (deepest_of stack.new.items ≡ max (deepest_of stack.old.items) (above + depth ty.now)) }
    ensures wide { OnOk result (spread stack.new.items ≡ spread stack.old.items + size ty.now) }
{
    stack.push(Inner { ty, above })?;
    Ok(())
}
