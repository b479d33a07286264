ghost use Rattle.std.specs.Prelude.{◌≡◌, ◌↔◌, ◌++◌, ◌∷◌, [], IsTrue, OnOk, map};
ghost use Rattle.hr_type.specs.Heads.{arrow_head, head_of, parts};
ghost use Rattle.hr_type.specs.declared.mono.Mono.TheVariants.{Var};

use crate::Mono;
use crate::mono::is_same_entity;
use std::alloc::AllocError;

/// Puts the types right inside a type on a stack, the last on top.
pub fn push_parts<'a>(ty: &'a Mono, stack: &mut Vec<&'a Mono>) -> Result<(), AllocError>
    ensures { OnOk result (map (λ t. t.now) stack.new.items ≡ map (λ t. t.now) stack.old.items ++ parts ty.now) }
{
    match ty {
        Mono::Var(_) => Ok(()),
        Mono::Con(_, arguments) => push_all(arguments.as_slice(), stack),
        Mono::Fun(from, to) => push_two(from.get(), to.get(), stack),
    }
}

fn push_all<'a>(types: &'a [Mono], stack: &mut Vec<&'a Mono>) -> Result<(), AllocError>
    ensures { OnOk result (map (λ t. t.now) stack.new.items ≡ map (λ t. t.now) stack.old.items ++ types.now) }
{
    for ty in types {
        stack.push(ty)?;
    }
    Ok(())
}

fn push_two<'a>(
    first: &'a Mono,
    second: &'a Mono,
    stack: &mut Vec<&'a Mono>,
) -> Result<(), AllocError>
    ensures { OnOk result (map (λ t. t.now) stack.new.items ≡ map (λ t. t.now) stack.old.items ++ first.now ∷ second.now ∷ []) }
{
    stack.push(first)?;
    stack.push(second)?;
    Ok(())
}

/// Whether two types are variables of one number, of one constructor with equally many arguments, or
/// both functions.
pub fn have_same_head(left: &Mono, right: &Mono) -> bool
    ensures { IsTrue result ↔ (head_of left.now ≡ head_of right.now) }
{
    match left {
        Mono::Var(variable) => is_variable(right, *variable),
        Mono::Con(entity, arguments) => match right {
            Mono::Var(_) => false,
            Mono::Con(other, others) => {
                is_same_entity(entity, other) && arguments.len() == others.len()
            }
            Mono::Fun(_, _) => false,
        },
        Mono::Fun(_, _) => is_function(right),
    }
}

/// Whether a type is the variable.
pub fn is_variable(ty: &Mono, variable: u32) -> bool
    ensures { IsTrue result ↔ (ty.now ≡ Var variable) }
{
    match ty {
        Mono::Var(other) => *other == variable,
        Mono::Con(_, _) => false,
        Mono::Fun(_, _) => false,
    }
}

fn is_function(ty: &Mono) -> bool
    ensures { IsTrue result ↔ (head_of ty.now ≡ arrow_head) }
{
    match ty {
        Mono::Var(_) => false,
        Mono::Con(_, _) => false,
        Mono::Fun(_, _) => true,
    }
}
