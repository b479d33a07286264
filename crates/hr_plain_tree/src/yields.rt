//! What a tree yields.
ghost use Rattle.std.specs.Prelude.{◌≡◌, ◌++◌, IfOk, OnOk};
ghost use Rattle.hr_plain_tree.specs.Yields.{equation_items, items_of, yield_of};

use crate::{Equation, Exp, Module};
use hr_base::{Item, Items, Seq, Text};
use std::alloc::{AllocError, Global};

/// The items of the module, from left to right, and what is behind the last one.
pub fn items(alloc: Global, tree: &Module) -> Result<Items, AllocError>
    ensures { IfOk result (λ items. items ≡ items_of tree.now) }
{
    let mut list = Vec::new(alloc);
    for equation in tree.equations.as_slice() {
        push_equation(equation, &mut list)?;
    }
    Ok(Items {
        list: Seq { list },
        tail: Text::from_slice(alloc, tree.tail.as_slice())?,
    })
}

/// Puts the items of an equation behind the others.
fn push_equation(equation: &Equation, list: &mut Vec<Item>) -> Result<(), AllocError>
    ensures { OnOk result (list.new.items ≡ list.old.items ++ equation_items equation.now) }
{
    list.push(copy_of(&equation.name)?)?;
    for pattern in equation.patterns.as_slice() {
        list.push(copy_of(pattern)?)?;
    }
    list.push(copy_of(&equation.equals)?)?;
    push_exp(&equation.body, list)
}

/// Puts the items of an expression behind the others.
fn push_exp(exp: &Exp, list: &mut Vec<Item>) -> Result<(), AllocError>
    ensures { OnOk result (list.new.items ≡ list.old.items ++ yield_of exp.now) }
{
    match exp {
        Exp::Variable(item) => list.push(copy_of(item)?)?,
        Exp::Integer(item) => list.push(copy_of(item)?)?,
        Exp::Group(left, inner, right) => {
            list.push(copy_of(left)?)?;
            push_exp(inner.get(), list)?;
            list.push(copy_of(right)?)?;
        }
        Exp::Apply(atoms) => {
            for atom in atoms.as_slice() {
                push_exp(atom, list)?;
            }
        }
    }
    Ok(())
}

/// A copy of an item.
fn copy_of(item: &Item) -> Result<Item, AllocError>
    ensures { IfOk result (λ copy. copy ≡ item.now) }
{
    item.clone()
}
