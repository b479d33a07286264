//! Names, operators, braces, and items that may be there.
ghost use Rattle.std.specs.Prelude.{◌≡◌, ◌∷◌, [], ◌++◌, OnOk, fold};
ghost use Rattle.hr_tree.specs.Lists.{closing_items, opening_items};
ghost use Rattle.hr_tree.specs.Names.{maybe_item, variable_items, constructor_items, operator_items, maybe_operator};

use crate::walk::Visitor;
use crate::{Constructor, Layout, Operator, Variable};
use hr_base::Item;

pub fn visit_all<V: Visitor>(items: &[Item], visitor: &mut V) -> Result<(), V::Fault>
    ensures { OnOk result (visitor.new ≡ fold V.behind visitor.old items.now) }
{
    for item in items {
        visitor.visit(item)?;
    }
    Ok(())
}

pub fn visit_two<V: Visitor>(first: &Item, second: &Item, visitor: &mut V) -> Result<(), V::Fault>
    ensures { OnOk result (visitor.new ≡ fold V.behind visitor.old (first.now ∷ second.now ∷ [])) }
{
    visitor.visit(first)?;
    visitor.visit(second)
}

pub fn visit_maybe<V: Visitor>(item: &Option<Item>, visitor: &mut V) -> Result<(), V::Fault>
    ensures { OnOk result (visitor.new ≡ fold V.behind visitor.old (maybe_item item.now)) }
{
    match item {
        Some(item) => visitor.visit(item)?,
        None => {}
    }
    Ok(())
}

pub fn walk_variable<V: Visitor>(variable: &Variable, visitor: &mut V) -> Result<(), V::Fault>
    ensures { OnOk result (visitor.new ≡ fold V.behind visitor.old (variable_items variable.now)) }
{
    match variable {
        Variable::Name(name) => visitor.visit(name)?,
        Variable::Symbol(left, symbol, right) => {
            visitor.visit(left)?;
            visitor.visit(symbol)?;
            visitor.visit(right)?;
        }
    }
    Ok(())
}

pub fn walk_constructor<V: Visitor>(
    constructor: &Constructor,
    visitor: &mut V,
) -> Result<(), V::Fault>
    ensures { OnOk result (visitor.new ≡ fold V.behind visitor.old (constructor_items constructor.now)) }
{
    match constructor {
        Constructor::Name(name) => visitor.visit(name)?,
        Constructor::Symbol(left, symbol, right) => {
            visitor.visit(left)?;
            visitor.visit(symbol)?;
            visitor.visit(right)?;
        }
        Constructor::Unit(left, right) => {
            visitor.visit(left)?;
            visitor.visit(right)?;
        }
        Constructor::EmptyList(left, right) => {
            visitor.visit(left)?;
            visitor.visit(right)?;
        }
        Constructor::Tuple(left, commas, right) => {
            visitor.visit(left)?;
            visit_all(commas.as_slice(), visitor)?;
            visitor.visit(right)?;
        }
    }
    Ok(())
}

pub fn walk_operator<V: Visitor>(operator: &Operator, visitor: &mut V) -> Result<(), V::Fault>
    ensures { OnOk result (visitor.new ≡ fold V.behind visitor.old (operator_items operator.now)) }
{
    match operator {
        Operator::Symbol(symbol) => visitor.visit(symbol)?,
        Operator::Quoted(left, name, right) => {
            visitor.visit(left)?;
            visitor.visit(name)?;
            visitor.visit(right)?;
        }
    }
    Ok(())
}

/// An operator, and the lexeme behind it.
pub fn walk_operator_before<V: Visitor>(
    operator: &Operator,
    item: &Item,
    visitor: &mut V,
) -> Result<(), V::Fault>
    ensures { OnOk result (visitor.new ≡ fold V.behind visitor.old (operator_items operator.now ++ item.now ∷ [])) }
{
    walk_operator(operator, visitor)?;
    visitor.visit(item)
}

/// A lexeme, and the operator behind it.
pub fn walk_operator_behind<V: Visitor>(
    item: &Item,
    operator: &Operator,
    visitor: &mut V,
) -> Result<(), V::Fault>
    ensures { OnOk result (visitor.new ≡ fold V.behind visitor.old (item.now ∷ operator_items operator.now)) }
{
    visitor.visit(item)?;
    walk_operator(operator, visitor)
}

pub fn walk_maybe_operator<V: Visitor>(
    operator: &Option<Operator>,
    visitor: &mut V,
) -> Result<(), V::Fault>
    ensures { OnOk result (visitor.new ≡ fold V.behind visitor.old (maybe_operator operator.now)) }
{
    match operator {
        Some(operator) => walk_operator(operator, visitor)?,
        None => {}
    }
    Ok(())
}

/// The brace that begins a block.
pub fn visit_opening<V: Visitor>(layout: &Layout, visitor: &mut V) -> Result<(), V::Fault>
    ensures { OnOk result (visitor.new ≡ fold V.behind visitor.old (opening_items layout.now)) }
{
    match layout {
        Layout::Implicit { col: _ } => Ok(()),
        Layout::Explicit(left, _) => visitor.visit(left),
    }
}

/// The brace that ends a block.
pub fn visit_closing<V: Visitor>(layout: &Layout, visitor: &mut V) -> Result<(), V::Fault>
    ensures { OnOk result (visitor.new ≡ fold V.behind visitor.old (closing_items layout.now)) }
{
    match layout {
        Layout::Implicit { col: _ } => Ok(()),
        Layout::Explicit(_, right) => visitor.visit(right),
    }
}
