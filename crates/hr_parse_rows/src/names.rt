use crate::shown::Shown;
use hr_tree::{Constructor, Operator, Variable};
use std::alloc::AllocError;

pub fn variable(out: &mut Shown, variable: &Variable) -> Result<(), AllocError> {
    match variable {
        Variable::Name(name) => out.item(name),
        Variable::Symbol(left, symbol, right) => {
            out.item(left)?;
            out.item(symbol)?;
            out.item(right)
        }
    }
}

pub fn constructor(out: &mut Shown, constructor: &Constructor) -> Result<(), AllocError> {
    match constructor {
        Constructor::Name(name) => out.item(name),
        Constructor::Symbol(left, symbol, right) => {
            out.item(left)?;
            out.item(symbol)?;
            out.item(right)
        }
        Constructor::Unit(left, right) | Constructor::EmptyList(left, right) => {
            out.item(left)?;
            out.item(right)
        }
        Constructor::Tuple(left, commas, right) => {
            out.item(left)?;
            out.items(commas)?;
            out.item(right)
        }
    }
}

pub fn operator(out: &mut Shown, operator: &Operator) -> Result<(), AllocError> {
    match operator {
        Operator::Symbol(symbol) => out.item(symbol),
        Operator::Quoted(left, name, right) => {
            out.item(left)?;
            out.item(name)?;
            out.item(right)
        }
    }
}

pub fn maybe_operator(out: &mut Shown, found: &Option<Operator>) -> Result<(), AllocError> {
    match found {
        None => Ok(()),
        Some(found) => operator(out, found),
    }
}
