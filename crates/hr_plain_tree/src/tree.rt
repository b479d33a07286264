use hr_base::{Item, Seq, Text};
use sqlite_items::{Boxed, Items as Children};

/// An expression of the plain form. An application has two atoms or more; an atom is a variable, an
/// integer or an expression in parentheses.
#[derive(Debug, Drop)]
pub enum Exp {
    Variable(Item),
    Integer(Item),
    Group(Item, Boxed<Exp>, Item),
    Apply(Children<Exp>),
}

/// An equation: the variable that it defines, variables and integers as patterns, `=` and a body.
#[derive(Debug, Drop)]
pub struct Equation {
    pub name: Item,
    pub patterns: Seq<Item>,
    pub equals: Item,
    pub body: Exp,
}

/// The equations of a module, and the blanks and comments behind the last one.
#[derive(Debug, Drop)]
pub struct Module {
    pub equations: Seq<Equation>,
    pub tail: Text,
}
