use crate::rule::{Literal, Rule, Used};
use crate::walk::Walk;
use hr_base::{Class, Item};
use hr_tree::{Constructor, Operator, Variable};

/// Passes a variable, and answers the lexeme of its name.
pub fn variable_at(variable: &Variable, walk: &mut Walk) -> usize {
    match variable {
        Variable::Name(_) => walk.next(),
        Variable::Symbol(_, _, _) => {
            walk.pass(1);
            let at = walk.next();
            walk.pass(1);
            at
        }
    }
}

/// A name, or the constructor `:`, which is no name.
fn named(item: &Item, walk: &mut Walk) -> Used {
    let at = walk.next();
    if item.lexeme.text.is(b":") {
        return Used::Cons;
    }
    Used::Name(at)
}

/// Passes a constructor.
pub fn constructor_used(constructor: &Constructor, walk: &mut Walk) -> Used {
    match constructor {
        Constructor::Name(name) => named(name, walk),
        Constructor::Symbol(_, symbol, _) => {
            walk.pass(1);
            let used = named(symbol, walk);
            walk.pass(1);
            used
        }
        Constructor::Unit(_, _) => {
            walk.pass(2);
            Used::Unit
        }
        Constructor::EmptyList(_, _) => {
            walk.pass(2);
            Used::Nil
        }
        Constructor::Tuple(_, commas, _) => {
            walk.pass(commas.len());
            walk.pass(2);
            Used::Tuple(commas.len().saturating_add(1))
        }
    }
}

/// Passes an operator.
pub fn operator_used(operator: &Operator, walk: &mut Walk) -> Used {
    match operator {
        Operator::Symbol(symbol) => named(symbol, walk),
        Operator::Quoted(_, name, _) => {
            walk.pass(1);
            let used = named(name, walk);
            walk.pass(1);
            used
        }
    }
}

/// Passes an operator, and answers the lexeme of its name.
pub fn operator_at(operator: &Operator, walk: &mut Walk) -> usize {
    match operator {
        Operator::Symbol(_) => walk.next(),
        Operator::Quoted(_, _, _) => {
            walk.pass(1);
            let at = walk.next();
            walk.pass(1);
            at
        }
    }
}

pub fn use_variable(variable: &Variable, walk: &mut Walk) {
    let at = variable_at(variable, walk);
    walk.put(Rule::Use(Used::Name(at)));
}

pub fn use_constructor(constructor: &Constructor, walk: &mut Walk) {
    let used = constructor_used(constructor, walk);
    walk.put(Rule::Use(used));
}

pub fn use_operator(operator: &Operator, walk: &mut Walk) {
    let used = operator_used(operator, walk);
    walk.put(Rule::Use(used));
}

/// Passes a literal.
pub fn literal(item: &Item, walk: &mut Walk) {
    walk.pass(1);
    walk.put(literal_rule(item.lexeme.class));
}

fn literal_rule(class: Class) -> Rule {
    match class {
        Class::Integer => Rule::Literal(Literal::Integer),
        Class::Char => Rule::Literal(Literal::Character),
        Class::Str => Rule::Literal(Literal::Text),
        _ => Rule::Refuse,
    }
}
