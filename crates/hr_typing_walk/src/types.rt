use crate::names::constructor_used;
use crate::rule::Used;
use crate::walk::Walk;
use crate::written::{Head, Written};
use hr_tree::{Constructor, Listed, Ty};

/// A constructor of types with so many arguments behind it. A name is known by its own lexeme, what is syntax by its
/// first one.
fn put_constructor(constructor: &Constructor, arguments: usize, walk: &mut Walk) {
    let first = walk.at();
    let used = constructor_used(constructor, walk);
    let lexeme = lexeme_of(constructor, first, used);
    walk.put_applied(lexeme, head_of(constructor, used), arguments);
}

fn lexeme_of(constructor: &Constructor, first: usize, used: Used) -> usize {
    match (constructor, used) {
        (Constructor::Name(_), Used::Name(at)) => at,
        _ => first,
    }
}

fn head_of(constructor: &Constructor, used: Used) -> Head {
    match (constructor, used) {
        (Constructor::Symbol(_, _, _), _) => Head::Arrow,
        (_, Used::Nil) => Head::List,
        (_, Used::Unit) => Head::Tuple(0),
        (_, Used::Tuple(parts)) => Head::Tuple(parts),
        _ => Head::Named,
    }
}

/// The parts of a type.
#[cycle(types)]
fn type_marks(ty: &Ty, walk: &mut Walk) {
    match ty {
        Ty::Variable(name) => {
            let at = walk.next();
            walk.put_variable(at, &name.lexeme.text);
        }
        Ty::Constructor(constructor) => put_constructor(constructor, 0, walk),
        Ty::Apply(constructor, arguments) => {
            put_constructor(constructor, arguments.len(), walk);
            each_type(arguments.as_slice(), walk);
        }
        Ty::Function(from, _, to) => {
            walk.put_applied(walk.at(), Head::Arrow, 2);
            type_marks(from.get(), walk);
            walk.pass(1);
            type_marks(to.get(), walk);
        }
        Ty::Tuple(_, parts, _) => {
            walk.put_applied(walk.at(), Head::Tuple(parts.len()), parts.len());
            listed_types(parts.as_slice(), walk);
        }
        Ty::List(_, part, _) => {
            walk.put_applied(walk.at(), Head::List, 1);
            enclosed_type(part.get(), walk);
        }
        Ty::Group(_, part, _) => enclosed_type(part.get(), walk),
    }
}

/// A type in brackets.
#[cycle(types)]
fn enclosed_type(ty: &Ty, walk: &mut Walk) {
    walk.pass(1);
    type_marks(ty, walk);
    walk.pass(1);
}

#[cycle(types)]
fn each_type(types: &[Ty], walk: &mut Walk) {
    for ty in types {
        type_marks(ty, walk);
    }
}

#[cycle(types)]
fn listed_types(parts: &[Listed<Ty>], walk: &mut Walk) {
    walk.pass(1);
    for part in parts {
        type_marks(&part.part, walk);
        walk.maybe(&part.separator);
    }
    walk.pass(1);
}

/// Reads a whole type: its parts stay with the walk.
pub fn read_type(ty: &Ty, walk: &mut Walk) {
    type_marks(ty, walk);
}

/// A `::` and the type behind it: answers the lexeme of the former.
pub fn annotation(ty: &Ty, walk: &mut Walk) -> usize {
    let colons = walk.next();
    read_type(ty, walk);
    let ty = walk.take_marks();
    walk.write(Written::Annotation { colons, ty });
    colons
}
