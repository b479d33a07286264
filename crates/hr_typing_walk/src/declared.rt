//! Declarations of types.
use crate::names::{constructor_used, operator_at, variable_at};
use crate::rule::Used;
use crate::types::read_type;
use crate::walk::Walk;
use crate::written::{Construction, TypeMark, Written};
use hr_base::{Item, Text};
use hr_tree::{Construction as Constructed, Constructor, FieldType, Listed, Ty, TypeHead};
use std::alloc::AllocError;

/// `type T a = t`
pub fn synonym(head: &TypeHead, ty: &Ty, walk: &mut Walk) {
    walk.pass(1);
    let name = walk.next();
    let variables = head_variables(head.variables.as_slice(), walk);
    walk.pass(1);
    read_type(ty, walk);
    let ty = walk.take_marks();
    walk.write(Written::Synonym {
        name,
        variables,
        ty,
    });
}

fn head_variables(items: &[Item], walk: &mut Walk) -> Vec<Text> {
    let mut variables = Vec::new(walk.alloc());
    for item in items {
        walk.pass(1);
        let done = put_text(&item.lexeme.text, &mut variables);
        walk.note(done);
    }
    variables
}

fn put_text(text: &Text, list: &mut Vec<Text>) -> Result<(), AllocError> {
    list.push(text.clone()?)?;
    Ok(())
}

/// `data T a = C t | ..`
pub fn data(head: &TypeHead, list: &[Listed<Constructed>], walk: &mut Walk) {
    walk.pass(1);
    let name = walk.next();
    let variables = head_variables(head.variables.as_slice(), walk);
    walk.pass(1);
    let mut constructions = Vec::new(walk.alloc());
    for part in list {
        put_construction(&part.part, walk, &mut constructions);
        walk.maybe(&part.separator);
    }
    walk.write(Written::Data {
        name,
        variables,
        constructions,
    });
}

/// `newtype T a = C t`
pub fn newtype(head: &TypeHead, only: &Constructed, walk: &mut Walk) {
    walk.pass(1);
    let name = walk.next();
    let variables = head_variables(head.variables.as_slice(), walk);
    walk.pass(1);
    let mut constructions = Vec::new(walk.alloc());
    put_construction(only, walk, &mut constructions);
    walk.write(Written::Data {
        name,
        variables,
        constructions,
    });
}

fn put_construction(constructed: &Constructed, walk: &mut Walk, list: &mut Vec<Construction>) {
    let construction = construction(constructed, walk);
    let done = push_construction(construction, list);
    walk.note(done);
}

fn push_construction(
    construction: Construction,
    list: &mut Vec<Construction>,
) -> Result<(), AllocError> {
    list.push(construction)?;
    Ok(())
}

fn construction(constructed: &Constructed, walk: &mut Walk) -> Construction {
    match constructed {
        Constructed::Prefix(constructor, types) => {
            prefix_construction(constructor, types.as_slice(), walk)
        }
        Constructed::Infix(left, operator, right) => {
            let mut fields = Vec::new(walk.alloc());
            put_field(left, walk, &mut fields);
            let name = operator_at(operator, walk);
            put_field(right, walk, &mut fields);
            Construction { name, fields }
        }
        Constructed::Fields(constructor, _, list, _) => {
            labelled_construction(constructor, list.as_slice(), walk)
        }
    }
}

/// Adds the type of a field.
fn put_field(ty: &Ty, walk: &mut Walk, fields: &mut Vec<Vec<TypeMark>>) {
    read_type(ty, walk);
    let marks = walk.take_marks();
    let done = push_field(marks, fields);
    walk.note(done);
}

fn push_field(marks: Vec<TypeMark>, fields: &mut Vec<Vec<TypeMark>>) -> Result<(), AllocError> {
    fields.push(marks)?;
    Ok(())
}

fn constructor_lexeme(constructor: &Constructor, walk: &mut Walk) -> usize {
    match constructor_used(constructor, walk) {
        Used::Name(at) => at,
        _ => 0,
    }
}

fn prefix_construction(constructor: &Constructor, types: &[Ty], walk: &mut Walk) -> Construction {
    let name = constructor_lexeme(constructor, walk);
    let mut fields = Vec::new(walk.alloc());
    for ty in types {
        put_field(ty, walk, &mut fields);
    }
    Construction { name, fields }
}

fn labelled_construction(
    constructor: &Constructor,
    list: &[Listed<FieldType>],
    walk: &mut Walk,
) -> Construction {
    let name = constructor_lexeme(constructor, walk);
    let mut fields = Vec::new(walk.alloc());
    walk.pass(1);
    for part in list {
        labelled_fields(&part.part, walk, &mut fields);
        walk.maybe(&part.separator);
    }
    walk.pass(1);
    Construction { name, fields }
}

/// Fields of one type: it stands once for each.
fn labelled_fields(labelled: &FieldType, walk: &mut Walk, fields: &mut Vec<Vec<TypeMark>>) {
    for name in labelled.names.as_slice() {
        let _at = variable_at(&name.part, walk);
        walk.maybe(&name.separator);
    }
    walk.pass(1);
    read_type(&labelled.ty, walk);
    let marks = walk.take_marks();
    let done = push_copies(&marks, labelled.names.len(), fields);
    walk.note(done);
}

fn push_copies(
    marks: &Vec<TypeMark>,
    count: usize,
    fields: &mut Vec<Vec<TypeMark>>,
) -> Result<(), AllocError> {
    for _ in 0..count {
        fields.push(marks.clone()?)?;
    }
    Ok(())
}
