//! How many lexemes stand in what has no block in it: names, patterns and types.

ghost use Rattle.std.specs.Prelude.{◌≡◌, length};
ghost use Rattle.hr_tree.specs.Names.{operator_items, variable_items};

use hr_base::Item;
use hr_tree::{
    Closed, Construction, Constructor, Field, FieldType, LeftHead, LeftSide, Listed, Operand,
    Operator, Pat, Ty, TypeHead, Variable,
};

pub fn maybe_len(item: &Option<Item>) -> usize {
    usize::from(item.is_some())
}

pub fn variable_len(variable: &Variable) -> usize
    ensures { result ≡ length (variable_items variable.now) }
{
    match variable {
        Variable::Name(_) => 1,
        Variable::Symbol(_, _, _) => 3,
    }
}

pub fn constructor_len(constructor: &Constructor) -> usize {
    match constructor {
        Constructor::Name(_) => 1,
        Constructor::Symbol(_, _, _) => 3,
        Constructor::Unit(_, _) => 2,
        Constructor::EmptyList(_, _) => 2,
        Constructor::Tuple(_, commas, _) => commas.len().saturating_add(2),
    }
}

pub fn operator_len(operator: &Operator) -> usize
    ensures { result ≡ length (operator_items operator.now) }
{
    match operator {
        Operator::Symbol(_) => 1,
        Operator::Quoted(_, _, _) => 3,
    }
}

pub fn maybe_operator_len(operator: &Option<Operator>) -> usize {
    match operator {
        Some(operator) => operator_len(operator),
        None => 0,
    }
}

#[cycle(patterns)]
pub fn pat_len(pat: &Pat) -> usize {
    match pat {
        Pat::Variable(variable) => variable_len(variable),
        Pat::Wildcard(_) => 1,
        Pat::Literal(_) => 1,
        Pat::Negative(_, _) => 2,
        Pat::Constructor(constructor) => constructor_len(constructor),
        Pat::As(variable, _, part) => pat_len(part.get())
            .saturating_add(variable_len(variable))
            .saturating_add(1),
        Pat::Lazy(_, part) => pat_len(part.get()).saturating_add(1),
        Pat::Apply(constructor, arguments) => {
            pats_len(arguments.as_slice()).saturating_add(constructor_len(constructor))
        }
        Pat::Infix(operands) => pat_operands_len(operands.as_slice()),
        Pat::Tuple(_, parts, _) => listed_pats_len(parts.as_slice()),
        Pat::List(_, parts, _) => listed_pats_len(parts.as_slice()),
        Pat::Group(_, part, _) => pat_len(part.get()).saturating_add(2),
        Pat::Fields(constructor, _, fields, _) => {
            pat_fields_len(fields.as_slice()).saturating_add(constructor_len(constructor))
        }
    }
}

#[cycle(patterns)]
pub fn pats_len(pats: &[Pat]) -> usize {
    let mut sum = 0usize;
    for pat in pats {
        sum = sum.saturating_add(pat_len(pat));
    }
    sum
}

/// With the brackets.
#[cycle(patterns)]
fn listed_pats_len(parts: &[Listed<Pat>]) -> usize {
    let mut sum = 2usize;
    for part in parts {
        sum = sum
            .saturating_add(pat_len(&part.part))
            .saturating_add(maybe_len(&part.separator));
    }
    sum
}

#[cycle(patterns)]
fn pat_operands_len(operands: &[Operand<Pat>]) -> usize {
    let mut sum = 0usize;
    for operand in operands {
        sum = sum
            .saturating_add(maybe_len(&operand.minus))
            .saturating_add(pat_len(&operand.part))
            .saturating_add(maybe_operator_len(&operand.operator));
    }
    sum
}

/// With the braces.
#[cycle(patterns)]
fn pat_fields_len(fields: &[Listed<Field<Pat>>]) -> usize {
    let mut sum = 2usize;
    for field in fields {
        sum = sum
            .saturating_add(variable_len(&field.part.name))
            .saturating_add(pat_len(&field.part.part))
            .saturating_add(maybe_len(&field.separator))
            .saturating_add(1);
    }
    sum
}

#[cycle(types)]
pub fn ty_len(ty: &Ty) -> usize {
    match ty {
        Ty::Variable(_) => 1,
        Ty::Constructor(constructor) => constructor_len(constructor),
        Ty::Apply(constructor, arguments) => {
            tys_len(arguments.as_slice()).saturating_add(constructor_len(constructor))
        }
        Ty::Function(left, _, right) => ty_len(left.get())
            .saturating_add(ty_len(right.get()))
            .saturating_add(1),
        Ty::Tuple(_, parts, _) => listed_tys_len(parts.as_slice()),
        Ty::List(_, part, _) => ty_len(part.get()).saturating_add(2),
        Ty::Group(_, part, _) => ty_len(part.get()).saturating_add(2),
    }
}

#[cycle(types)]
pub fn tys_len(tys: &[Ty]) -> usize {
    let mut sum = 0usize;
    for ty in tys {
        sum = sum.saturating_add(ty_len(ty));
    }
    sum
}

/// With the parentheses.
#[cycle(types)]
fn listed_tys_len(parts: &[Listed<Ty>]) -> usize {
    let mut sum = 2usize;
    for part in parts {
        sum = sum
            .saturating_add(ty_len(&part.part))
            .saturating_add(maybe_len(&part.separator));
    }
    sum
}

pub fn type_head_len(head: &TypeHead) -> usize {
    head.variables.len().saturating_add(1)
}

pub fn construction_len(construction: &Construction) -> usize {
    match construction {
        Construction::Prefix(constructor, types) => {
            tys_len(types.as_slice()).saturating_add(constructor_len(constructor))
        }
        Construction::Infix(first, operator, second) => ty_len(first)
            .saturating_add(operator_len(operator))
            .saturating_add(ty_len(second)),
        Construction::Fields(constructor, _, fields, _) => {
            field_types_len(fields.as_slice()).saturating_add(constructor_len(constructor))
        }
    }
}

pub fn constructions_len(list: &[Listed<Construction>]) -> usize {
    let mut sum = 0usize;
    for listed in list {
        sum = sum
            .saturating_add(construction_len(&listed.part))
            .saturating_add(maybe_len(&listed.separator));
    }
    sum
}

/// With the braces.
fn field_types_len(fields: &[Listed<FieldType>]) -> usize {
    let mut sum = 2usize;
    for field in fields {
        sum = sum
            .saturating_add(variables_len(field.part.names.as_slice()))
            .saturating_add(ty_len(&field.part.ty))
            .saturating_add(maybe_len(&field.separator))
            .saturating_add(1);
    }
    sum
}

pub fn variables_len(list: &[Listed<Variable>]) -> usize {
    let mut sum = 0usize;
    for listed in list {
        sum = sum
            .saturating_add(variable_len(&listed.part))
            .saturating_add(maybe_len(&listed.separator));
    }
    sum
}

pub fn operators_len(list: &[Listed<Operator>]) -> usize {
    let mut sum = 0usize;
    for listed in list {
        sum = sum
            .saturating_add(operator_len(&listed.part))
            .saturating_add(maybe_len(&listed.separator));
    }
    sum
}

pub fn left_side_len(left: &LeftSide) -> usize {
    left.opens
        .len()
        .saturating_add(left_head_len(&left.head))
        .saturating_add(closes_len(left.closes.as_slice()))
}

fn left_head_len(head: &LeftHead) -> usize {
    match head {
        LeftHead::Prefix(variable, patterns) => {
            pats_len(patterns.as_slice()).saturating_add(variable_len(variable))
        }
        LeftHead::Infix(first, operator, second) => pat_len(first)
            .saturating_add(operator_len(operator))
            .saturating_add(pat_len(second)),
    }
}

fn closes_len(closes: &[Closed]) -> usize {
    let mut sum = 0usize;
    for closed in closes {
        sum = sum
            .saturating_add(pats_len(closed.patterns.as_slice()))
            .saturating_add(1);
    }
    sum
}
