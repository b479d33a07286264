use hr_tree::{Constructor, Field, Listed, Operand, Pat, Variable};
use hr_typing_walk::{
    Literal, Rule, Walk, constructor_used, literal, operator_at, use_constructor, variable_at,
};
use std::alloc::AllocError;

/// The rules of a pattern, which put its type. The lexemes of the variables that it binds are added to `bound`.
#[cycle(patterns)]
pub fn pattern_rules(pat: &Pat, walk: &mut Walk, bound: &mut Vec<usize>) {
    match pat {
        Pat::Variable(variable) => bind_variable(variable, walk, bound),
        Pat::Wildcard(_) => {
            walk.pass(1);
            walk.put(Rule::Any);
        }
        Pat::Literal(item) => literal(item, walk),
        Pat::Negative(_, _) => {
            walk.pass(2);
            walk.put(Rule::Literal(Literal::Integer));
        }
        Pat::Constructor(constructor) => {
            use_constructor(constructor, walk);
            walk.put(Rule::Construct(0));
        }
        Pat::As(variable, _, part) => {
            bind_variable(variable, walk, bound);
            walk.pass(1);
            pattern_rules(part.get(), walk, bound);
            walk.put(Rule::Same);
        }
        Pat::Lazy(_, part) => {
            walk.pass(1);
            pattern_rules(part.get(), walk, bound);
        }
        Pat::Apply(constructor, arguments) => {
            use_constructor(constructor, walk);
            each_pattern(arguments.as_slice(), walk, bound);
            walk.put(Rule::Construct(arguments.len()));
        }
        Pat::Infix(operands) => operand_patterns(operands.as_slice(), walk, bound),
        Pat::Tuple(_, parts, _) => {
            listed_patterns(parts.as_slice(), walk, bound);
            walk.put(Rule::Tuple(parts.len()));
        }
        Pat::List(_, parts, _) => {
            listed_patterns(parts.as_slice(), walk, bound);
            walk.put(Rule::List(parts.len()));
        }
        Pat::Group(_, part, _) => {
            walk.pass(1);
            pattern_rules(part.get(), walk, bound);
            walk.pass(1);
        }
        Pat::Fields(constructor, _, fields, _) => {
            pass_constructor(constructor, walk);
            labelled_patterns(fields.as_slice(), walk, bound);
            walk.put(Rule::Refuse);
        }
    }
}

/// Patterns behind one another.
#[cycle(patterns)]
pub fn each_pattern(pats: &[Pat], walk: &mut Walk, bound: &mut Vec<usize>) {
    for pat in pats {
        pattern_rules(pat, walk, bound);
    }
}

/// Patterns in brackets.
#[cycle(patterns)]
fn listed_patterns(parts: &[Listed<Pat>], walk: &mut Walk, bound: &mut Vec<usize>) {
    walk.pass(1);
    for part in parts {
        pattern_rules(&part.part, walk, bound);
        walk.maybe(&part.separator);
    }
    walk.pass(1);
}

#[cycle(patterns)]
fn operand_patterns(operands: &[Operand<Pat>], walk: &mut Walk, bound: &mut Vec<usize>) {
    let mut operators = Vec::new(walk.alloc());
    for operand in operands {
        put_minus(operand.minus.is_some(), walk, &mut operators);
        pattern_rules(&operand.part, walk, bound);
        put_operator(operand, walk, &mut operators);
    }
    walk.put(Rule::PatternSequence(operands.len(), operators));
}

/// Labelled fields, which are not typed yet.
#[cycle(patterns)]
fn labelled_patterns(fields: &[Listed<Field<Pat>>], walk: &mut Walk, bound: &mut Vec<usize>) {
    walk.pass(1);
    for field in fields {
        pass_label(&field.part.name, walk);
        pattern_rules(&field.part.part, walk, bound);
        walk.maybe(&field.separator);
    }
    walk.pass(1);
}

fn bind_variable(variable: &Variable, walk: &mut Walk, bound: &mut Vec<usize>) {
    let at = variable_at(variable, walk);
    let done = push_lexeme(at, bound);
    walk.note(done);
    walk.put(Rule::Variable(at));
}

pub fn push_lexeme(lexeme: usize, list: &mut Vec<usize>) -> Result<(), AllocError> {
    list.push(lexeme)?;
    Ok(())
}

fn pass_constructor(constructor: &Constructor, walk: &mut Walk) {
    let _used = constructor_used(constructor, walk);
}

/// Passes a label and its `=`.
pub fn pass_label(name: &Variable, walk: &mut Walk) {
    let _at = variable_at(name, walk);
    walk.pass(1);
}

/// Passes the minus before an operand, if there is one.
pub fn put_minus(has_minus: bool, walk: &mut Walk, operators: &mut Vec<usize>) {
    if has_minus {
        let at = walk.next();
        let done = push_lexeme(at, operators);
        walk.note(done);
    }
}

/// Passes the operator behind an operand, if there is one.
pub fn put_operator<T>(operand: &Operand<T>, walk: &mut Walk, operators: &mut Vec<usize>) {
    if let Some(operator) = &operand.operator {
        let at = operator_at(operator, walk);
        let done = push_lexeme(at, operators);
        walk.note(done);
    }
}
