//! What begins a definition, signatures, and declarations of fixities.
use crate::block::{Block, Defined, Left};
use crate::patterns::{each_pattern, pattern_rules};
use hr_base::{Item, Text};
use hr_tree::{LeftHead, LeftSide, Listed, Operator, Pat, Ty, Variable};
use hr_typing_walk::{Walk, annotation, operator_at, variable_at};
use std::alloc::AllocError;

/// `f, g :: t`
pub fn signature(names: &[Listed<Variable>], ty: &Ty, walk: &mut Walk, block: &mut Block) {
    let mut lexemes = Vec::new(walk.alloc());
    for name in names {
        let at = variable_at(&name.part, walk);
        let done = crate::patterns::push_lexeme(at, &mut lexemes);
        walk.note(done);
        walk.maybe(&name.separator);
    }
    let colons = annotation(ty, walk);
    for name in lexemes.as_slice() {
        let done = block.sign(*name, colons);
        walk.note(done);
    }
}

/// Passes `infixl 6 +, -`.
pub fn fixity(level: &Option<Item>, operators: &[Listed<Operator>], walk: &mut Walk) {
    walk.pass(1);
    walk.maybe(level);
    for operator in operators {
        let _at = operator_at(&operator.part, walk);
        walk.maybe(&operator.separator);
    }
}

/// The left side of an equation: its rules put the types of its patterns.
pub fn function_head(left: &LeftSide, walk: &mut Walk) -> Result<Defined, AllocError> {
    let first = walk.at();
    let mut bound = Vec::new(walk.alloc());
    walk.pass(left.opens.len());
    let (name, inner) = inner_head(&left.head, walk, &mut bound);
    let mut count = inner;
    for closed in left.closes.as_slice() {
        walk.pass(1);
        each_pattern(closed.patterns.as_slice(), walk, &mut bound);
        count = count.saturating_add(closed.patterns.len());
    }
    Ok(Defined {
        left: Left::Function(name, defined_text(&left.head)?),
        count,
        first,
    })
}

/// The name's lexeme, and the number of patterns.
fn inner_head(head: &LeftHead, walk: &mut Walk, bound: &mut Vec<usize>) -> (usize, usize) {
    match head {
        LeftHead::Prefix(variable, patterns) => {
            let name = variable_at(variable, walk);
            each_pattern(patterns.as_slice(), walk, bound);
            (name, patterns.len())
        }
        LeftHead::Infix(left, operator, right) => {
            pattern_rules(left, walk, bound);
            let name = operator_at(operator, walk);
            pattern_rules(right, walk, bound);
            (name, 2)
        }
    }
}

/// The text of the name that an equation defines.
fn defined_text(head: &LeftHead) -> Result<Text, AllocError> {
    match head {
        LeftHead::Prefix(Variable::Name(name), _) => name.lexeme.text.clone(),
        LeftHead::Prefix(Variable::Symbol(_, symbol, _), _) => symbol.lexeme.text.clone(),
        LeftHead::Infix(_, Operator::Symbol(symbol), _) => symbol.lexeme.text.clone(),
        LeftHead::Infix(_, Operator::Quoted(_, name, _), _) => name.lexeme.text.clone(),
    }
}

/// The pattern of a binding: its rules put its type.
pub fn pattern_head(pattern: &Pat, walk: &mut Walk) -> Defined {
    let first = walk.at();
    let mut bound = Vec::new(walk.alloc());
    pattern_rules(pattern, walk, &mut bound);
    Defined {
        left: Left::Pattern(bound),
        count: 0,
        first,
    }
}
