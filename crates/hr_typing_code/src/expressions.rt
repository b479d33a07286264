//! Expressions, and the declarations and alternatives that stand in them. What calls itself is here alone.
use crate::block::Block;
use crate::declarations::{fixity, function_head, pattern_head, signature};
use crate::groups::{put_block, put_definition};
use crate::patterns::{each_pattern, pass_label, pattern_rules, put_minus, put_operator};
use hr_tree::{
    Alt, Block as Pieces, Body, Decl, Exp, Field, Listed, Operand, Piece, Qualifier, Where,
};
use hr_typing_walk::{
    Rule, Walk, annotation, data, literal, newtype, pass_import, synonym, use_constructor,
    use_operator, use_variable,
};

/// The rules of an expression, which put its type.
#[cycle(expressions)]
fn expression_rules(exp: &Exp, walk: &mut Walk) {
    match exp {
        Exp::Variable(variable) => use_variable(variable, walk),
        Exp::Constructor(constructor) => use_constructor(constructor, walk),
        Exp::Literal(item) => literal(item, walk),
        Exp::Group(_, part, _) => {
            behind(part.get(), walk);
            walk.pass(1);
        }
        Exp::Tuple(_, parts, _) => {
            listed(parts.as_slice(), walk);
            walk.put(Rule::Tuple(parts.len()));
        }
        Exp::List(_, parts, _) => {
            listed(parts.as_slice(), walk);
            walk.put(Rule::List(parts.len()));
        }
        Exp::From(_, first, _, _) => {
            behind(first.get(), walk);
            end_numbers(2, 1, walk);
        }
        Exp::FromThen(_, first, _, second, _, _) => {
            behind(first.get(), walk);
            behind(second.get(), walk);
            end_numbers(2, 2, walk);
        }
        Exp::FromTo(_, first, _, last, _) => {
            behind(first.get(), walk);
            behind(last.get(), walk);
            end_numbers(1, 2, walk);
        }
        Exp::FromThenTo(_, first, _, second, _, last, _) => {
            behind(first.get(), walk);
            behind(second.get(), walk);
            behind(last.get(), walk);
            end_numbers(1, 3, walk);
        }
        Exp::Comprehension(_, part, _, qualifiers, _) => {
            let from = walk.count();
            behind(part.get(), walk);
            walk.lay_aside(from);
            each_qualifier(qualifiers.as_slice(), walk);
            walk.fetch();
            walk.put(Rule::List(1));
        }
        Exp::LeftSection(_, part, operator, _) => {
            behind(part.get(), walk);
            use_operator(operator, walk);
            walk.pass(1);
            walk.put(Rule::LeftSection);
        }
        Exp::RightSection(_, operator, part, _) => {
            walk.pass(1);
            use_operator(operator, walk);
            expression_rules(part.get(), walk);
            walk.pass(1);
            walk.put(Rule::RightSection);
        }
        Exp::Apply(atoms) => each(atoms.as_slice(), walk),
        Exp::Infix(operands) => each_operand(operands.as_slice(), walk),
        Exp::Annotated(part, _, ty) => {
            walk.put(Rule::OpenAnnotated);
            expression_rules(part.get(), walk);
            let colons = annotation(ty, walk);
            walk.put(Rule::Annotated(colons));
        }
        Exp::Lambda(_, patterns, _, body) => {
            walk.pass(1);
            let mut bound = Vec::new(walk.alloc());
            each_pattern(patterns.as_slice(), walk, &mut bound);
            behind(body.get(), walk);
            walk.put(Rule::Lambda(patterns.len()));
        }
        Exp::Let(_, block, _, body) => {
            walk.pass(1);
            locals(block, walk);
            behind(body.get(), walk);
        }
        Exp::If(_, test, _, first, _, second) => {
            behind(test.get(), walk);
            walk.put(Rule::Test);
            behind(first.get(), walk);
            behind(second.get(), walk);
            walk.put(Rule::Same);
        }
        Exp::Case(_, part, _, block) => {
            behind(part.get(), walk);
            walk.pass(1);
            walk.put(Rule::Case);
            alternatives(block, walk);
            walk.put(Rule::EndCase);
        }
        Exp::Fields(part, _, fields, _) => {
            expression_rules(part.get(), walk);
            labelled(fields.as_slice(), walk);
            walk.put(Rule::Refuse);
        }
    }
}

/// A lexeme, and the expression behind it.
#[cycle(expressions)]
fn behind(exp: &Exp, walk: &mut Walk) {
    walk.pass(1);
    expression_rules(exp, walk);
}

/// An application.
#[cycle(expressions)]
fn each(exps: &[Exp], walk: &mut Walk) {
    for exp in exps {
        expression_rules(exp, walk);
    }
    walk.put(Rule::Apply(exps.len().saturating_sub(1)));
}

/// Expressions in brackets.
#[cycle(expressions)]
fn listed(parts: &[Listed<Exp>], walk: &mut Walk) {
    walk.pass(1);
    for part in parts {
        expression_rules(&part.part, walk);
        walk.maybe(&part.separator);
    }
    walk.pass(1);
}

#[cycle(expressions)]
fn each_operand(operands: &[Operand<Exp>], walk: &mut Walk) {
    let mut operators = Vec::new(walk.alloc());
    for operand in operands {
        put_minus(operand.minus.is_some(), walk, &mut operators);
        expression_rules(&operand.part, walk);
        put_operator(operand, walk, &mut operators);
    }
    walk.put(Rule::Sequence(operands.len(), operators));
}

/// Labelled fields, which are not typed yet.
#[cycle(expressions)]
fn labelled(fields: &[Listed<Field<Exp>>], walk: &mut Walk) {
    walk.pass(1);
    for field in fields {
        pass_label(&field.part.name, walk);
        expression_rules(&field.part.part, walk);
        walk.maybe(&field.separator);
    }
    walk.pass(1);
}

#[cycle(expressions)]
fn each_qualifier(qualifiers: &[Listed<Qualifier>], walk: &mut Walk) {
    walk.pass(1);
    for qualifier in qualifiers {
        qualifier_rules(&qualifier.part, walk);
        walk.maybe(&qualifier.separator);
    }
    walk.pass(1);
}

#[cycle(expressions)]
fn qualifier_rules(qualifier: &Qualifier, walk: &mut Walk) {
    match qualifier {
        Qualifier::Generator(pattern, _, part) => {
            // The expression is outside the pattern's region, but takes its type from the end all the same.
            let mut bound = Vec::new(walk.alloc());
            pattern_rules(pattern, walk, &mut bound);
            behind(part.get(), walk);
            walk.put(Rule::Generator);
        }
        Qualifier::Locals(_, block) => {
            walk.pass(1);
            locals(block, walk);
        }
        Qualifier::Test(part) => {
            expression_rules(part.get(), walk);
            walk.put(Rule::Test);
        }
    }
}

/// The alternatives of a `case`.
#[cycle(expressions)]
fn alternatives(block: &Pieces<Alt>, walk: &mut Walk) {
    walk.brace(&block.layout);
    for piece in block.pieces.as_slice() {
        match piece {
            Piece::Semicolon(_) => walk.pass(1),
            Piece::Part(alt) => alternative(alt, walk),
        }
    }
    walk.brace(&block.layout);
}

#[cycle(expressions)]
fn alternative(alt: &Alt, walk: &mut Walk) {
    let mut bound = Vec::new(walk.alloc());
    pattern_rules(&alt.pattern, walk, &mut bound);
    let from = walk.count();
    body_rules(&alt.body, walk);
    walk.lay_aside(from);
    where_rules(&alt.locals, walk);
    walk.fetch();
    walk.put(Rule::Alternative);
}

/// A right side, which puts one type.
#[cycle(expressions)]
fn body_rules(body: &Body<Exp>, walk: &mut Walk) {
    match body {
        Body::Plain(_, body) => behind(body, walk),
        Body::Guarded(list) => {
            for (index, guarded) in list.as_slice().iter().enumerate() {
                behind(&guarded.guard, walk);
                walk.put(Rule::Test);
                behind(&guarded.body, walk);
                put_same(index, walk);
            }
        }
    }
}

/// The declarations of a `where`.
#[cycle(expressions)]
fn where_rules(locals: &Option<Where<Decl>>, walk: &mut Walk) {
    match locals {
        Some(locals) => {
            walk.pass(1);
            walk.brace(&locals.block.layout);
            let mut block = Block::new(walk.alloc());
            for piece in locals.block.pieces.as_slice() {
                match piece {
                    Piece::Semicolon(_) => walk.pass(1),
                    Piece::Part(decl) => declaration(decl, walk, &mut block),
                }
            }
            walk.brace(&locals.block.layout);
            put_block(block, walk);
        }
        None => {}
    }
}

/// The declarations of a `let`.
#[cycle(expressions)]
fn locals(block: &Pieces<Decl>, walk: &mut Walk) {
    let mut declared = Block::new(walk.alloc());
    declarations(block, walk, &mut declared);
    put_block(declared, walk);
}

/// The declarations of a block.
#[cycle(expressions)]
pub fn declarations(block: &Pieces<Decl>, walk: &mut Walk, declared: &mut Block) {
    walk.brace(&block.layout);
    for piece in block.pieces.as_slice() {
        match piece {
            Piece::Semicolon(_) => walk.pass(1),
            Piece::Part(decl) => declaration(decl, walk, declared),
        }
    }
    walk.brace(&block.layout);
}

#[cycle(expressions)]
fn declaration(decl: &Decl, walk: &mut Walk, block: &mut Block) {
    match decl {
        Decl::Import(import) => pass_import(import, walk),
        Decl::Synonym(_, head, _, ty) => synonym(head, ty, walk),
        Decl::Data(_, head, _, list) => data(head, list.as_slice(), walk),
        Decl::Newtype(_, head, _, only) => newtype(head, only, walk),
        Decl::Signature(names, _, ty) => signature(names.as_slice(), ty, walk, block),
        Decl::Fixity(_, level, operators) => fixity(level, operators.as_slice(), walk),
        Decl::Equation(left, body, locals) => {
            let from = walk.count();
            let head = function_head(left, walk);
            let inner = walk.count();
            body_rules(body, walk);
            walk.lay_aside(inner);
            where_rules(locals, walk);
            walk.fetch();
            put_definition(head, from, walk, block);
        }
        Decl::Binding(pattern, body, locals) => {
            let from = walk.count();
            let head = pattern_head(pattern, walk);
            let inner = walk.count();
            body_rules(body, walk);
            walk.lay_aside(inner);
            where_rules(locals, walk);
            walk.fetch();
            put_definition(Ok(head), from, walk, block);
        }
    }
}

/// The end of an arithmetic sequence.
fn end_numbers(lexemes: usize, count: usize, walk: &mut Walk) {
    walk.pass(lexemes);
    walk.put(Rule::Numbers(count));
}

/// The second of two right sides and those behind it have the type of the first.
fn put_same(index: usize, walk: &mut Walk) {
    if index > 0 {
        walk.put(Rule::Same);
    }
}
