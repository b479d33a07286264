//! Expressions, and the declarations and alternatives that stand in them. What calls itself is here
//! alone, and most of its steps are one call of what stands outside.
ghost use Rattle.std.specs.Prelude.{◌≡◌, ◌∷◌, [], ◌++◌, OnOk, fold};
ghost use Rattle.std.specs.List.{flat_map};
ghost use Rattle.hr_tree.specs.Lists.{block_items, body_items, field_items, listed_items, operand_items, where_items};
ghost use Rattle.hr_tree.specs.Yields.{alt_items, decl_items, exp_items, qualifier_items};

use crate::walk::Visitor;
use crate::walk::declarations::{
    walk_data, walk_fixity, walk_left_side, walk_newtype, walk_signature, walk_synonym,
};
use crate::walk::modules::walk_import;
use crate::walk::names::{
    visit_closing, visit_maybe, visit_opening, visit_two, walk_constructor, walk_maybe_operator,
    walk_operator_before, walk_operator_behind, walk_variable,
};
use crate::walk::patterns::{walk_pat, walk_pats_behind};
use crate::walk::types::walk_ty_behind;
use crate::{Alt, Block, Body, Decl, Exp, Field, Listed, Operand, Piece, Qualifier, Where};
use hr_base::Item;

#[cycle(expressions)]
#[tactic(auto, using(crate::proofs::ExpressionYields::exp_yields))]
fn walk_exp<V: Visitor>(exp: &Exp, visitor: &mut V) -> Result<(), V::Fault>
    ensures { OnOk result (visitor.new ≡ fold V.behind visitor.old (exp_items exp.now)) }
{
    match exp {
        Exp::Variable(variable) => walk_variable(variable, visitor),
        Exp::Constructor(constructor) => walk_constructor(constructor, visitor),
        Exp::Literal(literal) => visitor.visit(literal),
        Exp::Group(left, part, right) => {
            walk_behind(left, part.get(), visitor)?;
            visitor.visit(right)
        }
        Exp::Tuple(left, parts, right) => walk_list(left, parts.as_slice(), right, visitor),
        Exp::List(left, parts, right) => walk_list(left, parts.as_slice(), right, visitor),
        Exp::From(left, first, dots, right) => {
            walk_behind(left, first.get(), visitor)?;
            visit_two(dots, right, visitor)
        }
        Exp::FromThen(left, first, comma, second, dots, right) => {
            walk_behind(left, first.get(), visitor)?;
            walk_behind(comma, second.get(), visitor)?;
            visit_two(dots, right, visitor)
        }
        Exp::FromTo(left, first, dots, last, right) => {
            walk_behind(left, first.get(), visitor)?;
            walk_behind(dots, last.get(), visitor)?;
            visitor.visit(right)
        }
        Exp::FromThenTo(left, first, comma, second, dots, last, right) => {
            walk_behind(left, first.get(), visitor)?;
            walk_behind(comma, second.get(), visitor)?;
            walk_behind(dots, last.get(), visitor)?;
            visitor.visit(right)
        }
        Exp::Comprehension(left, part, bar, qualifiers, right) => {
            walk_behind(left, part.get(), visitor)?;
            walk_qualifiers(bar, qualifiers.as_slice(), right, visitor)
        }
        Exp::LeftSection(left, part, operator, right) => {
            walk_behind(left, part.get(), visitor)?;
            walk_operator_before(operator, right, visitor)
        }
        Exp::RightSection(left, operator, part, right) => {
            walk_operator_behind(left, operator, visitor)?;
            walk_exp(part.get(), visitor)?;
            visitor.visit(right)
        }
        Exp::Apply(atoms) => walk_exps(atoms.as_slice(), visitor),
        Exp::Infix(operands) => walk_operands(operands.as_slice(), visitor),
        Exp::Annotated(part, colons, ty) => {
            walk_exp(part.get(), visitor)?;
            walk_ty_behind(colons, ty, visitor)
        }
        Exp::Lambda(mark, patterns, arrow, body) => {
            walk_pats_behind(mark, patterns.as_slice(), visitor)?;
            walk_behind(arrow, body.get(), visitor)
        }
        Exp::Let(word, block, in_word, body) => {
            walk_decls_behind(word, block, visitor)?;
            walk_behind(in_word, body.get(), visitor)
        }
        Exp::If(word, test, then_word, first, else_word, second) => {
            walk_behind(word, test.get(), visitor)?;
            walk_behind(then_word, first.get(), visitor)?;
            walk_behind(else_word, second.get(), visitor)
        }
        Exp::Case(word, part, of_word, block) => {
            walk_behind(word, part.get(), visitor)?;
            walk_alts_behind(of_word, block, visitor)
        }
        Exp::Fields(part, left, fields, right) => {
            walk_exp(part.get(), visitor)?;
            walk_fields(left, fields.as_slice(), right, visitor)
        }
    }
}

/// A lexeme, and the expression behind it.
#[cycle(expressions)]
fn walk_behind<V: Visitor>(item: &Item, exp: &Exp, visitor: &mut V) -> Result<(), V::Fault>
    ensures { OnOk result (visitor.new ≡ fold V.behind visitor.old (item.now ∷ exp_items exp.now)) }
{
    visitor.visit(item)?;
    walk_exp(exp, visitor)
}

#[cycle(expressions)]
fn walk_exps<V: Visitor>(exps: &[Exp], visitor: &mut V) -> Result<(), V::Fault>
    ensures { OnOk result (visitor.new ≡ fold V.behind visitor.old (flat_map exp_items exps.now)) }
{
    for exp in exps {
        walk_exp(exp, visitor)?;
    }
    Ok(())
}

#[cycle(expressions)]
fn walk_list<V: Visitor>(
    left: &Item,
    parts: &[Listed<Exp>],
    right: &Item,
    visitor: &mut V,
) -> Result<(), V::Fault>
    ensures { OnOk result (visitor.new ≡ fold V.behind visitor.old (left.now ∷ (flat_map (listed_items exp_items) parts.now ++ right.now ∷ []))) }
{
    visitor.visit(left)?;
    for part in parts {
        walk_exp(&part.part, visitor)?;
        visit_maybe(&part.separator, visitor)?;
    }
    visitor.visit(right)
}

#[cycle(expressions)]
fn walk_operands<V: Visitor>(operands: &[Operand<Exp>], visitor: &mut V) -> Result<(), V::Fault>
    ensures { OnOk result (visitor.new ≡ fold V.behind visitor.old (flat_map (operand_items exp_items) operands.now)) }
{
    for operand in operands {
        visit_maybe(&operand.minus, visitor)?;
        walk_exp(&operand.part, visitor)?;
        walk_maybe_operator(&operand.operator, visitor)?;
    }
    Ok(())
}

#[cycle(expressions)]
fn walk_fields<V: Visitor>(
    left: &Item,
    fields: &[Listed<Field<Exp>>],
    right: &Item,
    visitor: &mut V,
) -> Result<(), V::Fault>
    ensures { OnOk result (visitor.new ≡ fold V.behind visitor.old (left.now ∷ (flat_map (listed_items (field_items exp_items)) fields.now ++ right.now ∷ []))) }
{
    visitor.visit(left)?;
    for field in fields {
        walk_variable(&field.part.name, visitor)?;
        walk_behind(&field.part.equals, &field.part.part, visitor)?;
        visit_maybe(&field.separator, visitor)?;
    }
    visitor.visit(right)
}

#[cycle(expressions)]
fn walk_qualifiers<V: Visitor>(
    bar: &Item,
    qualifiers: &[Listed<Qualifier>],
    right: &Item,
    visitor: &mut V,
) -> Result<(), V::Fault>
    ensures { OnOk result (visitor.new ≡ fold V.behind visitor.old (bar.now ∷ (flat_map (listed_items qualifier_items) qualifiers.now ++ right.now ∷ []))) }
{
    visitor.visit(bar)?;
    for qualifier in qualifiers {
        walk_qualifier(&qualifier.part, visitor)?;
        visit_maybe(&qualifier.separator, visitor)?;
    }
    visitor.visit(right)
}

#[cycle(expressions)]
#[tactic(auto, using(crate::proofs::ExpressionYields::qualifier_yields))]
fn walk_qualifier<V: Visitor>(qualifier: &Qualifier, visitor: &mut V) -> Result<(), V::Fault>
    ensures { OnOk result (visitor.new ≡ fold V.behind visitor.old (qualifier_items qualifier.now)) }
{
    match qualifier {
        Qualifier::Generator(pattern, arrow, part) => {
            walk_pat(pattern, visitor)?;
            walk_behind(arrow, part.get(), visitor)
        }
        Qualifier::Locals(word, block) => walk_decls_behind(word, block, visitor),
        Qualifier::Test(part) => walk_exp(part.get(), visitor),
    }
}

/// A lexeme, and the block of declarations behind it.
#[cycle(expressions)]
fn walk_decls_behind<V: Visitor>(
    word: &Item,
    block: &Block<Decl>,
    visitor: &mut V,
) -> Result<(), V::Fault>
    ensures { OnOk result (visitor.new ≡ fold V.behind visitor.old (word.now ∷ block_items decl_items block.now)) }
{
    visitor.visit(word)?;
    walk_decls(block, visitor)
}

#[cycle(expressions)]
pub fn walk_decls<V: Visitor>(block: &Block<Decl>, visitor: &mut V) -> Result<(), V::Fault>
    ensures { OnOk result (visitor.new ≡ fold V.behind visitor.old (block_items decl_items block.now)) }
{
    visit_opening(&block.layout, visitor)?;
    for piece in block.pieces.as_slice() {
        match piece {
            Piece::Semicolon(item) => visitor.visit(item)?,
            Piece::Part(decl) => walk_decl(decl, visitor)?,
        }
    }
    visit_closing(&block.layout, visitor)
}

/// A lexeme, and the block of alternatives behind it.
#[cycle(expressions)]
fn walk_alts_behind<V: Visitor>(
    word: &Item,
    block: &Block<Alt>,
    visitor: &mut V,
) -> Result<(), V::Fault>
    ensures { OnOk result (visitor.new ≡ fold V.behind visitor.old (word.now ∷ block_items alt_items block.now)) }
{
    visitor.visit(word)?;
    visit_opening(&block.layout, visitor)?;
    for piece in block.pieces.as_slice() {
        match piece {
            Piece::Semicolon(semicolon) => visitor.visit(semicolon)?,
            Piece::Part(alt) => walk_alt(alt, visitor)?,
        }
    }
    visit_closing(&block.layout, visitor)
}

#[cycle(expressions)]
#[tactic(auto, using(crate::proofs::ExpressionYields::alt_yields))]
fn walk_alt<V: Visitor>(alt: &Alt, visitor: &mut V) -> Result<(), V::Fault>
    ensures { OnOk result (visitor.new ≡ fold V.behind visitor.old (alt_items alt.now)) }
{
    walk_pat(&alt.pattern, visitor)?;
    walk_body(&alt.body, visitor)?;
    walk_where(&alt.locals, visitor)
}

#[cycle(expressions)]
fn walk_body<V: Visitor>(body: &Body<Exp>, visitor: &mut V) -> Result<(), V::Fault>
    ensures { OnOk result (visitor.new ≡ fold V.behind visitor.old (body_items exp_items body.now)) }
{
    match body {
        Body::Plain(mark, body) => walk_behind(mark, body, visitor),
        Body::Guarded(list) => {
            for guarded in list.as_slice() {
                walk_behind(&guarded.bar, &guarded.guard, visitor)?;
                walk_behind(&guarded.mark, &guarded.body, visitor)?;
            }
            Ok(())
        }
    }
}

#[cycle(expressions)]
fn walk_where<V: Visitor>(locals: &Option<Where<Decl>>, visitor: &mut V) -> Result<(), V::Fault>
    ensures { OnOk result (visitor.new ≡ fold V.behind visitor.old (where_items decl_items locals.now)) }
{
    match locals {
        Some(locals) => {
            visitor.visit(&locals.word)?;
            visit_opening(&locals.block.layout, visitor)?;
            for piece in locals.block.pieces.as_slice() {
                match piece {
                    Piece::Semicolon(mark) => visitor.visit(mark)?,
                    Piece::Part(decl) => walk_decl(decl, visitor)?,
                }
            }
            visit_closing(&locals.block.layout, visitor)
        }
        None => Ok(()),
    }
}

#[cycle(expressions)]
#[tactic(auto, using(crate::proofs::ExpressionYields::decl_yields))]
fn walk_decl<V: Visitor>(decl: &Decl, visitor: &mut V) -> Result<(), V::Fault>
    ensures { OnOk result (visitor.new ≡ fold V.behind visitor.old (decl_items decl.now)) }
{
    match decl {
        Decl::Import(import) => walk_import(import, visitor),
        Decl::Synonym(word, head, equals, ty) => walk_synonym(word, head, equals, ty, visitor),
        Decl::Data(word, head, equals, list) => {
            walk_data(word, head, equals, list.as_slice(), visitor)
        }
        Decl::Newtype(word, head, equals, only) => walk_newtype(word, head, equals, only, visitor),
        Decl::Signature(names, colons, ty) => walk_signature(names.as_slice(), colons, ty, visitor),
        Decl::Fixity(word, level, operators) => {
            walk_fixity(word, level, operators.as_slice(), visitor)
        }
        Decl::Equation(left, body, locals) => {
            walk_left_side(left, visitor)?;
            walk_body(body, visitor)?;
            walk_where(locals, visitor)?;
            Ok(())
        }
        Decl::Binding(pattern, body, locals) => {
            walk_pat(pattern, visitor)?;
            walk_body(body, visitor)?;
            walk_where(locals, visitor)?;
            Ok(())
        }
    }
}
