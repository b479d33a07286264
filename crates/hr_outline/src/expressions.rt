//! Expressions, and the declarations and alternatives that stand in them. What calls itself is here alone.
ghost use Rattle.std.specs.Prelude.{◌≡◌, ◌∷◌, [], ◌++◌, OnOk, fold};
ghost use Rattle.std.specs.List.{flat_map};
ghost use Rattle.hr_scope_rules.specs.Events.{after, Event, plain};
ghost use Rattle.hr_scope_rules.specs.Phrases.{field_events, listed_events, sequence_events};
ghost use Rattle.hr_scope_rules.specs.Outline.{all_left, alt_events, alternatives_events, block_events, body_events, declared_of, exp_events, qualified_of, qualifiers_events, where_events};
ghost use Rattle.hr_outline.specs.Seen.{seen};

use crate::Outline;
use crate::declarations::{
    read_data, read_first_pat, read_fixity, read_generator, read_inner_pat, read_lambda,
    read_left_side, read_newtype, read_signature, read_synonym, read_word_in,
};
use crate::going_on::{defined, goes_on};
use crate::lists::{read_closing, read_import, read_opening};
use crate::names::{
    read_constructor, read_joining, read_maybe, read_minus, read_operator_before,
    read_operator_behind, read_two, read_variable,
};
use crate::regions::{
    close_region, end_comprehension, end_construct, enter_all, enter_if, enter_where, leave_all,
    opens,
};
use crate::types::read_ty_behind;
use hr_base::Item;
use hr_scope_rules::{Joint, Naming};
use hr_tree::{Alt, Block, Body, Decl, Exp, Field, Listed, Operand, Piece, Qualifier, Where};
use std::alloc::AllocError;

#[cycle(expressions)]
#[tactic(auto, using(crate::proofs::ExpressionEvents::exp_read))]
fn read_exp<'a>(exp: &'a Exp, out: &mut Outline<'a>) -> Result<(), AllocError>
    ensures { OnOk result (seen out.new ≡ fold after (seen out.old) (exp_events exp.now)) }
{
    match exp {
        Exp::Variable(variable) => read_variable(variable, Naming::Used, out),
        Exp::Constructor(constructor) => read_constructor(constructor, Naming::Used, out),
        Exp::Literal(literal) => out.plain(literal),
        Exp::Group(left, part, right) => read_between(left, part.get(), right, out),
        Exp::Tuple(left, parts, right) => read_list(left, parts.as_slice(), right, out),
        Exp::List(left, parts, right) => read_list(left, parts.as_slice(), right, out),
        Exp::From(left, first, dots, right) => {
            read_behind(left, first.get(), out)?;
            read_two(dots, right, out)
        }
        Exp::FromThen(left, first, comma, second, dots, right) => {
            read_behind(left, first.get(), out)?;
            read_behind(comma, second.get(), out)?;
            read_two(dots, right, out)
        }
        Exp::FromTo(left, first, dots, last, right) => {
            read_behind(left, first.get(), out)?;
            read_between(dots, last.get(), right, out)
        }
        Exp::FromThenTo(left, first, comma, second, dots, last, right) => {
            read_behind(left, first.get(), out)?;
            read_behind(comma, second.get(), out)?;
            read_between(dots, last.get(), right, out)
        }
        Exp::Comprehension(left, part, bar, qualifiers, right) => {
            enter_all(left, qualifiers.as_slice(), out)?;
            read_exp(part.get(), out)?;
            leave_all(qualifiers.as_slice(), out);
            read_qualifiers(bar, qualifiers.as_slice(), right, out)
        }
        Exp::LeftSection(left, part, operator, right) => {
            read_behind(left, part.get(), out)?;
            read_operator_before(operator, right, out)
        }
        Exp::RightSection(left, operator, part, right) => {
            read_operator_behind(left, operator, out)?;
            read_exp(part.get(), out)?;
            out.plain(right)
        }
        Exp::Apply(atoms) => read_exps(atoms.as_slice(), out),
        Exp::Infix(operands) => read_operands(operands.as_slice(), out),
        Exp::Annotated(part, colons, ty) => {
            read_exp(part.get(), out)?;
            read_ty_behind(colons, ty, out)
        }
        Exp::Lambda(mark, patterns, arrow, body) => {
            read_lambda(mark, patterns.as_slice(), arrow, out)?;
            read_exp(body.get(), out)?;
            out.close();
            Ok(())
        }
        Exp::Let(word, block, in_word, body) => {
            read_word_in(word, out)?;
            read_block(block, out)?;
            read_behind(in_word, body.get(), out)?;
            out.close();
            Ok(())
        }
        Exp::If(word, test, then_word, first, else_word, second) => {
            read_behind(word, test.get(), out)?;
            read_behind(then_word, first.get(), out)?;
            read_behind(else_word, second.get(), out)
        }
        Exp::Case(word, part, of_word, block) => {
            read_behind(word, part.get(), out)?;
            read_alternatives(of_word, block, out)
        }
        Exp::Fields(part, left, fields, right) => {
            read_exp(part.get(), out)?;
            read_fields(left, fields.as_slice(), right, out)
        }
    }
}

/// A lexeme that is no name, and the expression behind it.
#[cycle(expressions)]
fn read_behind<'a>(item: &'a Item, exp: &'a Exp, out: &mut Outline<'a>) -> Result<(), AllocError>
    ensures { OnOk result (seen out.new ≡ fold after (seen out.old) (plain item.now ∷ exp_events exp.now)) }
{
    out.plain(item)?;
    read_exp(exp, out)
}

/// An expression between two lexemes that are no names.
#[cycle(expressions)]
fn read_between<'a>(
    left: &'a Item,
    exp: &'a Exp,
    right: &'a Item,
    out: &mut Outline<'a>,
) -> Result<(), AllocError>
    ensures { OnOk result (seen out.new ≡ fold after (seen out.old) (plain left.now ∷ (exp_events exp.now ++ plain right.now ∷ []))) }
{
    out.plain(left)?;
    read_exp(exp, out)?;
    out.plain(right)
}

#[cycle(expressions)]
fn read_exps<'a>(exps: &'a [Exp], out: &mut Outline<'a>) -> Result<(), AllocError>
    ensures { OnOk result (seen out.new ≡ fold after (seen out.old) (flat_map exp_events exps.now)) }
{
    for exp in exps {
        read_exp(exp, out)?;
    }
    Ok(())
}

#[cycle(expressions)]
fn read_list<'a>(
    left: &'a Item,
    parts: &'a [Listed<Exp>],
    right: &'a Item,
    out: &mut Outline<'a>,
) -> Result<(), AllocError>
    ensures { OnOk result (seen out.new ≡ fold after (seen out.old) (plain left.now ∷ (flat_map (listed_events exp_events) parts.now ++ plain right.now ∷ []))) }
{
    out.plain(left)?;
    for part in parts {
        read_exp(&part.part, out)?;
        read_maybe(&part.separator, out)?;
    }
    out.plain(right)
}

#[cycle(expressions)]
fn read_operands<'a>(operands: &'a [Operand<Exp>], out: &mut Outline<'a>) -> Result<(), AllocError>
    ensures { OnOk result (seen out.new ≡ fold after (seen out.old) (sequence_events Joint.Expression exp_events operands.now)) }
{
    out.join(Joint::Expression)?;
    for operand in operands {
        read_minus(&operand.minus, out)?;
        read_exp(&operand.part, out)?;
        read_joining(&operand.operator, out)?;
    }
    out.join(Joint::End)
}

#[cycle(expressions)]
fn read_fields<'a>(
    left: &'a Item,
    fields: &'a [Listed<Field<Exp>>],
    right: &'a Item,
    out: &mut Outline<'a>,
) -> Result<(), AllocError>
    ensures { OnOk result (seen out.new ≡ fold after (seen out.old) (plain left.now ∷ (flat_map (listed_events (field_events exp_events)) fields.now ++ plain right.now ∷ []))) }
{
    out.plain(left)?;
    for field in fields {
        read_variable(&field.part.name, Naming::Plain, out)?;
        read_behind(&field.part.equals, &field.part.part, out)?;
        read_maybe(&field.separator, out)?;
    }
    out.plain(right)
}

/// The qualifiers of a comprehension, up to its end. The region of each is round those behind it.
#[cycle(expressions)]
fn read_qualifiers<'a>(
    bar: &'a Item,
    qualifiers: &'a [Listed<Qualifier>],
    right: &'a Item,
    out: &mut Outline<'a>,
) -> Result<(), AllocError>
    ensures { OnOk result (seen out.new ≡ fold after (seen out.old) (plain bar.now ∷ (qualifiers_events qualified_of 0 qualifiers.now ++ (all_left qualified_of qualifiers.now ++ plain right.now ∷ Event.End ∷ [])))) }
{
    out.plain(bar)?;
    for (index, listed) in qualifiers.iter().enumerate() {
        read_qualifier(&listed.part, index, out)?;
        read_maybe(&listed.separator, out)?;
        enter_if(opens(&listed.part), index, out)?;
    }
    end_comprehension(qualifiers, right, out)
}

#[cycle(expressions)]
#[tactic(auto, using(crate::proofs::ExpressionEvents::qualifier_read))]
fn read_qualifier<'a>(
    qualifier: &'a Qualifier,
    index: usize,
    out: &mut Outline<'a>,
) -> Result<(), AllocError>
    ensures { OnOk result (seen out.new ≡ fold after (seen out.old) ((qualified_of qualifier.now).events index)) }
{
    match qualifier {
        Qualifier::Generator(pattern, arrow, part) => {
            read_generator(pattern, arrow, index, out)?;
            read_exp(part.get(), out)
        }
        Qualifier::Locals(word, block) => {
            out.plain(word)?;
            out.enter(index)?;
            read_block(block, out)?;
            out.leave();
            Ok(())
        }
        Qualifier::Test(part) => read_exp(part.get(), out),
    }
}

#[cycle(expressions)]
pub(crate) fn read_block<'a>(
    block: &'a Block<Decl>,
    out: &mut Outline<'a>,
) -> Result<(), AllocError>
    ensures { OnOk result (seen out.new ≡ fold after (seen out.old) (block_events declared_of block.now)) }
{
    read_opening(&block.layout, out)?;
    let mut before = None;
    for piece in block.pieces.as_slice() {
        let decl = match piece {
            Piece::Semicolon(item) => {
                out.plain(item)?;
                continue;
            }
            Piece::Part(decl) => decl,
        };
        read_decl(decl, goes_on(before, decl), out)?;
        before = defined(decl);
    }
    read_closing(&block.layout, out)
}

#[cycle(expressions)]
#[tactic(auto, using(crate::proofs::ExpressionEvents::decl_read))]
fn read_decl<'a>(decl: &'a Decl, goes_on: bool, out: &mut Outline<'a>) -> Result<(), AllocError>
    ensures { OnOk result (seen out.new ≡ fold after (seen out.old) ((declared_of decl.now).events goes_on)) }
{
    match decl {
        Decl::Import(import) => read_import(import, out),
        Decl::Synonym(word, head, equals, ty) => read_synonym(word, head, equals, ty, out),
        Decl::Data(word, head, equals, list) => {
            read_data(word, head, equals, list.as_slice(), out)
        }
        Decl::Newtype(word, head, equals, only) => read_newtype(word, head, equals, only, out),
        Decl::Signature(names, colons, ty) => read_signature(names.as_slice(), colons, ty, out),
        Decl::Fixity(word, level, operators) => {
            read_fixity(word, level, operators.as_slice(), out)
        }
        Decl::Equation(left, body, locals) => {
            read_left_side(left, goes_on, out)?;
            enter_where(locals, out)?;
            read_body(body, out)?;
            read_where(locals, out)?;
            close_region(out);
            Ok(())
        }
        Decl::Binding(pattern, body, locals) => {
            read_first_pat(pattern, out)?;
            enter_where(locals, out)?;
            read_body(body, out)?;
            read_where(locals, out)?;
            end_construct(out);
            Ok(())
        }
    }
}

/// A `where` and its block, up to the end of its region, which is open.
#[cycle(expressions)]
fn read_where<'a>(locals: &'a Option<Where<Decl>>, out: &mut Outline<'a>) -> Result<(), AllocError>
    ensures { OnOk result (seen out.new ≡ fold after (seen out.old) (where_events declared_of locals.now)) }
{
    match locals {
        Some(locals) => {
            out.plain(&locals.word)?;
            read_opening(&locals.block.layout, out)?;
            let mut before = None;
            for piece in locals.block.pieces.as_slice() {
                let decl = match piece {
                    Piece::Semicolon(item) => {
                        out.plain(item)?;
                        continue;
                    }
                    Piece::Part(decl) => decl,
                };
                read_decl(decl, goes_on(before, decl), out)?;
                before = defined(decl);
            }
            read_closing(&locals.block.layout, out)?;
            out.leave();
            Ok(())
        }
        None => Ok(()),
    }
}

#[cycle(expressions)]
fn read_body<'a>(body: &'a Body<Exp>, out: &mut Outline<'a>) -> Result<(), AllocError>
    ensures { OnOk result (seen out.new ≡ fold after (seen out.old) (body_events exp_events body.now)) }
{
    match body {
        Body::Plain(mark, exp) => read_behind(mark, exp, out),
        Body::Guarded(list) => {
            for guarded in list.as_slice() {
                read_behind(&guarded.bar, &guarded.guard, out)?;
                read_behind(&guarded.mark, &guarded.body, out)?;
            }
            Ok(())
        }
    }
}

#[cycle(expressions)]
fn read_alternatives<'a>(
    of_word: &'a Item,
    block: &'a Block<Alt>,
    out: &mut Outline<'a>,
) -> Result<(), AllocError>
    ensures { OnOk result (seen out.new ≡ fold after (seen out.old) (plain of_word.now ∷ alternatives_events alt_events block.now)) }
{
    out.plain(of_word)?;
    read_opening(&block.layout, out)?;
    for piece in block.pieces.as_slice() {
        match piece {
            Piece::Semicolon(item) => out.plain(item)?,
            Piece::Part(alternative) => read_alternative(alternative, out)?,
        }
    }
    read_closing(&block.layout, out)
}

#[cycle(expressions)]
#[tactic(auto, using(crate::proofs::ExpressionEvents::alt_read))]
fn read_alternative<'a>(alternative: &'a Alt, out: &mut Outline<'a>) -> Result<(), AllocError>
    ensures { OnOk result (seen out.new ≡ fold after (seen out.old) (alt_events alternative.now)) }
{
    read_inner_pat(&alternative.pattern, out)?;
    enter_where(&alternative.locals, out)?;
    read_body(&alternative.body, out)?;
    read_where(&alternative.locals, out)?;
    out.close();
    Ok(())
}
