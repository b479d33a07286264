ghost use Rattle.std.specs.Prelude.{◌≡◌, ◌∷◌, [], ◌++◌, OnOk, fold};
ghost use Rattle.std.specs.List.{flat_map};
ghost use Rattle.hr_scope_rules.specs.Events.{after, Event, plain};
ghost use Rattle.hr_scope_rules.specs.Phrases.{field_events, listed_events, pat_events, sequence_events};
ghost use Rattle.hr_outline.specs.Seen.{seen};

use crate::Outline;
use crate::names::{read_constructor, read_joining, read_maybe, read_minus, read_variable};
use hr_base::Item;
use hr_scope_rules::{Joint, Naming};
use hr_tree::{Field, Listed, Operand, Pat};
use std::alloc::AllocError;

#[cycle(patterns)]
#[tactic(auto, using(crate::proofs::PatternEvents::pat_read))]
pub(crate) fn read_pat<'a>(pat: &'a Pat, out: &mut Outline<'a>) -> Result<(), AllocError>
    ensures { OnOk result (seen out.new ≡ fold after (seen out.old) (pat_events pat.now)) }
{
    match pat {
        Pat::Variable(variable) => read_variable(variable, Naming::Bound, out),
        Pat::Wildcard(item) => out.plain(item),
        Pat::Literal(item) => out.plain(item),
        Pat::Negative(minus, literal) => read_negative(minus, literal, out),
        Pat::Constructor(constructor) => read_constructor(constructor, Naming::Used, out),
        Pat::As(variable, mark, part) => {
            read_variable(variable, Naming::Bound, out)?;
            read_behind(mark, part.get(), out)
        }
        Pat::Lazy(mark, part) => read_behind(mark, part.get(), out),
        Pat::Apply(constructor, arguments) => {
            read_constructor(constructor, Naming::Used, out)?;
            read_pats(arguments.as_slice(), out)
        }
        Pat::Infix(operands) => read_operands(operands.as_slice(), out),
        Pat::Tuple(left, parts, right) => read_list(left, parts.as_slice(), right, out),
        Pat::List(left, parts, right) => read_list(left, parts.as_slice(), right, out),
        Pat::Group(left, part, right) => {
            read_behind(left, part.get(), out)?;
            out.plain(right)
        }
        Pat::Fields(constructor, left, fields, right) => {
            read_constructor(constructor, Naming::Used, out)?;
            read_fields(left, fields.as_slice(), right, out)
        }
    }
}

/// A negative integer: in an infix sequence its minus is a part of the sequence.
fn read_negative<'a>(
    minus: &'a Item,
    literal: &'a Item,
    out: &mut Outline<'a>,
) -> Result<(), AllocError>
    ensures { OnOk result (seen out.new ≡ fold after (seen out.old) (Event.Join Joint.Minus ∷ plain minus.now ∷ plain literal.now ∷ [])) }
{
    out.join(Joint::Minus)?;
    out.plain(minus)?;
    out.plain(literal)
}

/// A lexeme that is no name, and the pattern behind it.
#[cycle(patterns)]
fn read_behind<'a>(item: &'a Item, pat: &'a Pat, out: &mut Outline<'a>) -> Result<(), AllocError>
    ensures { OnOk result (seen out.new ≡ fold after (seen out.old) (plain item.now ∷ pat_events pat.now)) }
{
    out.plain(item)?;
    read_pat(pat, out)
}

#[cycle(patterns)]
pub(crate) fn read_pats<'a>(pats: &'a [Pat], out: &mut Outline<'a>) -> Result<(), AllocError>
    ensures { OnOk result (seen out.new ≡ fold after (seen out.old) (flat_map pat_events pats.now)) }
{
    for pat in pats {
        read_pat(pat, out)?;
    }
    Ok(())
}

#[cycle(patterns)]
fn read_list<'a>(
    left: &'a Item,
    parts: &'a [Listed<Pat>],
    right: &'a Item,
    out: &mut Outline<'a>,
) -> Result<(), AllocError>
    ensures { OnOk result (seen out.new ≡ fold after (seen out.old) (plain left.now ∷ (flat_map (listed_events pat_events) parts.now ++ plain right.now ∷ []))) }
{
    out.plain(left)?;
    for part in parts {
        read_pat(&part.part, out)?;
        read_maybe(&part.separator, out)?;
    }
    out.plain(right)
}

#[cycle(patterns)]
fn read_operands<'a>(operands: &'a [Operand<Pat>], out: &mut Outline<'a>) -> Result<(), AllocError>
    ensures { OnOk result (seen out.new ≡ fold after (seen out.old) (sequence_events Joint.Pattern pat_events operands.now)) }
{
    out.join(Joint::Pattern)?;
    for operand in operands {
        read_minus(&operand.minus, out)?;
        read_pat(&operand.part, out)?;
        read_joining(&operand.operator, out)?;
    }
    out.join(Joint::End)
}

#[cycle(patterns)]
fn read_fields<'a>(
    left: &'a Item,
    fields: &'a [Listed<Field<Pat>>],
    right: &'a Item,
    out: &mut Outline<'a>,
) -> Result<(), AllocError>
    ensures { OnOk result (seen out.new ≡ fold after (seen out.old) (plain left.now ∷ (flat_map (listed_events (field_events pat_events)) fields.now ++ plain right.now ∷ []))) }
{
    out.plain(left)?;
    for field in fields {
        read_variable(&field.part.name, Naming::Plain, out)?;
        read_behind(&field.part.equals, &field.part.part, out)?;
        read_maybe(&field.separator, out)?;
    }
    out.plain(right)
}
