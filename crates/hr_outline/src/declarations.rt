//! What stands in declarations beside expressions.
ghost use Rattle.std.specs.Prelude.{◌≡◌, ◌∷◌, [], ◌++◌, OnOk, fold, map};
ghost use Rattle.std.specs.List.{flat_map};
ghost use Rattle.hr_scope_rules.specs.Events.{after, plain_events, Event, plain};
ghost use Rattle.hr_scope_rules.specs.Phrases.{listed_events, maybe_events, operator_events, pat_events, ty_events, variable_events};
ghost use Rattle.hr_scope_rules.specs.Outline.{closed_events, construction_events, field_type_events, head_events, left_head_events, left_side_events};
ghost use Rattle.hr_outline.specs.Seen.{seen};

use crate::Outline;
use crate::names::{
    read_all_plain, read_constructor, read_maybe, read_operator, read_operators, read_variable,
    read_variables,
};
use crate::patterns::{read_pat, read_pats};
use crate::types::{read_ty, read_ty_behind, read_types};
use hr_base::Item;
use hr_scope_rules::{Joint, Naming};
use hr_tree::{
    Closed, Construction, FieldType, LeftHead, LeftSide, Listed, Operator, Pat, Ty, TypeHead,
    Variable,
};
use std::alloc::AllocError;

/// `type T a = t`
pub(crate) fn read_synonym<'a>(
    word: &'a Item,
    head: &'a TypeHead,
    equals: &'a Item,
    ty: &'a Ty,
    out: &mut Outline<'a>,
) -> Result<(), AllocError>
    ensures { OnOk result (seen out.new ≡ fold after (seen out.old) (plain word.now ∷ (head_events head.now ++ plain equals.now ∷ ty_events ty.now))) }
{
    out.plain(word)?;
    read_head(head, out)?;
    read_ty_behind(equals, ty, out)
}

/// `data T a = C t | ..`
pub(crate) fn read_data<'a>(
    word: &'a Item,
    head: &'a TypeHead,
    equals: &'a Item,
    constructions: &'a [Listed<Construction>],
    out: &mut Outline<'a>,
) -> Result<(), AllocError>
    ensures { OnOk result (seen out.new ≡ fold after (seen out.old) (plain word.now ∷ (head_events head.now ++ plain equals.now ∷ flat_map (listed_events construction_events) constructions.now))) }
{
    out.plain(word)?;
    read_head(head, out)?;
    out.plain(equals)?;
    read_constructions(constructions, out)
}

/// `newtype T a = C t`
pub(crate) fn read_newtype<'a>(
    word: &'a Item,
    head: &'a TypeHead,
    equals: &'a Item,
    construction: &'a Construction,
    out: &mut Outline<'a>,
) -> Result<(), AllocError>
    ensures { OnOk result (seen out.new ≡ fold after (seen out.old) (plain word.now ∷ (head_events head.now ++ plain equals.now ∷ construction_events construction.now))) }
{
    out.plain(word)?;
    read_head(head, out)?;
    out.plain(equals)?;
    read_construction(construction, out)
}

/// The head of a type's declaration. Its variables are in a region of their own.
fn read_head<'a>(head: &'a TypeHead, out: &mut Outline<'a>) -> Result<(), AllocError>
    ensures { OnOk result (seen out.new ≡ fold after (seen out.old) (head_events head.now)) }
{
    out.begin()?;
    out.put(&head.name, Naming::Headed)?;
    out.enter(0)?;
    read_parameters(head.variables.as_slice(), out)?;
    out.close();
    Ok(())
}

fn read_parameters<'a>(items: &'a [Item], out: &mut Outline<'a>) -> Result<(), AllocError>
    ensures { OnOk result (seen out.new ≡ fold after (seen out.old) (map (Event.Lexeme Naming.Parameter) items.now)) }
{
    for item in items {
        out.put(item, Naming::Parameter)?;
    }
    Ok(())
}

fn read_constructions<'a>(
    list: &'a [Listed<Construction>],
    out: &mut Outline<'a>,
) -> Result<(), AllocError>
    ensures { OnOk result (seen out.new ≡ fold after (seen out.old) (flat_map (listed_events construction_events) list.now)) }
{
    for listed in list {
        read_construction(&listed.part, out)?;
        read_maybe(&listed.separator, out)?;
    }
    Ok(())
}

fn read_construction<'a>(
    construction: &'a Construction,
    out: &mut Outline<'a>,
) -> Result<(), AllocError>
    ensures { OnOk result (seen out.new ≡ fold after (seen out.old) (construction_events construction.now)) }
{
    match construction {
        Construction::Prefix(constructor, types) => {
            read_constructor(constructor, Naming::Constructed, out)?;
            read_types(types.as_slice(), out)
        }
        Construction::Infix(first, operator, second) => {
            read_ty(first, out)?;
            read_operator(operator, Naming::Constructed, out)?;
            read_ty(second, out)
        }
        Construction::Fields(constructor, left, fields, right) => {
            read_constructor(constructor, Naming::Constructed, out)?;
            out.plain(left)?;
            read_field_types(fields.as_slice(), out)?;
            out.plain(right)
        }
    }
}

fn read_field_types<'a>(
    list: &'a [Listed<FieldType>],
    out: &mut Outline<'a>,
) -> Result<(), AllocError>
    ensures { OnOk result (seen out.new ≡ fold after (seen out.old) (flat_map (listed_events field_type_events) list.now)) }
{
    for listed in list {
        read_field_type(&listed.part, out)?;
        read_maybe(&listed.separator, out)?;
    }
    Ok(())
}

fn read_field_type<'a>(field: &'a FieldType, out: &mut Outline<'a>) -> Result<(), AllocError>
    ensures { OnOk result (seen out.new ≡ fold after (seen out.old) (field_type_events field.now)) }
{
    read_variables(field.names.as_slice(), Naming::Plain, out)?;
    read_ty_behind(&field.colons, &field.ty, out)
}

/// `f, g :: t`
pub(crate) fn read_signature<'a>(
    names: &'a [Listed<Variable>],
    colons: &'a Item,
    ty: &'a Ty,
    out: &mut Outline<'a>,
) -> Result<(), AllocError>
    ensures { OnOk result (seen out.new ≡ fold after (seen out.old) (flat_map (listed_events (variable_events Naming.Signed)) names.now ++ plain colons.now ∷ ty_events ty.now)) }
{
    read_variables(names, Naming::Signed, out)?;
    read_ty_behind(colons, ty, out)
}

/// `infixl 6 +, -`
pub(crate) fn read_fixity<'a>(
    word: &'a Item,
    level: &'a Option<Item>,
    operators: &'a [Listed<Operator>],
    out: &mut Outline<'a>,
) -> Result<(), AllocError>
    ensures { OnOk result (seen out.new ≡ fold after (seen out.old) (plain word.now ∷ (maybe_events level.now ++ flat_map (listed_events (operator_events Naming.Fixed)) operators.now))) }
{
    out.plain(word)?;
    read_maybe(level, out)?;
    read_operators(operators, Naming::Fixed, out)
}

/// The left side of an equation, which begins its construct and leaves the region of its patterns open. Its variable is
/// declared outside of that region.
pub(crate) fn read_left_side<'a>(
    left: &'a LeftSide,
    goes_on: bool,
    out: &mut Outline<'a>,
) -> Result<(), AllocError>
    ensures { OnOk result (seen out.new ≡ fold after (seen out.old) (Event.Begin ∷ left_side_events (Naming.Defined goes_on) left.now)) }
{
    out.begin()?;
    read_all_plain(left.opens.as_slice(), out)?;
    read_left_head(&left.head, Naming::Defined(goes_on), out)?;
    read_closes(left.closes.as_slice(), out)
}

fn read_left_head<'a>(
    head: &'a LeftHead,
    naming: Naming,
    out: &mut Outline<'a>,
) -> Result<(), AllocError>
    ensures { OnOk result (seen out.new ≡ fold after (seen out.old) (left_head_events naming head.now)) }
{
    match head {
        LeftHead::Prefix(variable, patterns) => {
            read_variable(variable, naming, out)?;
            out.enter(0)?;
            read_pats(patterns.as_slice(), out)
        }
        LeftHead::Infix(first, operator, second) => {
            read_first_operand(first, out)?;
            read_operator(operator, naming, out)?;
            read_second_operand(second, out)
        }
    }
}

/// The pattern before the variable operator of an equation, which stands in the region of the patterns.
fn read_first_operand<'a>(pattern: &'a Pat, out: &mut Outline<'a>) -> Result<(), AllocError>
    ensures { OnOk result (seen out.new ≡ fold after (seen out.old) (Event.Join Joint.Pattern ∷ Event.Enter 0 ∷ (pat_events pattern.now ++ Event.Leave ∷ Event.Join Joint.Root ∷ []))) }
{
    out.join(Joint::Pattern)?;
    read_entered(pattern, out)?;
    out.leave();
    out.join(Joint::Root)
}

/// The pattern behind it.
fn read_second_operand<'a>(pattern: &'a Pat, out: &mut Outline<'a>) -> Result<(), AllocError>
    ensures { OnOk result (seen out.new ≡ fold after (seen out.old) (Event.Enter 0 ∷ (pat_events pattern.now ++ Event.Join Joint.End ∷ []))) }
{
    read_entered(pattern, out)?;
    out.join(Joint::End)
}

/// A pattern in a region that stays open.
fn read_entered<'a>(pattern: &'a Pat, out: &mut Outline<'a>) -> Result<(), AllocError>
    ensures { OnOk result (seen out.new ≡ fold after (seen out.old) (Event.Enter 0 ∷ pat_events pattern.now)) }
{
    out.enter(0)?;
    read_pat(pattern, out)
}

fn read_closes<'a>(closes: &'a [Closed], out: &mut Outline<'a>) -> Result<(), AllocError>
    ensures { OnOk result (seen out.new ≡ fold after (seen out.old) (flat_map closed_events closes.now)) }
{
    for closed in closes {
        out.plain(&closed.right)?;
        read_pats(closed.patterns.as_slice(), out)?;
    }
    Ok(())
}

/// A pattern that begins a construct.
pub(crate) fn read_first_pat<'a>(pattern: &'a Pat, out: &mut Outline<'a>) -> Result<(), AllocError>
    ensures { OnOk result (seen out.new ≡ fold after (seen out.old) (Event.Begin ∷ pat_events pattern.now)) }
{
    out.begin()?;
    read_pat(pattern, out)
}

/// A pattern that begins a construct, in a region that stays open.
pub(crate) fn read_inner_pat<'a>(pattern: &'a Pat, out: &mut Outline<'a>) -> Result<(), AllocError>
    ensures { OnOk result (seen out.new ≡ fold after (seen out.old) (Event.Begin ∷ Event.Enter 0 ∷ pat_events pattern.now)) }
{
    out.begin()?;
    read_entered(pattern, out)
}

/// The patterns of a lambda, in a region that stays open.
pub(crate) fn read_lambda<'a>(
    mark: &'a Item,
    patterns: &'a [Pat],
    arrow: &'a Item,
    out: &mut Outline<'a>,
) -> Result<(), AllocError>
    ensures { OnOk result (seen out.new ≡ fold after (seen out.old) (Event.Begin ∷ plain mark.now ∷ Event.Enter 0 ∷ (flat_map pat_events patterns.now ++ plain arrow.now ∷ []))) }
{
    out.begin()?;
    out.plain(mark)?;
    out.enter(0)?;
    read_pats(patterns, out)?;
    out.plain(arrow)
}

/// The pattern of a generator, in a region of its own, and the arrow.
pub(crate) fn read_generator<'a>(
    pattern: &'a Pat,
    arrow: &'a Item,
    index: usize,
    out: &mut Outline<'a>,
) -> Result<(), AllocError>
    ensures { OnOk result (seen out.new ≡ fold after (seen out.old) (Event.Enter index ∷ (pat_events pattern.now ++ Event.Leave ∷ plain arrow.now ∷ []))) }
{
    out.enter(index)?;
    read_pat(pattern, out)?;
    out.leave();
    out.plain(arrow)
}

/// A word that begins a construct, and its region, which stays open.
pub(crate) fn read_word_in<'a>(word: &'a Item, out: &mut Outline<'a>) -> Result<(), AllocError>
    ensures { OnOk result (seen out.new ≡ fold after (seen out.old) (Event.Begin ∷ plain word.now ∷ Event.Enter 0 ∷ [])) }
{
    out.begin()?;
    out.plain(word)?;
    out.enter(0)
}
