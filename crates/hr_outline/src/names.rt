ghost use Rattle.std.specs.Prelude.{◌≡◌, OnOk, fold, [], ◌∷◌, ◌++◌};
ghost use Rattle.std.specs.List.{flat_map};
ghost use Rattle.hr_scope_rules.specs.Events.{after, plain_events, Event, plain};
ghost use Rattle.hr_scope_rules.specs.Phrases.{constructor_events, listed_events, joining_events, maybe_events, minus_events, operator_events, variable_events};
ghost use Rattle.hr_outline.specs.Seen.{seen};

use crate::Outline;
use hr_base::Item;
use hr_scope_rules::{Joint, Naming};
use hr_tree::{Constructor, Listed, Operator, Variable};
use std::alloc::AllocError;

pub(crate) fn read_all_plain<'a>(items: &'a [Item], out: &mut Outline<'a>) -> Result<(), AllocError>
    ensures { OnOk result (seen out.new ≡ fold after (seen out.old) (plain_events items.now)) }
{
    for item in items {
        out.plain(item)?;
    }
    Ok(())
}

pub(crate) fn read_maybe<'a>(
    item: &'a Option<Item>,
    out: &mut Outline<'a>,
) -> Result<(), AllocError>
    ensures { OnOk result (seen out.new ≡ fold after (seen out.old) (maybe_events item.now)) }
{
    match item {
        Some(item) => out.plain(item),
        None => Ok(()),
    }
}

/// Two lexemes that are no names.
pub(crate) fn read_two<'a>(
    first: &'a Item,
    second: &'a Item,
    out: &mut Outline<'a>,
) -> Result<(), AllocError>
    ensures { OnOk result (seen out.new ≡ fold after (seen out.old) (plain first.now ∷ plain second.now ∷ [])) }
{
    out.plain(first)?;
    out.plain(second)
}

/// A name in parentheses.
fn read_symbol<'a>(
    left: &'a Item,
    symbol: &'a Item,
    right: &'a Item,
    naming: Naming,
    out: &mut Outline<'a>,
) -> Result<(), AllocError>
    ensures { OnOk result (seen out.new ≡ fold after (seen out.old) (plain left.now ∷ Event.Lexeme naming symbol.now ∷ plain right.now ∷ [])) }
{
    out.plain(left)?;
    out.put(symbol, naming)?;
    out.plain(right)
}

pub(crate) fn read_variable<'a>(
    variable: &'a Variable,
    naming: Naming,
    out: &mut Outline<'a>,
) -> Result<(), AllocError>
    ensures { OnOk result (seen out.new ≡ fold after (seen out.old) (variable_events naming variable.now)) }
{
    match variable {
        Variable::Name(name) => out.put(name, naming),
        Variable::Symbol(left, symbol, right) => read_symbol(left, symbol, right, naming, out),
    }
}

pub(crate) fn read_variables<'a>(
    list: &'a [Listed<Variable>],
    naming: Naming,
    out: &mut Outline<'a>,
) -> Result<(), AllocError>
    ensures { OnOk result (seen out.new ≡ fold after (seen out.old) (flat_map (listed_events (variable_events naming)) list.now)) }
{
    for listed in list {
        read_variable(&listed.part, naming, out)?;
        read_maybe(&listed.separator, out)?;
    }
    Ok(())
}

pub(crate) fn read_constructor<'a>(
    constructor: &'a Constructor,
    naming: Naming,
    out: &mut Outline<'a>,
) -> Result<(), AllocError>
    ensures { OnOk result (seen out.new ≡ fold after (seen out.old) (constructor_events naming constructor.now)) }
{
    match constructor {
        Constructor::Name(name) => out.put(name, naming),
        Constructor::Symbol(left, symbol, right) => read_symbol(left, symbol, right, naming, out),
        Constructor::Unit(left, right) => read_two(left, right, out),
        Constructor::EmptyList(left, right) => read_two(left, right, out),
        Constructor::Tuple(left, commas, right) => {
            out.plain(left)?;
            read_all_plain(commas.as_slice(), out)?;
            out.plain(right)
        }
    }
}

pub(crate) fn read_operator<'a>(
    operator: &'a Operator,
    naming: Naming,
    out: &mut Outline<'a>,
) -> Result<(), AllocError>
    ensures { OnOk result (seen out.new ≡ fold after (seen out.old) (operator_events naming operator.now)) }
{
    match operator {
        Operator::Symbol(symbol) => out.put(symbol, naming),
        Operator::Quoted(left, name, right) => read_symbol(left, name, right, naming, out),
    }
}

/// What joins an operand of an infix sequence to the next one.
pub(crate) fn read_joining<'a>(
    operator: &'a Option<Operator>,
    out: &mut Outline<'a>,
) -> Result<(), AllocError>
    ensures { OnOk result (seen out.new ≡ fold after (seen out.old) (joining_events operator.now)) }
{
    match operator {
        Some(operator) => {
            out.join(Joint::Operator)?;
            read_operator(operator, Naming::Used, out)
        }
        None => Ok(()),
    }
}

/// The minus before an operand of an infix sequence.
pub(crate) fn read_minus<'a>(
    minus: &'a Option<Item>,
    out: &mut Outline<'a>,
) -> Result<(), AllocError>
    ensures { OnOk result (seen out.new ≡ fold after (seen out.old) (minus_events minus.now)) }
{
    match minus {
        Some(minus) => {
            out.join(Joint::Minus)?;
            out.plain(minus)
        }
        None => Ok(()),
    }
}

pub(crate) fn read_operators<'a>(
    list: &'a [Listed<Operator>],
    naming: Naming,
    out: &mut Outline<'a>,
) -> Result<(), AllocError>
    ensures { OnOk result (seen out.new ≡ fold after (seen out.old) (flat_map (listed_events (operator_events naming)) list.now)) }
{
    for listed in list {
        read_operator(&listed.part, naming, out)?;
        read_maybe(&listed.separator, out)?;
    }
    Ok(())
}

/// An operator, and the lexeme behind it, which is no name.
pub(crate) fn read_operator_before<'a>(
    operator: &'a Operator,
    right: &'a Item,
    out: &mut Outline<'a>,
) -> Result<(), AllocError>
    ensures { OnOk result (seen out.new ≡ fold after (seen out.old) (operator_events Naming.Used operator.now ++ plain right.now ∷ [])) }
{
    read_operator(operator, Naming::Used, out)?;
    out.plain(right)
}

/// A lexeme that is no name, and the operator behind it.
pub(crate) fn read_operator_behind<'a>(
    left: &'a Item,
    operator: &'a Operator,
    out: &mut Outline<'a>,
) -> Result<(), AllocError>
    ensures { OnOk result (seen out.new ≡ fold after (seen out.old) (plain left.now ∷ operator_events Naming.Used operator.now)) }
{
    out.plain(left)?;
    read_operator(operator, Naming::Used, out)
}
