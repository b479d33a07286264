//! The regions of qualifiers and of `where`.
ghost use Rattle.std.specs.Prelude.{◌≡◌, ◌∷◌, [], ◌++◌, OnOk, fold};
ghost use Rattle.hr_scope_rules.specs.Events.{after, Event, plain};
ghost use Rattle.hr_scope_rules.specs.Outline.{all_entered, all_left, declared_of, entering, leaving, qualified_of, where_entered};
ghost use Rattle.hr_outline.specs.Seen.{seen};

use crate::Outline;
use hr_base::Item;
use hr_tree::{Decl, Listed, Qualifier, Where};
use std::alloc::AllocError;

/// Begins a comprehension and enters the regions of its qualifiers, each inside the one before it.
pub(crate) fn enter_all<'a>(
    left: &'a Item,
    qualifiers: &[Listed<Qualifier>],
    out: &mut Outline<'a>,
) -> Result<(), AllocError>
    ensures { OnOk result (seen out.new ≡ fold after (seen out.old) (Event.Begin ∷ plain left.now ∷ all_entered qualified_of 0 qualifiers.now)) }
{
    out.begin()?;
    out.plain(left)?;
    for (index, listed) in qualifiers.iter().enumerate() {
        enter_if(opens(&listed.part), index, out)?;
    }
    Ok(())
}

pub(crate) fn enter_if(opens: bool, index: usize, out: &mut Outline<'_>) -> Result<(), AllocError>
    ensures { OnOk result (seen out.new ≡ fold after (seen out.old) (entering index opens)) }
{
    if opens { out.enter(index) } else { Ok(()) }
}

pub(crate) fn leave_all(qualifiers: &[Listed<Qualifier>], out: &mut Outline<'_>)
    ensures { seen out.new ≡ fold after (seen out.old) (all_left qualified_of qualifiers.now) }
{
    for listed in qualifiers {
        leave_if(opens(&listed.part), out);
    }
}

fn leave_if(opens: bool, out: &mut Outline<'_>)
    ensures { seen out.new ≡ fold after (seen out.old) (leaving opens) }
{
    if opens {
        out.leave();
    }
}

/// Whether a qualifier opens a region.
#[tactic(auto, using(crate::proofs::ExpressionEvents::qualifier_opens))]
pub(crate) fn opens(qualifier: &Qualifier) -> bool
    ensures { result ≡ (qualified_of qualifier.now).opens }
{
    match qualifier {
        Qualifier::Generator(..) => true,
        Qualifier::Locals(..) => true,
        Qualifier::Test(_) => false,
    }
}

/// Enters the region of a `where`, if there is one.
pub(crate) fn enter_where(
    locals: &Option<Where<Decl>>,
    out: &mut Outline<'_>,
) -> Result<(), AllocError>
    ensures { OnOk result (seen out.new ≡ fold after (seen out.old) (where_entered locals.now)) }
{
    match locals {
        Some(_) => out.enter(1),
        None => Ok(()),
    }
}

/// Leaves the regions of all qualifiers, and ends the comprehension.
pub(crate) fn end_comprehension<'a>(
    qualifiers: &[Listed<Qualifier>],
    right: &'a Item,
    out: &mut Outline<'a>,
) -> Result<(), AllocError>
    ensures { OnOk result (seen out.new ≡ fold after (seen out.old) (all_left qualified_of qualifiers.now ++ plain right.now ∷ Event.End ∷ [])) }
{
    leave_all(qualifiers, out);
    out.plain(right)?;
    out.end();
    Ok(())
}

/// Leaves the innermost region and ends the construct.
pub(crate) fn close_region(out: &mut Outline<'_>)
    ensures { seen out.new ≡ fold after (seen out.old) (Event.Leave ∷ Event.End ∷ []) }
{
    out.close();
}

pub(crate) fn end_construct(out: &mut Outline<'_>)
    ensures { seen out.new ≡ fold after (seen out.old) (Event.End ∷ []) }
{
    out.end();
}
