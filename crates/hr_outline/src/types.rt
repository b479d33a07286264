ghost use Rattle.std.specs.Prelude.{◌≡◌, ◌∷◌, [], ◌++◌, OnOk, fold};
ghost use Rattle.std.specs.List.{flat_map};
ghost use Rattle.hr_scope_rules.specs.Events.{after, plain};
ghost use Rattle.hr_scope_rules.specs.Phrases.{listed_events, ty_events};
ghost use Rattle.hr_outline.specs.Seen.{seen};

use crate::Outline;
use crate::names::{read_constructor, read_maybe};
use hr_base::Item;
use hr_scope_rules::Naming;
use hr_tree::{Listed, Ty};
use std::alloc::AllocError;

#[cycle(types)]
#[tactic(auto, using(crate::proofs::TypeEvents::ty_read))]
pub(crate) fn read_ty<'a>(ty: &'a Ty, out: &mut Outline<'a>) -> Result<(), AllocError>
    ensures { OnOk result (seen out.new ≡ fold after (seen out.old) (ty_events ty.now)) }
{
    match ty {
        Ty::Variable(name) => out.plain(name),
        Ty::Constructor(constructor) => read_constructor(constructor, Naming::Type, out),
        Ty::Apply(constructor, arguments) => {
            read_constructor(constructor, Naming::Type, out)?;
            read_types(arguments.as_slice(), out)
        }
        Ty::Function(from, arrow, to) => {
            read_ty(from.get(), out)?;
            read_ty_behind(arrow, to.get(), out)
        }
        Ty::Tuple(left, parts, right) => read_list(left, parts.as_slice(), right, out),
        Ty::List(left, part, right) => {
            read_ty_behind(left, part.get(), out)?;
            out.plain(right)
        }
        Ty::Group(left, part, right) => {
            read_ty_behind(left, part.get(), out)?;
            out.plain(right)
        }
    }
}

/// A lexeme that is no name, and the type behind it.
#[cycle(types)]
pub(crate) fn read_ty_behind<'a>(
    item: &'a Item,
    ty: &'a Ty,
    out: &mut Outline<'a>,
) -> Result<(), AllocError>
    ensures { OnOk result (seen out.new ≡ fold after (seen out.old) (plain item.now ∷ ty_events ty.now)) }
{
    out.plain(item)?;
    read_ty(ty, out)
}

#[cycle(types)]
pub(crate) fn read_types<'a>(types: &'a [Ty], out: &mut Outline<'a>) -> Result<(), AllocError>
    ensures { OnOk result (seen out.new ≡ fold after (seen out.old) (flat_map ty_events types.now)) }
{
    for ty in types {
        read_ty(ty, out)?;
    }
    Ok(())
}

#[cycle(types)]
fn read_list<'a>(
    left: &'a Item,
    parts: &'a [Listed<Ty>],
    right: &'a Item,
    out: &mut Outline<'a>,
) -> Result<(), AllocError>
    ensures { OnOk result (seen out.new ≡ fold after (seen out.old) (plain left.now ∷ (flat_map (listed_events ty_events) parts.now ++ plain right.now ∷ []))) }
{
    out.plain(left)?;
    for part in parts {
        read_ty(&part.part, out)?;
        read_maybe(&part.separator, out)?;
    }
    out.plain(right)
}
