ghost use Rattle.std.specs.Prelude.{◌≡◌, ◌∷◌, [], ◌++◌, OnOk, fold};
ghost use Rattle.std.specs.List.{flat_map};
ghost use Rattle.hr_tree.specs.Lists.{listed_items};
ghost use Rattle.hr_tree.specs.Yields.{ty_items};

use crate::walk::Visitor;
use crate::walk::names::{visit_maybe, walk_constructor};
use crate::{Listed, Ty};
use hr_base::Item;

#[cycle(types)]
#[tactic(auto, using(crate::proofs::TypeYields::ty_yields))]
pub fn walk_ty<V: Visitor>(ty: &Ty, visitor: &mut V) -> Result<(), V::Fault>
    ensures { OnOk result (visitor.new ≡ fold V.behind visitor.old (ty_items ty.now)) }
{
    match ty {
        Ty::Variable(name) => visitor.visit(name),
        Ty::Constructor(constructor) => walk_constructor(constructor, visitor),
        Ty::Apply(constructor, arguments) => {
            walk_constructor(constructor, visitor)?;
            walk_tys(arguments.as_slice(), visitor)
        }
        Ty::Function(from, arrow, to) => {
            walk_ty(from.get(), visitor)?;
            walk_ty_behind(arrow, to.get(), visitor)
        }
        Ty::Tuple(left, parts, right) => {
            visitor.visit(left)?;
            walk_listed(parts.as_slice(), visitor)?;
            visitor.visit(right)
        }
        Ty::List(left, part, right) => {
            walk_ty_behind(left, part.get(), visitor)?;
            visitor.visit(right)
        }
        Ty::Group(left, part, right) => {
            walk_ty_behind(left, part.get(), visitor)?;
            visitor.visit(right)
        }
    }
}

/// A lexeme, and the type behind it.
#[cycle(types)]
pub fn walk_ty_behind<V: Visitor>(item: &Item, ty: &Ty, visitor: &mut V) -> Result<(), V::Fault>
    ensures { OnOk result (visitor.new ≡ fold V.behind visitor.old (item.now ∷ ty_items ty.now)) }
{
    visitor.visit(item)?;
    walk_ty(ty, visitor)
}

#[cycle(types)]
pub fn walk_tys<V: Visitor>(tys: &[Ty], visitor: &mut V) -> Result<(), V::Fault>
    ensures { OnOk result (visitor.new ≡ fold V.behind visitor.old (flat_map ty_items tys.now)) }
{
    for ty in tys {
        walk_ty(ty, visitor)?;
    }
    Ok(())
}

#[cycle(types)]
fn walk_listed<V: Visitor>(parts: &[Listed<Ty>], visitor: &mut V) -> Result<(), V::Fault>
    ensures { OnOk result (visitor.new ≡ fold V.behind visitor.old (flat_map (listed_items ty_items) parts.now)) }
{
    for part in parts {
        walk_ty(&part.part, visitor)?;
        visit_maybe(&part.separator, visitor)?;
    }
    Ok(())
}
