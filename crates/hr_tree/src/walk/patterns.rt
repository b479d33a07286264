ghost use Rattle.std.specs.Prelude.{◌≡◌, ◌∷◌, [], ◌++◌, OnOk, fold};
ghost use Rattle.std.specs.List.{flat_map};
ghost use Rattle.hr_tree.specs.Lists.{field_items, listed_items, operand_items};
ghost use Rattle.hr_tree.specs.Yields.{pat_items};

use crate::walk::Visitor;
use crate::walk::names::{
    visit_maybe, visit_two, walk_constructor, walk_maybe_operator, walk_variable,
};
use crate::{Field, Listed, Operand, Pat};
use hr_base::Item;

#[cycle(patterns)]
#[tactic(auto, using(crate::proofs::PatternYields::pat_yields))]
pub fn walk_pat<V: Visitor>(pat: &Pat, visitor: &mut V) -> Result<(), V::Fault>
    ensures { OnOk result (visitor.new ≡ fold V.behind visitor.old (pat_items pat.now)) }
{
    match pat {
        Pat::Variable(variable) => walk_variable(variable, visitor),
        Pat::Wildcard(word) => visitor.visit(word),
        Pat::Literal(literal) => visitor.visit(literal),
        Pat::Negative(minus, literal) => visit_two(minus, literal, visitor),
        Pat::Constructor(constructor) => walk_constructor(constructor, visitor),
        Pat::As(variable, mark, part) => {
            walk_variable(variable, visitor)?;
            walk_behind(mark, part.get(), visitor)
        }
        Pat::Lazy(mark, part) => walk_behind(mark, part.get(), visitor),
        Pat::Apply(constructor, arguments) => {
            walk_constructor(constructor, visitor)?;
            walk_pats(arguments.as_slice(), visitor)
        }
        Pat::Infix(operands) => walk_operands(operands.as_slice(), visitor),
        Pat::Tuple(left, parts, right) => walk_list(left, parts.as_slice(), right, visitor),
        Pat::List(left, parts, right) => walk_list(left, parts.as_slice(), right, visitor),
        Pat::Group(left, part, right) => {
            walk_behind(left, part.get(), visitor)?;
            visitor.visit(right)
        }
        Pat::Fields(constructor, left, fields, right) => {
            walk_constructor(constructor, visitor)?;
            walk_fields(left, fields.as_slice(), right, visitor)
        }
    }
}

/// A lexeme, and the pattern behind it.
#[cycle(patterns)]
fn walk_behind<V: Visitor>(item: &Item, pat: &Pat, visitor: &mut V) -> Result<(), V::Fault>
    ensures { OnOk result (visitor.new ≡ fold V.behind visitor.old (item.now ∷ pat_items pat.now)) }
{
    visitor.visit(item)?;
    walk_pat(pat, visitor)
}

#[cycle(patterns)]
pub fn walk_pats<V: Visitor>(pats: &[Pat], visitor: &mut V) -> Result<(), V::Fault>
    ensures { OnOk result (visitor.new ≡ fold V.behind visitor.old (flat_map pat_items pats.now)) }
{
    for pat in pats {
        walk_pat(pat, visitor)?;
    }
    Ok(())
}

#[cycle(patterns)]
fn walk_list<V: Visitor>(
    left: &Item,
    parts: &[Listed<Pat>],
    right: &Item,
    visitor: &mut V,
) -> Result<(), V::Fault>
    ensures { OnOk result (visitor.new ≡ fold V.behind visitor.old (left.now ∷ (flat_map (listed_items pat_items) parts.now ++ right.now ∷ []))) }
{
    visitor.visit(left)?;
    for part in parts {
        walk_pat(&part.part, visitor)?;
        visit_maybe(&part.separator, visitor)?;
    }
    visitor.visit(right)
}

#[cycle(patterns)]
fn walk_operands<V: Visitor>(operands: &[Operand<Pat>], visitor: &mut V) -> Result<(), V::Fault>
    ensures { OnOk result (visitor.new ≡ fold V.behind visitor.old (flat_map (operand_items pat_items) operands.now)) }
{
    for operand in operands {
        visit_maybe(&operand.minus, visitor)?;
        walk_pat(&operand.part, visitor)?;
        walk_maybe_operator(&operand.operator, visitor)?;
    }
    Ok(())
}

#[cycle(patterns)]
fn walk_fields<V: Visitor>(
    left: &Item,
    fields: &[Listed<Field<Pat>>],
    right: &Item,
    visitor: &mut V,
) -> Result<(), V::Fault>
    ensures { OnOk result (visitor.new ≡ fold V.behind visitor.old (left.now ∷ (flat_map (listed_items (field_items pat_items)) fields.now ++ right.now ∷ []))) }
{
    visitor.visit(left)?;
    for field in fields {
        walk_variable(&field.part.name, visitor)?;
        walk_behind(&field.part.equals, &field.part.part, visitor)?;
        visit_maybe(&field.separator, visitor)?;
    }
    visitor.visit(right)
}

/// A lexeme, and the patterns behind it.
pub fn walk_pats_behind<V: Visitor>(
    item: &Item,
    pats: &[Pat],
    visitor: &mut V,
) -> Result<(), V::Fault>
    ensures { OnOk result (visitor.new ≡ fold V.behind visitor.old (item.now ∷ flat_map pat_items pats.now)) }
{
    visitor.visit(item)?;
    walk_pats(pats, visitor)
}
