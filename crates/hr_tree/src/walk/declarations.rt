//! What stands in declarations beside expressions.
ghost use Rattle.std.specs.Prelude.{◌≡◌, ◌∷◌, ◌++◌, OnOk, fold};
ghost use Rattle.std.specs.List.{flat_map};
ghost use Rattle.hr_tree.specs.Names.{maybe_item, operator_items, variable_items};
ghost use Rattle.hr_tree.specs.Lists.{listed_items};
ghost use Rattle.hr_tree.specs.Yields.{closed_items, construction_items, field_type_items, left_head_items, left_side_items, ty_items, type_head_items};

use crate::walk::Visitor;
use crate::walk::names::{visit_all, visit_maybe, walk_constructor, walk_operator, walk_variable};
use crate::walk::patterns::{walk_pat, walk_pats};
use crate::walk::types::{walk_ty, walk_ty_behind, walk_tys};
use crate::{
    Closed, Construction, FieldType, LeftHead, LeftSide, Listed, Operator, Ty, TypeHead, Variable,
};
use hr_base::Item;

/// `type T a = t`
pub fn walk_synonym<V: Visitor>(
    word: &Item,
    head: &TypeHead,
    equals: &Item,
    ty: &Ty,
    visitor: &mut V,
) -> Result<(), V::Fault>
    ensures { OnOk result (visitor.new ≡ fold V.behind visitor.old (word.now ∷ (type_head_items head.now ++ equals.now ∷ ty_items ty.now))) }
{
    visitor.visit(word)?;
    walk_head(head, visitor)?;
    walk_ty_behind(equals, ty, visitor)
}

/// `data T a = C t | ..`
pub fn walk_data<V: Visitor>(
    word: &Item,
    head: &TypeHead,
    equals: &Item,
    constructions: &[Listed<Construction>],
    visitor: &mut V,
) -> Result<(), V::Fault>
    ensures { OnOk result (visitor.new ≡ fold V.behind visitor.old (word.now ∷ (type_head_items head.now ++ equals.now ∷ flat_map (listed_items construction_items) constructions.now))) }
{
    visitor.visit(word)?;
    walk_head(head, visitor)?;
    visitor.visit(equals)?;
    walk_constructions(constructions, visitor)
}

/// `newtype T a = C t`
pub fn walk_newtype<V: Visitor>(
    word: &Item,
    head: &TypeHead,
    equals: &Item,
    construction: &Construction,
    visitor: &mut V,
) -> Result<(), V::Fault>
    ensures { OnOk result (visitor.new ≡ fold V.behind visitor.old (word.now ∷ (type_head_items head.now ++ equals.now ∷ construction_items construction.now))) }
{
    visitor.visit(word)?;
    walk_head(head, visitor)?;
    visitor.visit(equals)?;
    walk_construction(construction, visitor)
}

/// `f, g :: t`
pub fn walk_signature<V: Visitor>(
    names: &[Listed<Variable>],
    colons: &Item,
    ty: &Ty,
    visitor: &mut V,
) -> Result<(), V::Fault>
    ensures { OnOk result (visitor.new ≡ fold V.behind visitor.old (flat_map (listed_items variable_items) names.now ++ colons.now ∷ ty_items ty.now)) }
{
    walk_variables(names, visitor)?;
    walk_ty_behind(colons, ty, visitor)
}

/// `infixl 6 +, -`
pub fn walk_fixity<V: Visitor>(
    word: &Item,
    level: &Option<Item>,
    operators: &[Listed<Operator>],
    visitor: &mut V,
) -> Result<(), V::Fault>
    ensures { OnOk result (visitor.new ≡ fold V.behind visitor.old (word.now ∷ (maybe_item level.now ++ flat_map (listed_items operator_items) operators.now))) }
{
    visitor.visit(word)?;
    visit_maybe(level, visitor)?;
    walk_operators(operators, visitor)
}

fn walk_head<V: Visitor>(head: &TypeHead, visitor: &mut V) -> Result<(), V::Fault>
    ensures { OnOk result (visitor.new ≡ fold V.behind visitor.old (type_head_items head.now)) }
{
    visitor.visit(&head.name)?;
    visit_all(head.variables.as_slice(), visitor)?;
    Ok(())
}

fn walk_constructions<V: Visitor>(
    constructions: &[Listed<Construction>],
    visitor: &mut V,
) -> Result<(), V::Fault>
    ensures { OnOk result (visitor.new ≡ fold V.behind visitor.old (flat_map (listed_items construction_items) constructions.now)) }
{
    for construction in constructions {
        walk_construction(&construction.part, visitor)?;
        visit_maybe(&construction.separator, visitor)?;
    }
    Ok(())
}

fn walk_construction<V: Visitor>(
    construction: &Construction,
    visitor: &mut V,
) -> Result<(), V::Fault>
    ensures { OnOk result (visitor.new ≡ fold V.behind visitor.old (construction_items construction.now)) }
{
    match construction {
        Construction::Prefix(constructor, types) => {
            walk_constructor(constructor, visitor)?;
            walk_tys(types.as_slice(), visitor)
        }
        Construction::Infix(first, operator, second) => {
            walk_ty(first, visitor)?;
            walk_operator(operator, visitor)?;
            walk_ty(second, visitor)
        }
        Construction::Fields(constructor, left, fields, right) => {
            walk_constructor(constructor, visitor)?;
            visitor.visit(left)?;
            walk_field_types(fields.as_slice(), visitor)?;
            visitor.visit(right)
        }
    }
}

fn walk_field_types<V: Visitor>(
    fields: &[Listed<FieldType>],
    visitor: &mut V,
) -> Result<(), V::Fault>
    ensures { OnOk result (visitor.new ≡ fold V.behind visitor.old (flat_map (listed_items field_type_items) fields.now)) }
{
    for field in fields {
        walk_field_type(&field.part, visitor)?;
        visit_maybe(&field.separator, visitor)?;
    }
    Ok(())
}

fn walk_field_type<V: Visitor>(field: &FieldType, visitor: &mut V) -> Result<(), V::Fault>
    ensures { OnOk result (visitor.new ≡ fold V.behind visitor.old (field_type_items field.now)) }
{
    walk_variables(field.names.as_slice(), visitor)?;
    visitor.visit(&field.colons)?;
    walk_ty(&field.ty, visitor)?;
    Ok(())
}

fn walk_variables<V: Visitor>(
    variables: &[Listed<Variable>],
    visitor: &mut V,
) -> Result<(), V::Fault>
    ensures { OnOk result (visitor.new ≡ fold V.behind visitor.old (flat_map (listed_items variable_items) variables.now)) }
{
    for variable in variables {
        walk_variable(&variable.part, visitor)?;
        visit_maybe(&variable.separator, visitor)?;
    }
    Ok(())
}

fn walk_operators<V: Visitor>(
    operators: &[Listed<Operator>],
    visitor: &mut V,
) -> Result<(), V::Fault>
    ensures { OnOk result (visitor.new ≡ fold V.behind visitor.old (flat_map (listed_items operator_items) operators.now)) }
{
    for operator in operators {
        walk_operator(&operator.part, visitor)?;
        visit_maybe(&operator.separator, visitor)?;
    }
    Ok(())
}

pub fn walk_left_side<V: Visitor>(left: &LeftSide, visitor: &mut V) -> Result<(), V::Fault>
    ensures { OnOk result (visitor.new ≡ fold V.behind visitor.old (left_side_items left.now)) }
{
    visit_all(left.opens.as_slice(), visitor)?;
    walk_left_head(&left.head, visitor)?;
    walk_closes(left.closes.as_slice(), visitor)?;
    Ok(())
}

fn walk_left_head<V: Visitor>(head: &LeftHead, visitor: &mut V) -> Result<(), V::Fault>
    ensures { OnOk result (visitor.new ≡ fold V.behind visitor.old (left_head_items head.now)) }
{
    match head {
        LeftHead::Prefix(variable, patterns) => {
            walk_variable(variable, visitor)?;
            walk_pats(patterns.as_slice(), visitor)
        }
        LeftHead::Infix(first, operator, second) => {
            walk_pat(first, visitor)?;
            walk_operator(operator, visitor)?;
            walk_pat(second, visitor)
        }
    }
}

fn walk_closes<V: Visitor>(closes: &[Closed], visitor: &mut V) -> Result<(), V::Fault>
    ensures { OnOk result (visitor.new ≡ fold V.behind visitor.old (flat_map closed_items closes.now)) }
{
    for closed in closes {
        visitor.visit(&closed.right)?;
        walk_pats(closed.patterns.as_slice(), visitor)?;
    }
    Ok(())
}
