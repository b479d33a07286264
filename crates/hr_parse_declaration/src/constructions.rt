//! The constructors of `data` and `newtype` declarations: the Haskell 98 Report, section 4.2.1.
ghost use Rattle.std.specs.Prelude.{◌≡◌, ◌+◌, ◌≤◌, ◌∷◌, [], IfOk};
ghost use Rattle.hr_layout.specs.Standing.{Standing};
ghost use Rattle.hr_base.specs.declared.lexeme.Class.{Class};
ghost use Rattle.hr_grammar.specs.Nodes.{TyPlace};
ghost use Rattle.hr_grammar.specs.Words.{IsLeftParen, IsOf};
ghost use Rattle.hr_parse_lexeme.specs.Reads.{Takes};
ghost use Rattle.hr_parse_type.specs.Heads.{ReadsArguments, ReadsTy};
ghost use Rattle.hr_parse_declaration.specs.Stated.{ReadsConstruction, ReadsNew};

use crate::names::{own_constructor, own_constructor_operator};
use hr_base::Item;
use hr_layout::Cursor;
use hr_parse_lexeme::{
    Held, Kind, Mark, Measured, Notes, Sort, Stop, accept, accept_sort, expect, kind_ahead, nest,
};
use hr_parse_type::{applied, applied_type, atomic_type, opened_type, refuse_argument};
use hr_tree::{Construction, Constructor, Operator, Ty};
use sqlite_items::Items as Children;
use std::alloc::{AllocError, Global};

/// A constructor with its types. What begins with an unqualified constructor may be the first type of an operator
/// too: the operator decides, where the types end.
pub(crate) fn construction(
    alloc: Global,
    cursor: &mut Cursor,
    notes: &mut Notes,
    depth: u32,
) -> Result<Measured<Construction>, Stop>
    requires { depth ≤ 256 }
    ensures reads { IfOk result (λ part. ReadsConstruction part cursor.old cursor.new) }
    ensures fits { IfOk result (λ part. depth + part.height ≤ 256) }
{
    if let Some(name) = accept_sort(cursor, Sort::Constructor) {
        return prefix_or_infix(alloc, cursor, notes, depth, name);
    }
    match accept(cursor, Mark::LeftParen) {
        Some(left) => in_parentheses(alloc, cursor, notes, depth, left),
        None => {
            let first = applied_type(alloc, cursor, depth)?;
            infix(alloc, cursor, notes, depth, first)
        }
    }
}

/// A constructor operator in parentheses is a constructor; anything else there is a type.
fn in_parentheses(
    alloc: Global,
    cursor: &mut Cursor,
    notes: &mut Notes,
    depth: u32,
    left: Item,
) -> Result<Measured<Construction>, Stop>
    requires { depth ≤ 256 }
    ensures reads { IfOk result (λ part. (before : Standing) → Takes IsLeftParen left before cursor.old → ReadsConstruction part before cursor.new) }
    ensures fits { IfOk result (λ part. depth + part.height ≤ 256) }
{
    if let Some(symbol) = accept_sort(cursor, Sort::ConstructorSymbol) {
        let right = expect(cursor, Mark::RightParen)?;
        let types = types(alloc, cursor, notes, depth)?;
        let constructor = Held::new(Constructor::Symbol(left, symbol, right));
        return Ok(prefix(constructor, types));
    }
    let first = opened_type(alloc, cursor, depth, left)?;
    infix(alloc, cursor, notes, depth, first)
}

/// Behind an unqualified constructor.
fn prefix_or_infix(
    alloc: Global,
    cursor: &mut Cursor,
    notes: &mut Notes,
    depth: u32,
    name: Item,
) -> Result<Measured<Construction>, Stop>
    requires { depth ≤ 256 }
    ensures reads { IfOk result (λ part. (before : Standing) → Takes (IsOf Class.ConId) name before cursor.old → ReadsConstruction part before cursor.new) }
    ensures fits { IfOk result (λ part. depth + part.height ≤ 256) }
{
    let types = types(alloc, cursor, notes, depth)?;
    let constructor = Held::new(Constructor::Name(name));
    if !matches!(
        kind_ahead(cursor),
        Kind::ConstructorSymbol | Kind::Backquote
    ) {
        return Ok(prefix(constructor, types));
    }
    nest(depth + 1, types.height)?;
    let first = applied(constructor, types);
    infix(alloc, cursor, notes, depth, first)
}

fn prefix(constructor: Held<Constructor>, types: Measured<Children<Ty>>) -> Measured<Construction>
    ensures { result ≡ record { tree = Construction.Prefix constructor types.tree; height = types.height } }
{
    let Measured { tree, height } = types;
    Measured {
        tree: Held::new(Construction::Prefix(constructor.take(), tree.take())),
        height,
    }
}

/// The operator behind the first type, and the second one.
fn infix(
    alloc: Global,
    cursor: &mut Cursor,
    notes: &mut Notes,
    depth: u32,
    first: Measured<Ty>,
) -> Result<Measured<Construction>, Stop>
    requires depth { depth ≤ 256 }
    requires first { depth + first.height ≤ 256 }
    ensures reads { IfOk result (λ part. (before : Standing) → ReadsTy TyPlace.Applied first before cursor.old → ReadsConstruction part before cursor.new) }
    ensures fits { IfOk result (λ part. depth + part.height ≤ 256) }
{
    refuse_argument(cursor, first.tree.get())?;
    let read = own_constructor_operator(cursor)?;
    let operator = Held::new(read);
    let second = applied_type(alloc, cursor, depth)?;
    notes.whole(cursor.pos());
    let height = first.height.max(second.height);
    let Measured { tree: left, .. } = first;
    let Measured { tree: right, .. } = second;
    Ok(joined(left, operator, right, height))
}

fn joined(
    left: Held<Ty>,
    operator: Held<Operator>,
    right: Held<Ty>,
    height: u32,
) -> Measured<Construction>
    ensures { result ≡ record { tree = Construction.Infix left operator right; height = height } }
{
    Measured {
        tree: Held::new(Construction::Infix(left.take(), operator.take(), right.take())),
        height,
    }
}

/// The types of a constructor, atomic ones. What begins with a name behind a type variable is left out of the
/// language.
fn types(
    alloc: Global,
    cursor: &mut Cursor,
    notes: &mut Notes,
    depth: u32,
) -> Result<Measured<Children<Ty>>, Stop>
    requires { depth ≤ 256 }
    ensures reads { IfOk result (λ types. ReadsArguments types cursor.old cursor.new) }
    ensures fits { IfOk result (λ types. depth + types.height ≤ 256) }
{
    let mut tree = Children::new(alloc);
    let mut height = 0;
    let mut is_variable = false;
    notes.whole(cursor.pos());
    while begins_type(kind_ahead(cursor)) {
        if is_variable && kind_ahead(cursor) == Kind::QualifiedVariable {
            return Err(Stop::LeftOut);
        }
        let Measured {
            tree: ty,
            height: levels,
        } = atomic_type(alloc, cursor, depth)?;
        is_variable = matches!(ty.get(), Ty::Variable(_));
        tree.push(ty.take())?;
        height = levels.max(height);
        notes.whole(cursor.pos());
    }
    Ok(Measured {
        tree: Held::new(tree),
        height,
    })
}

/// A constructor with one type. Behind a type variable a second one is left out of the language.
pub(crate) fn new_construction(
    alloc: Global,
    cursor: &mut Cursor,
    notes: &mut Notes,
    depth: u32,
) -> Result<Measured<Construction>, Stop>
    requires { depth ≤ 256 }
    ensures reads { IfOk result (λ part. ReadsNew part cursor.old cursor.new) }
    ensures fits { IfOk result (λ part. depth + part.height ≤ 256) }
{
    let read = own_constructor(cursor)?;
    let constructor = Held::new(read);
    notes.whole(cursor.pos());
    let ty = atomic_type(alloc, cursor, depth)?;
    if begins_type(kind_ahead(cursor)) {
        refuse_argument(cursor, ty.tree.get())?;
    }
    notes.whole(cursor.pos());
    let types = one_type(alloc, ty)?;
    Ok(prefix(constructor, types))
}

fn one_type(alloc: Global, ty: Measured<Ty>) -> Result<Measured<Children<Ty>>, AllocError>
    ensures { IfOk result (λ types. types ≡ record { tree = ty.tree ∷ []; height = ty.height }) }
{
    let Measured { tree, height } = ty;
    let mut types = Children::new(alloc);
    types.push(tree.take())?;
    Ok(Measured {
        tree: Held::new(types),
        height,
    })
}

/// Whether an atomic type begins so, or a name that is none.
fn begins_type(kind: Kind) -> bool {
    matches!(
        kind,
        Kind::Variable
            | Kind::QualifiedVariable
            | Kind::Constructor
            | Kind::QualifiedConstructor
            | Kind::LeftParen
            | Kind::LeftSquare
    )
}
