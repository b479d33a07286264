//! Types: the Haskell 98 Report, section 4.1.2. A type is read from left to right, and what the next lexeme can
//! begin decides: each choice leaves one production.
ghost use Rattle.std.specs.Prelude.{◌≡◌, ◌+◌, ◌-◌, ◌<◌, ◌≤◌, length, IfOk};
ghost use Rattle.hr_layout.specs.Standing.{Standing};
ghost use Rattle.hr_grammar.specs.Nodes.{TyPlace};
ghost use Rattle.hr_parse_lexeme.specs.Reads.{Consumes};
ghost use Rattle.hr_parse_lexeme.specs.declared.mark.Mark.{Mark};
ghost use Rattle.hr_parse_type.specs.Heads.{head_height, OpensType, ReadsArguments, ReadsHead, ReadsTy, ReadsTypes};

use crate::arguments::{is_variable, last_is_variable, refuse_argument};
use crate::nodes::{Head, Parts, applied, atom, closed, function, list};
use hr_layout::Cursor;
use hr_parse_lexeme::{
    Bracket, Held, Kind, Mark, Measured, Notes, ParseError, Sort, Stop, accept, expect,
    expect_sort, is_next, kind_ahead, nest, parenthesis, refusal, square,
};
use hr_tree::{Constructor, Listed, Ty};
use sqlite_items::Items as Children;
use std::alloc::Global;

/// The type that begins at the cursor and goes on as far as one can, below a node whose nesting is
/// `depth`.
pub fn ty(alloc: Global, cursor: &mut Cursor, depth: u32) -> Result<Ty, ParseError>
    requires { depth ≤ 256 }
    ensures { IfOk result (λ ty. Consumes (256 - depth) (λ below n. below.ty n TyPlace.Whole ty) cursor.old cursor.new) }
{
    match whole_type(alloc, cursor, depth) {
        Ok(Measured { tree, .. }) => Ok(tree.take()),
        Err(stop) => Err(refusal(alloc, cursor, &Notes::new(), stop)),
    }
}

/// Any type. Behind one side of an arrow only the arrow goes on, and it begins the other side.
#[cycle(types)]
pub fn whole_type(alloc: Global, cursor: &mut Cursor, depth: u32) -> Result<Measured<Ty>, Stop>
    requires { depth ≤ 256 }
    ensures reads { IfOk result (λ ty. ReadsTy TyPlace.Whole ty cursor.old cursor.new) }
    ensures fits { IfOk result (λ ty. depth + ty.height ≤ 256) }
{
    let from = applied_type(alloc, cursor, depth)?;
    if !is_next(cursor, Mark::Arrow) {
        return Ok(from);
    }
    nest(depth + 1, from.height)?;
    let arrow = expect(cursor, Mark::Arrow)?;
    let to = whole_type(alloc, cursor, depth + 1)?;
    Ok(function(alloc, from, arrow, to)?)
}

/// One side of an arrow: a constructor with all arguments that follow, or an atomic type.
#[cycle(types)]
pub fn applied_type(alloc: Global, cursor: &mut Cursor, depth: u32) -> Result<Measured<Ty>, Stop>
    requires { depth ≤ 256 }
    ensures reads { IfOk result (λ ty. ReadsTy TyPlace.Applied ty cursor.old cursor.new) }
    ensures fits { IfOk result (λ ty. depth + ty.height ≤ 256) }
{
    match head(alloc, cursor, depth)? {
        Head::Named(named) => {
            let arguments = arguments(alloc, cursor, depth + 1)?;
            Ok(applied(named, arguments))
        }
        Head::Atom(ty) => {
            if is_variable(ty.tree.get()) {
                refuse_next(cursor)?;
            }
            Ok(ty)
        }
    }
}

/// An atomic type.
pub fn atomic_type(alloc: Global, cursor: &mut Cursor, depth: u32) -> Result<Measured<Ty>, Stop>
    requires { depth ≤ 256 }
    ensures reads { IfOk result (λ ty. ReadsTy TyPlace.Atomic ty cursor.old cursor.new) }
    ensures fits { IfOk result (λ ty. depth + ty.height ≤ 256) }
{
    Ok(atom(head(alloc, cursor, depth)?))
}

/// As many atomic types as follow.
#[cycle(types)]
pub(crate) fn arguments(
    alloc: Global,
    cursor: &mut Cursor,
    depth: u32,
) -> Result<Measured<Children<Ty>>, Stop>
    requires { depth ≤ 256 }
    ensures reads { IfOk result (λ arguments. ReadsArguments arguments cursor.old cursor.new) }
    ensures fits { IfOk result (λ arguments. depth + arguments.height ≤ 256) }
{
    let mut tree = Children::new(alloc);
    let mut height = 0;
    while begins_type(kind_ahead(cursor)) {
        let Measured {
            tree: argument,
            height: levels,
        } = atom(head(alloc, cursor, depth)?);
        tree.push(argument.take())?;
        height = levels.max(height);
    }
    if last_is_variable(tree.as_slice()) {
        refuse_next(cursor)?;
    }
    Ok(Measured {
        tree: Held::new(tree),
        height,
    })
}

/// An atomic type, or a constructor that arguments may follow. The first lexeme decides.
#[cycle(types)]
fn head(alloc: Global, cursor: &mut Cursor, depth: u32) -> Result<Head, Stop>
    requires { depth ≤ 256 }
    ensures reads { IfOk result (λ head. ReadsHead head cursor.old cursor.new) }
    ensures fits { IfOk result (λ head. depth + head_height head ≤ 256) }
{
    let kind = kind_ahead(cursor);
    if !begins_type(kind) {
        return Err(Stop::Syntax);
    }
    nest(depth, 1)?;
    match kind {
        Kind::Variable => variable(cursor),
        Kind::LeftParen => {
            let bracket = type_parenthesis(alloc, cursor)?;
            in_parentheses(alloc, cursor, depth, bracket)
        }
        Kind::LeftSquare => {
            let bracket = type_square(cursor)?;
            in_square(alloc, cursor, depth, bracket)
        }
        _ => constructor(cursor),
    }
}

/// A constructor that its parentheses make, or what stands in them and the closing one.
#[cycle(types)]
pub(crate) fn in_parentheses(
    alloc: Global,
    cursor: &mut Cursor,
    depth: u32,
    bracket: Bracket,
) -> Result<Head, Stop>
    requires { depth < 256 }
    ensures reads { IfOk result (λ head. (before : Standing) → OpensType Mark.LeftParen bracket before cursor.old → ReadsHead head before cursor.new) }
    ensures fits { IfOk result (λ head. depth + head_height head ≤ 256) }
{
    match bracket {
        Bracket::Constructor(named) => Ok(Head::Named(Held::new(named))),
        Bracket::Open(left) => {
            let parts = parts(alloc, cursor, depth + 1)?;
            refuse_argument(cursor, parts.last.get())?;
            let right = expect(cursor, Mark::RightParen)?;
            Ok(Head::Atom(closed(alloc, left, parts, right)?))
        }
    }
}

/// The constructor of lists, or the type between the brackets and the closing one.
#[cycle(types)]
fn in_square(alloc: Global, cursor: &mut Cursor, depth: u32, bracket: Bracket) -> Result<Head, Stop>
    requires { depth < 256 }
    ensures reads { IfOk result (λ head. (before : Standing) → OpensType Mark.LeftSquare bracket before cursor.old → ReadsHead head before cursor.new) }
    ensures fits { IfOk result (λ head. depth + head_height head ≤ 256) }
{
    match bracket {
        Bracket::Constructor(named) => Ok(Head::Named(Held::new(named))),
        Bracket::Open(left) => {
            let part = whole_type(alloc, cursor, depth + 1)?;
            refuse_argument(cursor, part.tree.get())?;
            let right = expect(cursor, Mark::RightSquare)?;
            Ok(Head::Atom(list(alloc, left, part, right)?))
        }
    }
}

/// Types with commas between them, fifteen at most.
#[cycle(types)]
fn parts(alloc: Global, cursor: &mut Cursor, depth: u32) -> Result<Parts, Stop>
    requires { depth ≤ 256 }
    ensures reads { IfOk result (λ parts. ReadsTypes parts cursor.old cursor.new) }
    ensures some { IfOk result (λ parts. length parts.others ≤ 14) }
    ensures fits { IfOk result (λ parts. depth + parts.height ≤ 256) }
{
    let mut others = Children::new(alloc);
    let first = whole_type(alloc, cursor, depth)?;
    let mut height = first.height;
    let mut last = first.tree;
    while others.len() < 14 {
        let Some(comma) = accept(cursor, Mark::Comma) else {
            return Ok(Parts {
                others,
                last,
                height,
            });
        };
        let Measured {
            tree: next,
            height: levels,
        } = whole_type(alloc, cursor, depth)?;
        others.push(Listed {
            part: last.take(),
            separator: Some(comma),
        })?;
        last = next;
        height = levels.max(height);
    }
    Ok(Parts {
        others,
        last,
        height,
    })
}

fn variable(cursor: &mut Cursor) -> Result<Head, Stop>
    ensures reads { IfOk result (λ head. ReadsHead head cursor.old cursor.new) }
    ensures height { IfOk result (λ head. head_height head ≡ 1) }
{
    let name = expect_sort(cursor, Sort::Variable)?;
    Ok(Head::Atom(Measured {
        tree: Held::new(Ty::Variable(name)),
        height: 1,
    }))
}

fn constructor(cursor: &mut Cursor) -> Result<Head, Stop>
    ensures reads { IfOk result (λ head. ReadsHead head cursor.old cursor.new) }
    ensures height { IfOk result (λ head. head_height head ≡ 1) }
{
    let name = expect_sort(cursor, Sort::NamedConstructor)?;
    Ok(Head::Named(Held::new(Constructor::Name(name))))
}

/// `()`, commas in parentheses, `(->)`, or `(` alone.
fn type_parenthesis(alloc: Global, cursor: &mut Cursor) -> Result<Bracket, Stop>
    ensures { IfOk result (λ bracket. OpensType Mark.LeftParen bracket cursor.old cursor.new) }
{
    let left = match parenthesis(alloc, cursor)? {
        Bracket::Constructor(named) => return Ok(Bracket::Constructor(named)),
        Bracket::Open(left) => left,
    };
    match accept(cursor, Mark::Arrow) {
        None => Ok(Bracket::Open(left)),
        Some(arrow) => {
            let right = expect(cursor, Mark::RightParen)?;
            Ok(Bracket::Constructor(Constructor::Symbol(left, arrow, right)))
        }
    }
}

/// `[]`, or `[` alone.
fn type_square(cursor: &mut Cursor) -> Result<Bracket, Stop>
    ensures { IfOk result (λ bracket. OpensType Mark.LeftSquare bracket cursor.old cursor.new) }
{
    square(cursor)
}

/// Whether an atomic type can begin so.
fn begins_type(kind: Kind) -> bool {
    matches!(
        kind,
        Kind::Variable
            | Kind::Constructor
            | Kind::QualifiedConstructor
            | Kind::LeftParen
            | Kind::LeftSquare
    )
}

/// Behind a type variable a lexeme that goes on and begins a name or a bracket would be its argument, which the
/// language leaves out.
fn refuse_next(cursor: &Cursor) -> Result<(), Stop> {
    let kind = kind_ahead(cursor);
    if begins_type(kind) || matches!(kind, Kind::QualifiedVariable) {
        return Err(Stop::LeftOut);
    }
    Ok(())
}
