//! What a pattern begins with, up to the first pattern in it. The first lexeme decides, and behind a parenthesis the
//! next one.
ghost use Rattle.std.specs.Prelude.{◌≡◌, ◌≤◌, IfOk};
ghost use Rattle.hr_layout.specs.Standing.{Standing};
ghost use Rattle.hr_tree.specs.Names.{variable_items};
ghost use Rattle.hr_grammar.specs.Words.{IsLeftParen};
ghost use Rattle.hr_grammar.specs.Spelled.{IsVariable};
ghost use Rattle.hr_parse_lexeme.specs.Reads.{Spells, Takes};
ghost use Rattle.hr_parse_pattern.specs.Nodes.{atom_of};
ghost use Rattle.hr_parse_pattern.specs.Patterns.{ReadsStart, start_height};

use crate::Part;
use crate::bound::{
    Signed, minus_in_parenthesis, symbol_constructor, variable_name, variable_symbol,
};
use crate::nodes::{constructor, leaf, variable_pattern};
use crate::reading::negative;
use crate::starts::is_symbol;
use crate::take::below;
use hr_base::Item;
use hr_layout::Cursor;
use hr_parse_lexeme::{
    Bracket, Held, Kind, Mark, Notes, Sort, Stop, accept, expect, expect_sort, is_next, kind_ahead,
    nest, parenthesis, square,
};
use hr_tree::{Constructor, Pat, Variable};
use std::alloc::{AllocError, Global};

/// An atomic pattern, or a constructor that arguments may follow.
#[derive(Drop)]
pub(crate) enum Head {
    Named(Held<Constructor>),
    Atom(Part<Pat>),
}

/// What an atomic pattern begins with.
#[derive(Drop)]
pub(crate) enum Start {
    /// The pattern as a whole.
    Atom(Part<Pat>),
    Named(Held<Constructor>),
    As(Held<Variable>, Item),
    Lazy(Item),
    Bracketed(Bracketed),
}

/// A bracket that opens.
#[derive(Drop)]
pub(crate) enum Bracketed {
    Parenthesis(Item),
    /// A parenthesis, and a negative integer.
    Number(Item, Part<Pat>),
    Square(Item),
}

/// The head where no argument may follow.
pub(crate) fn atom(alloc: Global, head: Head) -> Result<Part<Pat>, AllocError>
    ensures { IfOk result (λ part. part ≡ atom_of head) }
{
    match head {
        Head::Atom(part) => Ok(part),
        Head::Named(named) => constructor(alloc, named.take()),
    }
}

/// What begins with a lexeme of the kind, in an atomic pattern whose nesting is `depth`.
pub(crate) fn start_of(
    alloc: Global,
    cursor: &mut Cursor,
    notes: &mut Notes,
    depth: u32,
    kind: Kind,
) -> Result<Start, Stop>
    ensures reads { IfOk result (λ start. ReadsStart start cursor.old cursor.new) }
    ensures height { IfOk result (λ start. start_height start ≤ 1) }
{
    match kind {
        Kind::Constructor | Kind::QualifiedConstructor => name(cursor),
        Kind::Wildcard => wildcard(alloc, cursor),
        Kind::Integer | Kind::Literal => literal(alloc, cursor),
        Kind::LeftParen => parenthesized(alloc, cursor, notes, depth),
        Kind::LeftSquare => squared(cursor),
        Kind::Tilde => lazy(cursor),
        Kind::Variable => {
            let bound = variable_name(cursor)?;
            variable(alloc, cursor, notes, bound)
        }
        _ => Err(Stop::Syntax),
    }
}

fn name(cursor: &mut Cursor) -> Result<Start, Stop>
    ensures reads { IfOk result (λ start. ReadsStart start cursor.old cursor.new) }
    ensures height { IfOk result (λ start. start_height start ≤ 1) }
{
    let name = expect_sort(cursor, Sort::NamedConstructor)?;
    Ok(Start::Named(Held::new(Constructor::Name(name))))
}

fn wildcard(alloc: Global, cursor: &mut Cursor) -> Result<Start, Stop>
    ensures reads { IfOk result (λ start. ReadsStart start cursor.old cursor.new) }
    ensures height { IfOk result (λ start. start_height start ≤ 1) }
{
    let word = expect(cursor, Mark::Wildcard)?;
    Ok(Start::Atom(leaf(alloc, Pat::Wildcard(word))?))
}

fn literal(alloc: Global, cursor: &mut Cursor) -> Result<Start, Stop>
    ensures reads { IfOk result (λ start. ReadsStart start cursor.old cursor.new) }
    ensures height { IfOk result (λ start. start_height start ≤ 1) }
{
    let literal = expect_sort(cursor, Sort::Literal)?;
    Ok(Start::Atom(leaf(alloc, Pat::Literal(literal))?))
}

fn lazy(cursor: &mut Cursor) -> Result<Start, Stop>
    ensures reads { IfOk result (λ start. ReadsStart start cursor.old cursor.new) }
    ensures height { IfOk result (λ start. start_height start ≤ 1) }
{
    let mark = expect(cursor, Mark::Tilde)?;
    Ok(Start::Lazy(mark))
}

/// `[]`, or `[` alone.
fn squared(cursor: &mut Cursor) -> Result<Start, Stop>
    ensures reads { IfOk result (λ start. ReadsStart start cursor.old cursor.new) }
    ensures height { IfOk result (λ start. start_height start ≤ 1) }
{
    match square(cursor)? {
        Bracket::Constructor(named) => Ok(Start::Named(Held::new(named))),
        Bracket::Open(left) => Ok(Start::Bracketed(Bracketed::Square(left))),
    }
}

/// What `(` begins. Of symbols only one operator and the closing parenthesis make a name; behind a minus an integer
/// may stand too.
fn parenthesized(
    alloc: Global,
    cursor: &mut Cursor,
    notes: &mut Notes,
    depth: u32,
) -> Result<Start, Stop>
    ensures reads { IfOk result (λ start. ReadsStart start cursor.old cursor.new) }
    ensures height { IfOk result (λ start. start_height start ≤ 1) }
{
    let left = match parenthesis(alloc, cursor)? {
        Bracket::Constructor(named) => return Ok(Start::Named(Held::new(named))),
        Bracket::Open(left) => left,
    };
    if is_next(cursor, Mark::Minus) {
        return behind_minus(alloc, cursor, notes, depth, left);
    }
    let kind = kind_ahead(cursor);
    if is_symbol(kind) {
        return behind_symbol(alloc, cursor, notes, left, kind);
    }
    Ok(Start::Bracketed(Bracketed::Parenthesis(left)))
}

/// An operator in parentheses: a variable, or a constructor.
fn behind_symbol(
    alloc: Global,
    cursor: &mut Cursor,
    notes: &mut Notes,
    left: Item,
    kind: Kind,
) -> Result<Start, Stop>
    ensures reads { IfOk result (λ start. (before : Standing) → Takes IsLeftParen left before cursor.old → ReadsStart start before cursor.new) }
    ensures height { IfOk result (λ start. start_height start ≤ 1) }
{
    if kind == Kind::QualifiedVariableSymbol {
        return Err(Stop::Syntax);
    }
    if kind == Kind::VariableSymbol {
        return symbol_variable(alloc, cursor, notes, left);
    }
    let named = symbol_constructor(cursor, left, kind)?;
    Ok(Start::Named(named))
}

/// A variable's operator in parentheses.
fn symbol_variable(
    alloc: Global,
    cursor: &mut Cursor,
    notes: &mut Notes,
    left: Item,
) -> Result<Start, Stop>
    ensures reads { IfOk result (λ start. (before : Standing) → Takes IsLeftParen left before cursor.old → ReadsStart start before cursor.new) }
    ensures height { IfOk result (λ start. start_height start ≤ 1) }
{
    let bound = variable_symbol(cursor, left)?;
    variable(alloc, cursor, notes, bound)
}

/// The minus in parentheses as a variable, or a pattern that begins with a negative integer.
fn behind_minus(
    alloc: Global,
    cursor: &mut Cursor,
    notes: &mut Notes,
    depth: u32,
    left: Item,
) -> Result<Start, Stop>
    ensures reads { IfOk result (λ start. (before : Standing) → Takes IsLeftParen left before cursor.old → ReadsStart start before cursor.new) }
    ensures height { IfOk result (λ start. start_height start ≤ 1) }
{
    match minus_in_parenthesis(cursor, left)? {
        Signed::Variable(bound) => variable(alloc, cursor, notes, bound),
        Signed::Number(left, minus) => {
            if kind_ahead(cursor) != Kind::Integer {
                return Err(Stop::Syntax);
            }
            nest(below(depth), 1)?;
            let number = negative(alloc, cursor, notes, minus)?;
            Ok(Start::Bracketed(Bracketed::Number(left, number)))
        }
    }
}

/// A variable, and the `@` behind it.
fn variable(
    alloc: Global,
    cursor: &mut Cursor,
    notes: &mut Notes,
    bound: Held<Variable>,
) -> Result<Start, Stop>
    ensures reads { IfOk result (λ start. (before : Standing) → Spells IsVariable variable_items bound before cursor.old → ReadsStart start before cursor.new) }
    ensures height { IfOk result (λ start. start_height start ≤ 1) }
{
    notes.pattern(cursor.pos());
    match accept(cursor, Mark::At) {
        None => Ok(Start::Atom(variable_pattern(alloc, bound.take())?)),
        Some(mark) => Ok(Start::As(bound, mark)),
    }
}
