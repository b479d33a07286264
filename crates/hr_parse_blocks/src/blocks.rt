//! Blocks of declarations and of alternatives, a piece a step.
ghost use Rattle.std.specs.Prelude.{◌≡◌};
ghost use Rattle.hr_parse_blocks.specs.Positions.{first_position};

use crate::heads::{Found, declaration, position_behind, stated_by};
use hr_layout::Cursor;
use hr_parse_declaration::Stated;
use hr_parse_lexeme::{Held, Mark, Notes, Stop, kind_ahead, nest};
use hr_parse_nodes::bodies;
use hr_parse_parts::{
    Ahead, Alts, Decls, Frame, Goal, Left, Pieces, Position, Start, Step, Value, done_alternatives,
    done_declarations, fits, go, opened_by, piece_ahead, side_of, wait,
};
use hr_parse_pattern::{Part, begins_pattern, below, pattern};
use hr_tree::{Alt, Decl, Layout, Pat};
use std::alloc::{AllocError, Global};

/// A block of declarations opens below a node whose nesting is `depth`: a module's body, or what stands behind `let`
/// or `where`.
pub fn open_declarations(
    alloc: Global,
    cursor: &mut Cursor,
    depth: u32,
    is_body: bool,
) -> Result<Step, Stop> {
    let pieces = Pieces::new(alloc);
    match started(cursor, depth, is_body)? {
        Start::Empty(col) => {
            let block = pieces.closed(Layout::Implicit { col })?;
            Ok(done_declarations(block))
        }
        Start::Open(bounds) => Ok(go(Goal::Declaration(Held::new(Decls {
            depth: below(depth),
            bounds,
            pieces,
            position: first_position(is_body),
        })))),
    }
}

fn first_position(is_body: bool) -> Position
    ensures { result ≡ first_position is_body }
{
    if is_body {
        Position::First
    } else {
        Position::Local
    }
}

fn started(cursor: &mut Cursor, depth: u32, is_body: bool) -> Result<Start, Stop> {
    let opened = if is_body {
        cursor.open_body()?
    } else {
        cursor.open()?
    };
    fits(cursor, depth, opened)?;
    opened_by(cursor, opened)
}

/// The next piece of a block of declarations, or its end.
pub fn next_declaration(
    alloc: Global,
    cursor: &mut Cursor,
    notes: &mut Notes,
    block: Decls,
) -> Result<Step, Stop> {
    let Decls {
        depth,
        bounds,
        mut pieces,
        position,
    } = block;
    match piece_ahead(cursor, bounds)? {
        Ahead::End(layout) => {
            let block = pieces.closed(layout)?;
            Ok(done_declarations(block))
        }
        Ahead::Semicolon(item, bounds) => {
            notes.data(false);
            pieces.semicolon(item)?;
            Ok(go(Goal::Declaration(Held::new(Decls {
                depth,
                bounds,
                pieces,
                position,
            }))))
        }
        Ahead::Part(bounds) => {
            notes.data(false);
            let position = position_behind(position, kind_ahead(cursor));
            let block = Decls {
                depth,
                bounds,
                pieces,
                position,
            };
            part(alloc, cursor, notes, block)
        }
    }
}

/// A declaration, up to its right side where it has one.
fn part(alloc: Global, cursor: &mut Cursor, notes: &mut Notes, block: Decls) -> Result<Step, Stop> {
    let depth = block.depth;
    match declaration(alloc, cursor, notes, depth, block.position)? {
        Found::Whole(stated) => {
            let block = with_declaration(block, stated)?;
            Ok(go(Goal::Declaration(Held::new(block))))
        }
        Found::Left(left) => Ok(wait(
            Frame::Declaration(Held::new(block), Held::new(left)),
            Goal::Side(below(depth), Mark::Equals),
        )),
    }
}

fn with_declaration(block: Decls, stated: Stated<Decl>) -> Result<Decls, AllocError> {
    let Decls {
        depth,
        bounds,
        mut pieces,
        position,
    } = block;
    let bounds = bounds.behind(stated.ending);
    pieces.part(stated)?;
    Ok(Decls {
        depth,
        bounds,
        pieces,
        position,
    })
}

/// Behind a declaration's right side.
pub fn behind_declaration(
    alloc: Global,
    cursor: &mut Cursor,
    notes: &mut Notes,
    block: Decls,
    left: Left,
    value: Held<Value>,
) -> Result<Step, Stop> {
    let side = side_of(value)?;
    let stated = stated_by(alloc, left, side)?;
    let block = with_declaration(block, stated)?;
    next_declaration(alloc, cursor, notes, block)
}

/// A block of alternatives opens, behind `of`, below a node whose nesting is `depth`.
pub fn alternatives(alloc: Global, cursor: &mut Cursor, depth: u32) -> Result<Step, Stop> {
    let opened = cursor.open()?;
    let pieces = Pieces::new(alloc);
    match opened_by(cursor, opened)? {
        Start::Empty(col) => {
            let block = pieces.closed(Layout::Implicit { col })?;
            Ok(done_alternatives(block))
        }
        Start::Open(bounds) => Ok(go(Goal::Alternative(Held::new(Alts {
            depth: below(depth),
            bounds,
            pieces,
        })))),
    }
}

/// The next piece of a block of alternatives, or its end.
pub fn next_alternative(
    alloc: Global,
    cursor: &mut Cursor,
    notes: &mut Notes,
    block: Alts,
) -> Result<Step, Stop> {
    let Alts {
        depth,
        bounds,
        mut pieces,
    } = block;
    match piece_ahead(cursor, bounds)? {
        Ahead::End(layout) => {
            let block = pieces.closed(layout)?;
            Ok(done_alternatives(block))
        }
        Ahead::Semicolon(item, bounds) => {
            pieces.semicolon(item)?;
            Ok(go(Goal::Alternative(Held::new(Alts {
                depth,
                bounds,
                pieces,
            }))))
        }
        Ahead::Part(bounds) => {
            let block = Alts {
                depth,
                bounds,
                pieces,
            };
            alternative(alloc, cursor, notes, block)
        }
    }
}

/// The pattern of an alternative.
fn alternative(
    alloc: Global,
    cursor: &mut Cursor,
    notes: &mut Notes,
    block: Alts,
) -> Result<Step, Stop> {
    let depth = block.depth;
    if !begins_pattern(kind_ahead(cursor)) {
        return Err(Stop::Syntax);
    }
    nest(depth, 1)?;
    let part = pattern(alloc, cursor, notes, below(depth))?;
    Ok(wait(
        Frame::Alternative(Held::new(block), part),
        Goal::Side(below(depth), Mark::Arrow),
    ))
}

/// Behind an alternative's right side.
pub fn behind_alternative(
    alloc: Global,
    cursor: &mut Cursor,
    notes: &mut Notes,
    block: Alts,
    part: Part<Pat>,
    value: Held<Value>,
) -> Result<Step, Stop> {
    let side = side_of(value)?;
    let stated = bodies::alternative(alloc, part, side)?;
    let block = with_alternative(block, stated)?;
    next_alternative(alloc, cursor, notes, block)
}

fn with_alternative(block: Alts, stated: Stated<Alt>) -> Result<Alts, AllocError> {
    let Alts {
        depth,
        bounds,
        mut pieces,
    } = block;
    let bounds = bounds.behind(stated.ending);
    pieces.part(stated)?;
    Ok(Alts {
        depth,
        bounds,
        pieces,
    })
}
