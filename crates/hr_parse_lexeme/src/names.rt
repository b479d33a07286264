//! Names that begin with a bracket.
ghost use Rattle.std.specs.Prelude.{◌≡◌, IfOk};
ghost use Rattle.hr_grammar.specs.Spelled.{AreCommas};
ghost use Rattle.hr_parse_lexeme.specs.Names.{Opens};
ghost use Rattle.hr_parse_lexeme.specs.Reads.{TakesAll};

use crate::{Mark, Stop, accept, expect, is_next};
use hr_base::{Item, Seq};
use hr_layout::Cursor;
use hr_tree::Constructor;
use std::alloc::Global;

/// A tuple has fifteen parts at most.
pub const MOST_COMMAS: usize = 14;

/// What an opening bracket begins: a constructor that has no name, or what is to be read behind it.
#[derive(Drop)]
pub enum Bracket {
    Constructor(Constructor),
    Open(Item),
}

/// `()`, the commas of a tuple's constructor in parentheses, or `(` alone.
pub fn parenthesis(alloc: Global, cursor: &mut Cursor) -> Result<Bracket, Stop>
    ensures { IfOk result (λ bracket. Opens Mark.LeftParen bracket cursor.old cursor.new) }
{
    let left = expect(cursor, Mark::LeftParen)?;
    if let Some(right) = accept(cursor, Mark::RightParen) {
        return Ok(Bracket::Constructor(Constructor::Unit(left, right)));
    }
    if !is_next(cursor, Mark::Comma) {
        return Ok(Bracket::Open(left));
    }
    let commas = commas(alloc, cursor)?;
    let right = expect(cursor, Mark::RightParen)?;
    Ok(Bracket::Constructor(Constructor::Tuple(left, commas, right)))
}

/// `[]`, or `[` alone.
pub fn square(cursor: &mut Cursor) -> Result<Bracket, Stop>
    ensures { IfOk result (λ bracket. Opens Mark.LeftSquare bracket cursor.old cursor.new) }
{
    let left = expect(cursor, Mark::LeftSquare)?;
    match accept(cursor, Mark::RightSquare) {
        None => Ok(Bracket::Open(left)),
        Some(right) => Ok(Bracket::Constructor(Constructor::EmptyList(left, right))),
    }
}

/// One comma or more, and fourteen at most.
pub fn commas(alloc: Global, cursor: &mut Cursor) -> Result<Seq<Item>, Stop>
    ensures commas { IfOk result (λ commas. AreCommas commas) }
    ensures taken { IfOk result (λ commas. TakesAll commas cursor.old cursor.new) }
{
    let mut list = Vec::new(alloc);
    let first = expect(cursor, Mark::Comma)?;
    list.push(first)?;
    while list.len() < MOST_COMMAS {
        match accept(cursor, Mark::Comma) {
            None => return Ok(Seq { list }),
            Some(comma) => list.push(comma)?,
        }
    }
    Ok(Seq { list })
}
