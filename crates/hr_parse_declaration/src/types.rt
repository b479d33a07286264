//! Declarations of types: the Haskell 98 Report, section 4.2.
ghost use Rattle.std.specs.Prelude.{◌+◌, ◌≤◌, IfOk};
ghost use Rattle.hr_grammar.specs.Nodes.{DeclPlace};
ghost use Rattle.hr_parse_declaration.specs.Lists.{ReadsPhrase};
ghost use Rattle.hr_parse_declaration.specs.Stated.{ReadsConstructions, ReadsDecl};
ghost use Rattle.hr_grammar_cases.specs.Declarations.{type_head_reading};

use crate::constructions::{construction, new_construction};
use crate::stated::{Stated, state};
use hr_base::{Ending, Seq};
use hr_layout::Cursor;
use hr_parse_lexeme::{
    Held, Kind, Mark, Measured, Notes, Sort, Stop, accept, accept_sort, expect, expect_sort,
    kind_ahead,
};
use hr_parse_type::{is_argument_next, whole_type};
use hr_tree::{Construction, Decl, Listed, TypeHead};
use std::alloc::Global;

/// What nothing in a block can follow: a declaration that stands in a module's body alone.
const TOP: Ending = Ending::WhereBlock;

/// A declaration that begins with `type`, `data` or `newtype`, whose nesting is `depth`.
pub fn type_declaration(
    alloc: Global,
    cursor: &mut Cursor,
    notes: &mut Notes,
    depth: u32,
) -> Result<Stated<Decl>, Stop>
    requires { depth ≤ 256 }
    ensures reads { IfOk result (λ stated. ReadsDecl DeclPlace.Top stated cursor.old cursor.new) }
    ensures fits { IfOk result (λ stated. depth + stated.height ≤ 257) }
{
    match kind_ahead(cursor) {
        Kind::Data => data(alloc, cursor, notes, depth),
        Kind::Newtype => newtype(alloc, cursor, notes, depth),
        _ => synonym(alloc, cursor, depth),
    }
}

fn synonym(alloc: Global, cursor: &mut Cursor, depth: u32) -> Result<Stated<Decl>, Stop>
    requires { depth ≤ 256 }
    ensures reads { IfOk result (λ stated. ReadsDecl DeclPlace.Top stated cursor.old cursor.new) }
    ensures fits { IfOk result (λ stated. depth + stated.height ≤ 257) }
{
    let word = expect(cursor, Mark::Type)?;
    let head = type_head(alloc, cursor)?;
    let equals = expect(cursor, Mark::Equals)?;
    let Measured { tree, height } = whole_type(alloc, cursor, depth)?;
    let decl = Decl::Synonym(word, head, equals, tree.take());
    Ok(state(alloc, decl, height, TOP)?)
}

fn data(
    alloc: Global,
    cursor: &mut Cursor,
    notes: &mut Notes,
    depth: u32,
) -> Result<Stated<Decl>, Stop>
    requires { depth ≤ 256 }
    ensures reads { IfOk result (λ stated. ReadsDecl DeclPlace.Top stated cursor.old cursor.new) }
    ensures fits { IfOk result (λ stated. depth + stated.height ≤ 257) }
{
    let word = expect(cursor, Mark::Data)?;
    notes.data(true);
    let head = type_head(alloc, cursor)?;
    let equals = expect(cursor, Mark::Equals)?;
    let Measured { tree, height } = constructions(alloc, cursor, notes, depth)?;
    let decl = Decl::Data(word, head, equals, tree.take());
    Ok(state(alloc, decl, height, TOP)?)
}

fn newtype(
    alloc: Global,
    cursor: &mut Cursor,
    notes: &mut Notes,
    depth: u32,
) -> Result<Stated<Decl>, Stop>
    requires { depth ≤ 256 }
    ensures reads { IfOk result (λ stated. ReadsDecl DeclPlace.Top stated cursor.old cursor.new) }
    ensures fits { IfOk result (λ stated. depth + stated.height ≤ 257) }
{
    let word = expect(cursor, Mark::Newtype)?;
    let head = type_head(alloc, cursor)?;
    let equals = expect(cursor, Mark::Equals)?;
    let Measured { tree, height } = new_construction(alloc, cursor, notes, depth)?;
    let decl = Decl::Newtype(word, head, equals, tree.take());
    Ok(state(alloc, decl, height, TOP)?)
}

/// Constructors with bars between them.
fn constructions(
    alloc: Global,
    cursor: &mut Cursor,
    notes: &mut Notes,
    depth: u32,
) -> Result<Measured<Seq<Listed<Construction>>>, Stop>
    requires { depth ≤ 256 }
    ensures reads { IfOk result (λ list. ReadsConstructions list cursor.old cursor.new) }
    ensures fits { IfOk result (λ list. depth + list.height ≤ 256) }
{
    let mut list = Vec::new(alloc);
    let Measured {
        tree: mut last,
        mut height,
    } = construction(alloc, cursor, notes, depth)?;
    loop {
        let Some(bar) = accept(cursor, Mark::Bar) else {
            list.push(Listed {
                part: last.take(),
                separator: None,
            })?;
            return Ok(Measured {
                tree: Held::new(Seq { list }),
                height,
            });
        };
        let Measured {
            tree: next,
            height: levels,
        } = construction(alloc, cursor, notes, depth)?;
        list.push(Listed {
            part: last.take(),
            separator: Some(bar),
        })?;
        last = next;
        height = levels.max(height);
    }
}

/// A type's constructor and its variables. Behind a variable an atomic type is left out of the language.
fn type_head(alloc: Global, cursor: &mut Cursor) -> Result<TypeHead, Stop>
    ensures { IfOk result (λ head. ReadsPhrase (λ n. type_head_reading n head) cursor.old cursor.new) }
{
    let name = expect_sort(cursor, Sort::Constructor)?;
    let mut list = Vec::new(alloc);
    loop {
        let Some(variable) = accept_sort(cursor, Sort::Variable) else {
            if !list.is_empty() && is_argument_next(cursor) {
                return Err(Stop::LeftOut);
            }
            let variables = Seq { list };
            return Ok(TypeHead { name, variables });
        };
        list.push(variable)?;
    }
}
