//! Declarations.

use crate::expressions::expression;
use crate::modules::import;
use crate::names::{constructor, operator, variable};
use crate::patterns::{pattern, patterns, ty, types};
use crate::shown::Shown;
use hr_tree::{Block, Body, Construction, Decl, Exp, LeftHead, LeftSide, Piece, TypeHead, Where};
use std::alloc::AllocError;

#[cycle(shown)]
pub fn block(out: &mut Shown, of: &Block<Decl>) -> Result<(), AllocError> {
    out.begin(&of.layout)?;
    for piece in of.pieces.as_slice() {
        match piece {
            Piece::Semicolon(item) => out.item(item)?,
            Piece::Part(part) => {
                out.open(name(part))?;
                declaration(out, part)?;
                out.close()?;
            }
        }
    }
    out.end(&of.layout)
}

fn name(part: &Decl) -> &'static [u8] {
    match part {
        Decl::Import(..) => b"<import",
        Decl::Synonym(..) => b"<synonym",
        Decl::Data(..) => b"<data",
        Decl::Newtype(..) => b"<newtype",
        Decl::Signature(..) => b"<signature",
        Decl::Fixity(..) => b"<fixity",
        Decl::Equation(..) => b"<equation",
        Decl::Binding(..) => b"<binding",
    }
}

#[cycle(shown)]
fn declaration(out: &mut Shown, part: &Decl) -> Result<(), AllocError> {
    match part {
        Decl::Import(of) => import(out, of),
        Decl::Synonym(word, head, equals, of) => {
            out.item(word)?;
            type_head(out, head)?;
            out.item(equals)?;
            ty(out, of)
        }
        Decl::Data(word, head, equals, list) => {
            out.item(word)?;
            type_head(out, head)?;
            out.item(equals)?;
            for listed in list.as_slice() {
                construction(out, &listed.part)?;
                out.maybe(&listed.separator)?;
            }
            Ok(())
        }
        Decl::Newtype(word, head, equals, of) => {
            out.item(word)?;
            type_head(out, head)?;
            out.item(equals)?;
            construction(out, of)
        }
        Decl::Signature(names, colons, of) => {
            for listed in names.as_slice() {
                variable(out, &listed.part)?;
                out.maybe(&listed.separator)?;
            }
            out.item(colons)?;
            ty(out, of)
        }
        Decl::Fixity(word, level, operators) => {
            out.item(word)?;
            out.maybe(level)?;
            for listed in operators.as_slice() {
                operator(out, &listed.part)?;
                out.maybe(&listed.separator)?;
            }
            Ok(())
        }
        Decl::Equation(left, of, place) => {
            left_side(out, left)?;
            body(out, of)?;
            locals(out, place)
        }
        Decl::Binding(bound, of, place) => {
            pattern(out, bound)?;
            body(out, of)?;
            locals(out, place)
        }
    }
}

fn type_head(out: &mut Shown, head: &TypeHead) -> Result<(), AllocError> {
    out.item(&head.name)?;
    out.items(&head.variables)
}

fn construction(out: &mut Shown, part: &Construction) -> Result<(), AllocError> {
    match part {
        Construction::Prefix(named, list) => {
            out.open(b"<of")?;
            constructor(out, named)?;
            types(out, list.as_slice())?;
            out.close()
        }
        Construction::Infix(first, op, second) => {
            out.open(b"<infix")?;
            ty(out, first)?;
            operator(out, op)?;
            ty(out, second)?;
            out.close()
        }
        Construction::Fields(..) => out.word(b"?"),
    }
}

fn left_side(out: &mut Shown, left: &LeftSide) -> Result<(), AllocError> {
    out.items(&left.opens)?;
    out.open(b"<left")?;
    match &left.head {
        LeftHead::Prefix(name, list) => {
            variable(out, name)?;
            patterns(out, list.as_slice())?;
        }
        LeftHead::Infix(first, op, second) => {
            pattern(out, first)?;
            operator(out, op)?;
            pattern(out, second)?;
        }
    }
    out.close()?;
    for closed in left.closes.as_slice() {
        out.item(&closed.right)?;
        patterns(out, closed.patterns.as_slice())?;
    }
    Ok(())
}

#[cycle(shown)]
pub fn body(out: &mut Shown, of: &Body<Exp>) -> Result<(), AllocError> {
    match of {
        Body::Plain(mark, part) => {
            out.item(mark)?;
            expression(out, part)
        }
        Body::Guarded(list) => {
            for guarded in list.as_slice() {
                out.item(&guarded.bar)?;
                expression(out, &guarded.guard)?;
                out.item(&guarded.mark)?;
                expression(out, &guarded.body)?;
            }
            Ok(())
        }
    }
}

/// A `where` and its block. It goes over the pieces itself, since a block that was handed on whole would leave the
/// cycle without a measure.
#[cycle(shown)]
pub fn locals(out: &mut Shown, of: &Option<Where<Decl>>) -> Result<(), AllocError> {
    match of {
        None => Ok(()),
        Some(place) => {
            out.item(&place.word)?;
            out.begin(&place.block.layout)?;
            for piece in place.block.pieces.as_slice() {
                match piece {
                    Piece::Semicolon(item) => out.item(item)?,
                    Piece::Part(part) => {
                        out.open(name(part))?;
                        declaration(out, part)?;
                        out.close()?;
                    }
                }
            }
            out.end(&place.block.layout)
        }
    }
}
