//! Types and patterns.

use crate::names::{constructor, maybe_operator, variable};
use crate::shown::Shown;
use hr_tree::{Listed, Pat, Ty};
use std::alloc::AllocError;

#[cycle(types)]
pub fn types(out: &mut Shown, list: &[Ty]) -> Result<(), AllocError> {
    for part in list {
        ty(out, part)?;
    }
    Ok(())
}

#[cycle(types)]
fn listed_types(out: &mut Shown, list: &[Listed<Ty>]) -> Result<(), AllocError> {
    for listed in list {
        ty(out, &listed.part)?;
        out.maybe(&listed.separator)?;
    }
    Ok(())
}

#[cycle(types)]
pub fn ty(out: &mut Shown, part: &Ty) -> Result<(), AllocError> {
    match part {
        Ty::Variable(name) => out.item(name),
        Ty::Constructor(named) => constructor(out, named),
        Ty::Apply(named, arguments) => {
            out.open(b"<of")?;
            constructor(out, named)?;
            types(out, arguments.as_slice())?;
            out.close()
        }
        Ty::Function(from, arrow, to) => {
            out.open(b"<to")?;
            ty(out, from.get())?;
            out.item(arrow)?;
            ty(out, to.get())?;
            out.close()
        }
        Ty::Tuple(left, parts, right) => {
            out.open(b"<tuple")?;
            out.item(left)?;
            listed_types(out, parts.as_slice())?;
            out.item(right)?;
            out.close()
        }
        Ty::List(left, part, right) => {
            out.open(b"<list")?;
            out.item(left)?;
            ty(out, part.get())?;
            out.item(right)?;
            out.close()
        }
        Ty::Group(left, part, right) => {
            out.open(b"<group")?;
            out.item(left)?;
            ty(out, part.get())?;
            out.item(right)?;
            out.close()
        }
    }
}

#[cycle(patterns)]
pub fn patterns(out: &mut Shown, list: &[Pat]) -> Result<(), AllocError> {
    for part in list {
        pattern(out, part)?;
    }
    Ok(())
}

#[cycle(patterns)]
fn listed(out: &mut Shown, list: &[Listed<Pat>]) -> Result<(), AllocError> {
    for listed in list {
        pattern(out, &listed.part)?;
        out.maybe(&listed.separator)?;
    }
    Ok(())
}

#[cycle(patterns)]
pub fn pattern(out: &mut Shown, part: &Pat) -> Result<(), AllocError> {
    match part {
        Pat::Variable(bound) => variable(out, bound),
        Pat::Wildcard(item) => out.item(item),
        Pat::Literal(item) => out.item(item),
        Pat::Constructor(named) => constructor(out, named),
        Pat::Negative(minus, number) => {
            out.open(b"<negative")?;
            out.item(minus)?;
            out.item(number)?;
            out.close()
        }
        Pat::As(bound, mark, part) => {
            out.open(b"<as")?;
            variable(out, bound)?;
            out.item(mark)?;
            pattern(out, part.get())?;
            out.close()
        }
        Pat::Lazy(mark, part) => {
            out.open(b"<lazy")?;
            out.item(mark)?;
            pattern(out, part.get())?;
            out.close()
        }
        Pat::Apply(named, arguments) => {
            out.open(b"<of")?;
            constructor(out, named)?;
            patterns(out, arguments.as_slice())?;
            out.close()
        }
        Pat::Infix(operands) => {
            out.open(b"<infix")?;
            for operand in operands.as_slice() {
                out.maybe(&operand.minus)?;
                pattern(out, &operand.part)?;
                maybe_operator(out, &operand.operator)?;
            }
            out.close()
        }
        Pat::Tuple(left, parts, right) => {
            out.open(b"<tuple")?;
            out.item(left)?;
            listed(out, parts.as_slice())?;
            out.item(right)?;
            out.close()
        }
        Pat::List(left, parts, right) => {
            out.open(b"<list")?;
            out.item(left)?;
            listed(out, parts.as_slice())?;
            out.item(right)?;
            out.close()
        }
        Pat::Group(left, part, right) => {
            out.open(b"<group")?;
            out.item(left)?;
            pattern(out, part.get())?;
            out.item(right)?;
            out.close()
        }
        Pat::Fields(..) => out.word(b"?"),
    }
}
