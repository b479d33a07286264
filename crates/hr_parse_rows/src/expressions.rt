//! Expressions, alternatives and qualifiers.

use crate::declarations::{block, body, locals};
use crate::names::{constructor, maybe_operator, operator, variable};
use crate::patterns::{pattern, patterns, ty};
use crate::shown::Shown;
use hr_tree::{Alt, Block, Exp, Listed, Piece, Qualifier};
use std::alloc::AllocError;

#[cycle(shown)]
fn listed(out: &mut Shown, list: &[Listed<Exp>]) -> Result<(), AllocError> {
    for listed in list {
        expression(out, &listed.part)?;
        out.maybe(&listed.separator)?;
    }
    Ok(())
}

#[cycle(shown)]
pub fn expression(out: &mut Shown, part: &Exp) -> Result<(), AllocError> {
    match part {
        Exp::Variable(used) => variable(out, used),
        Exp::Constructor(named) => constructor(out, named),
        Exp::Literal(item) => out.item(item),
        _ => {
            out.open(name(part))?;
            inner(out, part)?;
            out.close()
        }
    }
}

fn name(part: &Exp) -> &'static [u8] {
    match part {
        Exp::Group(..) => b"<group",
        Exp::Tuple(..) => b"<tuple",
        Exp::List(..) => b"<list",
        Exp::From(..) | Exp::FromThen(..) | Exp::FromTo(..) | Exp::FromThenTo(..) => b"<from",
        Exp::Comprehension(..) => b"<all",
        Exp::LeftSection(..) => b"<left",
        Exp::RightSection(..) => b"<right",
        Exp::Apply(..) => b"<apply",
        Exp::Infix(..) => b"<infix",
        Exp::Annotated(..) => b"<annotated",
        Exp::Lambda(..) => b"<lambda",
        Exp::Let(..) => b"<let",
        Exp::If(..) => b"<if",
        Exp::Case(..) => b"<case",
        _ => b"<?",
    }
}

#[cycle(shown)]
fn inner(out: &mut Shown, part: &Exp) -> Result<(), AllocError> {
    match part {
        Exp::Group(left, part, right) => {
            out.item(left)?;
            expression(out, part.get())?;
            out.item(right)
        }
        Exp::Tuple(left, parts, right) | Exp::List(left, parts, right) => {
            out.item(left)?;
            listed(out, parts.as_slice())?;
            out.item(right)
        }
        Exp::From(left, first, dots, right) => {
            out.item(left)?;
            expression(out, first.get())?;
            out.item(dots)?;
            out.item(right)
        }
        Exp::FromThen(left, first, comma, second, dots, right) => {
            out.item(left)?;
            expression(out, first.get())?;
            out.item(comma)?;
            expression(out, second.get())?;
            out.item(dots)?;
            out.item(right)
        }
        Exp::FromTo(left, first, dots, last, right) => {
            out.item(left)?;
            expression(out, first.get())?;
            out.item(dots)?;
            expression(out, last.get())?;
            out.item(right)
        }
        Exp::FromThenTo(left, first, comma, second, dots, last, right) => {
            out.item(left)?;
            expression(out, first.get())?;
            out.item(comma)?;
            expression(out, second.get())?;
            out.item(dots)?;
            expression(out, last.get())?;
            out.item(right)
        }
        Exp::Comprehension(left, part, bar, qualifiers, right) => {
            out.item(left)?;
            expression(out, part.get())?;
            out.item(bar)?;
            for listed in qualifiers.as_slice() {
                qualifier(out, &listed.part)?;
                out.maybe(&listed.separator)?;
            }
            out.item(right)
        }
        Exp::LeftSection(left, part, op, right) => {
            out.item(left)?;
            expression(out, part.get())?;
            operator(out, op)?;
            out.item(right)
        }
        Exp::RightSection(left, op, part, right) => {
            out.item(left)?;
            operator(out, op)?;
            expression(out, part.get())?;
            out.item(right)
        }
        _ => outer(out, part),
    }
}

#[cycle(shown)]
fn outer(out: &mut Shown, part: &Exp) -> Result<(), AllocError> {
    match part {
        Exp::Apply(atoms) => {
            for atom in atoms.as_slice() {
                expression(out, atom)?;
            }
            Ok(())
        }
        Exp::Infix(operands) => {
            for operand in operands.as_slice() {
                out.maybe(&operand.minus)?;
                expression(out, &operand.part)?;
                maybe_operator(out, &operand.operator)?;
            }
            Ok(())
        }
        Exp::Annotated(part, colons, of) => {
            expression(out, part.get())?;
            out.item(colons)?;
            ty(out, of)
        }
        Exp::Lambda(mark, list, arrow, part) => {
            out.item(mark)?;
            patterns(out, list.as_slice())?;
            out.item(arrow)?;
            expression(out, part.get())
        }
        Exp::Let(word, of, in_word, part) => {
            out.item(word)?;
            block(out, of)?;
            out.item(in_word)?;
            expression(out, part.get())
        }
        Exp::If(word, test, then_word, first, else_word, second) => {
            out.item(word)?;
            expression(out, test.get())?;
            out.item(then_word)?;
            expression(out, first.get())?;
            out.item(else_word)?;
            expression(out, second.get())
        }
        Exp::Case(word, part, of_word, of) => {
            out.item(word)?;
            expression(out, part.get())?;
            out.item(of_word)?;
            alternatives(out, of)
        }
        _ => out.word(b"?"),
    }
}

#[cycle(shown)]
fn qualifier(out: &mut Shown, part: &Qualifier) -> Result<(), AllocError> {
    match part {
        Qualifier::Generator(bound, arrow, part) => {
            out.open(b"<generator")?;
            pattern(out, bound)?;
            out.item(arrow)?;
            expression(out, part.get())?;
            out.close()
        }
        Qualifier::Locals(word, of) => {
            out.open(b"<locals")?;
            out.item(word)?;
            block(out, of)?;
            out.close()
        }
        Qualifier::Test(part) => {
            out.open(b"<test")?;
            expression(out, part.get())?;
            out.close()
        }
    }
}

#[cycle(shown)]
fn alternatives(out: &mut Shown, of: &Block<Alt>) -> Result<(), AllocError> {
    out.begin(&of.layout)?;
    for piece in of.pieces.as_slice() {
        match piece {
            Piece::Semicolon(item) => out.item(item)?,
            Piece::Part(part) => {
                out.open(b"<alternative")?;
                pattern(out, &part.pattern)?;
                body(out, &part.body)?;
                locals(out, &part.locals)?;
                out.close()?;
            }
        }
    }
    out.end(&of.layout)
}
