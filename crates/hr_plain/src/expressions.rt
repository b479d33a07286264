ghost use Rattle.std.specs.Prelude.{◌≡◌, IfOk, nat_le};
ghost use Rattle.hr_plain_tree.specs.Yields.{height_of};
ghost use Rattle.hr_plain.specs.Reading as spec;

use crate::lexemes::{is_integer, is_mark, is_plain_variable};
use hr_base::{Item, Seq};
use hr_plain_tree::Exp;
use sqlite_items::{Boxed, Items as Children};
use std::alloc::{AllocError, Global};

/// How many nodes may stand in one another in the body of an equation: the body is at nesting 3,
/// and none is above 256.
pub const HEIGHT_LIMIT: u32 = 254;

/// How many parentheses may be open.
const OPEN_LIMIT: usize = 254;

/// An expression of which items are still to come.
#[derive(Drop)]
pub struct Body {
    /// The atoms behind the innermost open parenthesis.
    pub atoms: Children<Exp>,
    /// What is outside of each open parenthesis, the innermost last.
    pub outer: Seq<Outer>,
}

/// An open parenthesis, and the atoms just before it.
#[derive(Drop)]
pub struct Outer {
    pub atoms: Children<Exp>,
    pub left: Item,
}

/// An expression of which no item has been read.
pub fn nothing_read(alloc: Global) -> Body
    ensures { result ≡ spec.nothing_read }
{
    Body {
        atoms: Children::new(alloc),
        outer: Seq {
            list: Vec::new(alloc),
        },
    }
}

/// The expression with the next item; none where none goes on so.
pub fn body_with(alloc: Global, body: Body, item: Item) -> Result<Option<Body>, AllocError>
    ensures { IfOk result (λ found. found ≡ spec.body_with body item) }
{
    if is_plain_variable(&item) {
        return Ok(Some(with_atom(body, Exp::Variable(item))?));
    }
    if is_integer(&item) {
        return Ok(Some(with_atom(body, Exp::Integer(item))?));
    }
    if is_mark(&item, b'(') {
        return opened(alloc, body, item);
    }
    if is_mark(&item, b')') {
        return group_closed(alloc, body, item);
    }
    Ok(None)
}

fn with_atom(body: Body, atom: Exp) -> Result<Body, AllocError>
    ensures { IfOk result (λ longer. longer ≡ spec.with_atom body atom) }
{
    let Body { mut atoms, outer } = body;
    atoms.push(atom)?;
    Ok(Body { atoms, outer })
}

/// The expression with a `(`.
fn opened(alloc: Global, body: Body, left: Item) -> Result<Option<Body>, AllocError>
    ensures { IfOk result (λ found. found ≡ spec.opened body left) }
{
    let Body { atoms, mut outer } = body;
    if outer.list.len() < OPEN_LIMIT {
        outer.list.push(Outer { atoms, left })?;
        Ok(Some(Body {
            atoms: Children::new(alloc),
            outer,
        }))
    } else {
        Ok(None)
    }
}

/// The expression with a `)`.
fn group_closed(alloc: Global, body: Body, right: Item) -> Result<Option<Body>, AllocError>
    ensures { IfOk result (λ found. found ≡ spec.group_closed body right) }
{
    let Body { atoms, outer } = body;
    let Some((outer, last)) = split_last(outer) else {
        return Ok(None);
    };
    let Some(inner) = joined(atoms) else {
        return Ok(None);
    };
    Ok(Some(grouped(alloc, outer, last, right, inner)?))
}

/// All but the innermost one, and that.
#[tactic(auto, using(crate::proofs::Basics::split_more))]
fn split_last(outer: Seq<Outer>) -> Option<(Seq<Outer>, Outer)>
    ensures { result ≡ spec.split_last outer }
{
    let mut outer = outer;
    let last = outer.list.pop()?;
    Some((outer, last))
}

fn grouped(
    alloc: Global,
    outer: Seq<Outer>,
    last: Outer,
    right: Item,
    inner: Exp,
) -> Result<Body, AllocError>
    ensures { IfOk result (λ body. body ≡ spec.grouped outer last right inner) }
{
    let Outer { mut atoms, left } = last;
    atoms.push(Exp::Group(left, Boxed::new(alloc, inner)?, right))?;
    Ok(Body { atoms, outer })
}

/// The expression of these atoms.
fn joined(atoms: Children<Exp>) -> Option<Exp>
    ensures { result ≡ spec.joined atoms }
{
    if atoms.len() > 1 {
        return Some(Exp::Apply(atoms));
    }
    let mut atoms = atoms;
    atoms.pop()
}

/// The expression, where no parenthesis is open.
pub fn body_end(body: Body) -> Option<Exp>
    ensures { result ≡ spec.body_end body }
{
    let Body { atoms, outer } = body;
    if outer.list.is_empty() {
        joined(atoms)
    } else {
        None
    }
}

/// Whether at most so many nodes stand in one another in the expression.
#[tactic(auto, using(crate::proofs::Heights::within))]
pub fn is_within(exp: &Exp, limit: u32) -> bool
    ensures { result ≡ nat_le (height_of exp.now) limit }
{
    if limit == 0 {
        return false;
    }
    match exp {
        Exp::Variable(_) => true,
        Exp::Integer(_) => true,
        Exp::Group(_, inner, _) => is_within(inner.get(), limit - 1),
        Exp::Apply(atoms) => {
            for atom in atoms.as_slice() {
                if !is_within(atom, limit - 1) {
                    return false;
                }
            }
            true
        }
    }
}
