ghost use Rattle.std.specs.Prelude.{◌≡◌, ◌↔◌, IsTrue};
ghost use Rattle.hr_fixity.specs.Sequence.{IsRootOf, IsInfixSequence, take_turns};
ghost use Rattle.hr_fixity.specs.declared.sequence.Awaited.TheVariants.{Term};

use hr_base::{Place, Seq};

/// To which side operators of one level group.
#[derive(Clone, Copy, Debug, PartialEq, Eq)]
pub enum Direction {
    Left,
    Right,
    Neither,
}

/// What a fixity declaration gives an operator: a level from 0, the loosest, to 9, and a direction.
#[derive(Clone, Copy, Debug, PartialEq, Eq)]
pub struct Fixity {
    pub level: u8,
    pub direction: Direction,
}

/// A part of a sequence. The place of an operator in backquotes is that of the name between them.
#[derive(Clone, Debug, Drop)]
pub enum Part {
    Operand,
    Operator { place: Place, fixity: Fixity },
    /// A prefix minus of an expression, which negates as much as binds tighter than it does.
    Minus { place: Place },
    /// A prefix minus of a pattern, which takes the literal behind it and no more.
    PatternMinus { place: Place },
}

/// A flat sequence. `root` is the number of the operator that has to stand at the root, as the
/// variable operator of a left side has.
#[derive(Clone, Debug, Drop)]
pub struct Infix {
    pub parts: Seq<Part>,
    pub root: Option<u32>,
}

/// What the next part of a sequence is to be.
#[derive(Clone, Copy, Debug, PartialEq, Eq)]
pub enum Awaited {
    /// An operand, or a prefix minus before one.
    Term,
    /// The operand behind a prefix minus.
    Negated,
    /// An infix operator, or the end.
    Operator,
}

/// Whether operands and operators take turns, at levels up to 9.
fn takes_turns(parts: &[Part]) -> bool
    ensures { result ≡ take_turns Term parts.now }
{
    let mut awaited = Awaited::Term;
    for part in parts {
        awaited = match (awaited, part) {
            (Awaited::Term, Part::Operand) => Awaited::Operator,
            (Awaited::Term, Part::Minus { .. }) => Awaited::Negated,
            (Awaited::Term, Part::PatternMinus { .. }) => Awaited::Negated,
            (Awaited::Negated, Part::Operand) => Awaited::Operator,
            (Awaited::Operator, Part::Operator { fixity, .. }) => {
                if fixity.level > 9 {
                    return false;
                }
                Awaited::Term
            }
            _ => return false,
        };
    }
    match awaited {
        Awaited::Operator => true,
        Awaited::Term => false,
        Awaited::Negated => false,
    }
}

/// Whether the root, if there is one, is the number of an infix operator.
fn has_root(parts: &[Part], root: Option<u32>) -> bool
    ensures { IsTrue result ↔ IsRootOf parts.now root }
{
    match root {
        None => true,
        Some(root) => match parts.get(root as usize) {
            Some(Part::Operator { .. }) => true,
            _ => false,
        },
    }
}

impl Infix {
    /// Whether this is a sequence: operands and operators take turns, an operand comes first and
    /// last, levels are at most 9, the root is an infix operator, and the parts can be numbered.
    pub fn is_sequence(&self) -> bool
        ensures { IsTrue result ↔ IsInfixSequence self.now }
    {
        let parts = self.parts.as_slice();
        if !takes_turns(parts) {
            return false;
        }
        if !has_root(parts, self.root) {
            return false;
        }
        parts.len() < 1 << 32
    }
}
