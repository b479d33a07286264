use sqlite_items::Boxed;

/// How a sequence groups: each operator with its two operands. The numbers are those of the
/// sequence's parts, from 0.
#[derive(Debug)]
pub enum Graded {
    /// The operand of this number.
    Operand(u32),
    /// A prefix minus and what it negates.
    Negated {
        minus: u32,
        operand: Boxed<Graded>,
    },
    /// An infix operator between its operands.
    Binary {
        operator: u32,
        left: Boxed<Graded>,
        right: Boxed<Graded>,
    },
}

impl Graded {
    /// Frees a tree whose operators have numbers between `from` and `to`. It goes on with the operand
    /// for which these leave more room, and calls itself for the other one: of the tree of a sequence
    /// each call has at most half of the room that its caller had, so no more than 33 calls are open
    /// at once, however deep the tree is.
    fn free(mut tree: Graded, mut from: u32, mut to: u32) {
        loop {
            match tree {
                Graded::Operand(_) => return,
                Graded::Negated { minus: _, operand } => tree = operand.into_inner(),
                Graded::Binary {
                    operator,
                    left,
                    right,
                } => {
                    if operator.saturating_sub(from) < to.saturating_sub(operator) {
                        Graded::free(left.into_inner(), from, operator);
                        from = operator;
                        tree = right.into_inner();
                    } else {
                        Graded::free(right.into_inner(), operator, to);
                        to = operator;
                        tree = left.into_inner();
                    }
                }
            }
        }
    }
}

impl Drop for Graded {
    fn drop(self) {
        Graded::free(self, 0, u32::MAX);
    }
}
