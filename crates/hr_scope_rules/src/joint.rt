/// What a place of a module is to an infix sequence.
#[derive(Clone, Copy, Debug, PartialEq, Eq)]
pub enum Joint {
    /// A sequence of expressions begins.
    Expression,
    /// A sequence of patterns begins, or a left side with a variable operator.
    Pattern,
    /// A minus before an operand.
    Minus,
    Operator,
    /// The variable operator of a left side, which is to be the root.
    Root,
    /// The innermost sequence ends.
    End,
}
