use hr_base::Seq;

/// A part of an infix sequence. An operator and a prefix minus are the lexeme of that number in the module; an
/// operator in backquotes is the name between them.
#[derive(Clone, Copy, Debug, PartialEq, Eq)]
pub enum SequencePart {
    Operand,
    Operator { item: usize },
    Minus { item: usize },
    /// The minus of a negative literal in a pattern.
    PatternMinus { item: usize },
}

/// An infix sequence of expressions or of patterns, or the left side of an equation that defines an operator: this
/// is then the part of the number `root`.
#[derive(Drop)]
pub struct Sequence {
    pub parts: Seq<SequencePart>,
    pub root: Option<u32>,
}
