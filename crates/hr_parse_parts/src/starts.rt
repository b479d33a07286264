//! With which lexemes expressions and declarations begin.

use hr_parse_lexeme::Kind;
use hr_parse_pattern::{begins_operator, begins_pattern};

/// Whether an atom can begin so.
pub fn begins_atom(kind: Kind) -> bool {
    matches!(
        kind,
        Kind::Variable
            | Kind::QualifiedVariable
            | Kind::Constructor
            | Kind::QualifiedConstructor
            | Kind::Integer
            | Kind::Literal
            | Kind::LeftParen
            | Kind::LeftSquare
    )
}

/// Whether an operand can begin so: an atom, or a lambda, `let`, `if` or `case`.
pub fn begins_operand(kind: Kind) -> bool {
    matches!(kind, Kind::Backslash | Kind::Let | Kind::If | Kind::Case) || begins_atom(kind)
}

/// Whether an operand can begin so, or the minus before one.
pub fn begins_sequence(kind: Kind) -> bool {
    matches!(kind, Kind::Minus) || begins_operand(kind)
}

/// Whether an operand of patterns begins so that no expression begins with.
pub fn begins_pattern_alone(kind: Kind) -> bool {
    matches!(kind, Kind::Wildcard | Kind::Tilde)
}

/// Whether an operator of symbols other than the minus begins so.
pub fn is_operator_symbol(kind: Kind) -> bool {
    begins_operator(kind) && !matches!(kind, Kind::Minus | Kind::Backquote)
}

/// Whether a declaration of any block can begin so.
pub fn begins_declaration(kind: Kind) -> bool {
    matches!(kind, Kind::Fixity) || begins_pattern(kind)
}
