//! With which lexemes patterns begin.

use hr_parse_lexeme::Kind;

/// Whether an atomic pattern can begin so.
pub fn begins_atomic(kind: Kind) -> bool {
    matches!(
        kind,
        Kind::Variable
            | Kind::Constructor
            | Kind::QualifiedConstructor
            | Kind::Integer
            | Kind::Literal
            | Kind::Wildcard
            | Kind::Tilde
            | Kind::LeftParen
            | Kind::LeftSquare
    )
}

/// Whether any pattern can begin so.
pub fn begins_pattern(kind: Kind) -> bool {
    matches!(kind, Kind::Minus) || begins_atomic(kind)
}

/// Whether it is an operator of symbols other than the minus.
pub fn is_symbol(kind: Kind) -> bool {
    matches!(
        kind,
        Kind::VariableSymbol
            | Kind::QualifiedVariableSymbol
            | Kind::ConstructorSymbol
            | Kind::QualifiedConstructorSymbol
            | Kind::Colon
    )
}
