//! What the parser decides by.

use hr_base::{Class, Lexeme};
use hr_layout::Cursor;

/// What a lexeme can begin or go on with.
#[derive(Clone, Copy, Debug, PartialEq, Eq)]
pub enum Kind {
    /// None is left, or the next one doesn't go on in the block.
    Nothing,
    Variable,
    QualifiedVariable,
    Constructor,
    QualifiedConstructor,
    /// A variable operator other than the minus.
    VariableSymbol,
    Minus,
    QualifiedVariableSymbol,
    ConstructorSymbol,
    QualifiedConstructorSymbol,
    Colon,
    Backquote,
    Integer,
    Literal,
    LeftParen,
    RightParen,
    LeftSquare,
    RightSquare,
    Comma,
    Bar,
    Arrow,
    BackArrow,
    DoubleColon,
    Dots,
    Equals,
    Backslash,
    At,
    Tilde,
    Wildcard,
    Case,
    If,
    Let,
    Where,
    /// A word that begins a declaration: of a type, a fixity or an import.
    Type,
    Data,
    Newtype,
    Fixity,
    Import,
    Other,
}

/// The kind of the next lexeme, if it goes on.
pub fn kind_ahead(cursor: &Cursor) -> Kind {
    match cursor.ahead() {
        None => Kind::Nothing,
        Some(lexeme) => kind_of(lexeme),
    }
}

fn kind_of(lexeme: &Lexeme) -> Kind {
    let text = lexeme.text.as_slice();
    match lexeme.class {
        Class::VarId => Kind::Variable,
        Class::QVarId => Kind::QualifiedVariable,
        Class::ConId => Kind::Constructor,
        Class::QConId => Kind::QualifiedConstructor,
        Class::VarSym => symbol_kind(text),
        Class::QVarSym => Kind::QualifiedVariableSymbol,
        Class::ConSym => Kind::ConstructorSymbol,
        Class::QConSym => Kind::QualifiedConstructorSymbol,
        Class::Integer => Kind::Integer,
        Class::Float => Kind::Other,
        Class::Char => Kind::Literal,
        Class::Str => Kind::Literal,
        Class::Special => special_kind(text),
        Class::ReservedOp => reserved_kind(text),
        Class::ReservedId => word_kind(text),
    }
}

fn symbol_kind(text: &[u8]) -> Kind {
    match text {
        b"-" => Kind::Minus,
        _ => Kind::VariableSymbol,
    }
}

fn special_kind(text: &[u8]) -> Kind {
    match text {
        b"(" => Kind::LeftParen,
        b")" => Kind::RightParen,
        b"[" => Kind::LeftSquare,
        b"]" => Kind::RightSquare,
        b"," => Kind::Comma,
        b"`" => Kind::Backquote,
        _ => Kind::Other,
    }
}

fn reserved_kind(text: &[u8]) -> Kind {
    match text {
        b":" => Kind::Colon,
        b"::" => Kind::DoubleColon,
        b"=" => Kind::Equals,
        b"|" => Kind::Bar,
        b"->" => Kind::Arrow,
        b"<-" => Kind::BackArrow,
        b".." => Kind::Dots,
        b"\\" => Kind::Backslash,
        b"@" => Kind::At,
        b"~" => Kind::Tilde,
        _ => Kind::Other,
    }
}

fn word_kind(text: &[u8]) -> Kind {
    match text {
        b"_" => Kind::Wildcard,
        b"case" => Kind::Case,
        b"if" => Kind::If,
        b"let" => Kind::Let,
        b"where" => Kind::Where,
        b"type" => Kind::Type,
        b"data" => Kind::Data,
        b"newtype" => Kind::Newtype,
        b"infix" => Kind::Fixity,
        b"infixl" => Kind::Fixity,
        b"infixr" => Kind::Fixity,
        b"import" => Kind::Import,
        _ => Kind::Other,
    }
}
