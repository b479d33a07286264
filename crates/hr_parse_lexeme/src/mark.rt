//! Lexemes with one spelling.
ghost use Rattle.std.specs.Prelude.{◌≡◌, true};
ghost use Rattle.hr_parse_lexeme.specs.Marks.{IsMarked, mark_class, mark_text};

use hr_base::{Class, Lexeme};

/// A lexeme with one spelling, as the grammar names it.
#[derive(Clone, Copy, Debug, PartialEq, Eq)]
pub enum Mark {
    LeftParen,
    RightParen,
    LeftSquare,
    RightSquare,
    LeftBrace,
    Comma,
    Semicolon,
    Backquote,
    Equals,
    Bar,
    Arrow,
    BackArrow,
    DoubleColon,
    Colon,
    Dots,
    Backslash,
    At,
    Tilde,
    Wildcard,
    Case,
    Data,
    Else,
    If,
    Import,
    In,
    Let,
    Module,
    Newtype,
    Of,
    Then,
    Type,
    Where,
    Minus,
    As,
    Hiding,
    Qualified,
}

impl Mark {
    /// Whether the lexeme is this one.
    pub fn is(self, lexeme: &Lexeme) -> bool
        ensures { result ≡ true → IsMarked self lexeme.now }
    {
        lexeme.class == self.class() && lexeme.text.is(self.text())
    }

    fn class(self) -> Class
        ensures { result ≡ mark_class self }
    {
        match self {
            Mark::LeftParen => Class::Special,
            Mark::RightParen => Class::Special,
            Mark::LeftSquare => Class::Special,
            Mark::RightSquare => Class::Special,
            Mark::LeftBrace => Class::Special,
            Mark::Comma => Class::Special,
            Mark::Semicolon => Class::Special,
            Mark::Backquote => Class::Special,
            Mark::Equals => Class::ReservedOp,
            Mark::Bar => Class::ReservedOp,
            Mark::Arrow => Class::ReservedOp,
            Mark::BackArrow => Class::ReservedOp,
            Mark::DoubleColon => Class::ReservedOp,
            Mark::Colon => Class::ReservedOp,
            Mark::Dots => Class::ReservedOp,
            Mark::Backslash => Class::ReservedOp,
            Mark::At => Class::ReservedOp,
            Mark::Tilde => Class::ReservedOp,
            Mark::Minus => Class::VarSym,
            Mark::As => Class::VarId,
            Mark::Hiding => Class::VarId,
            Mark::Qualified => Class::VarId,
            _ => Class::ReservedId,
        }
    }

    fn text(self) -> &'static [u8]
        ensures { result.now ≡ mark_text self }
    {
        match self {
            Mark::LeftParen => b"(",
            Mark::RightParen => b")",
            Mark::LeftSquare => b"[",
            Mark::RightSquare => b"]",
            Mark::LeftBrace => b"{",
            Mark::Comma => b",",
            Mark::Semicolon => b";",
            Mark::Backquote => b"`",
            Mark::Equals => b"=",
            Mark::Bar => b"|",
            Mark::Arrow => b"->",
            Mark::BackArrow => b"<-",
            Mark::DoubleColon => b"::",
            Mark::Colon => b":",
            Mark::Dots => b"..",
            Mark::Backslash => b"\\",
            Mark::At => b"@",
            Mark::Tilde => b"~",
            Mark::Wildcard => b"_",
            Mark::Case => b"case",
            Mark::Data => b"data",
            Mark::Else => b"else",
            Mark::If => b"if",
            Mark::Import => b"import",
            Mark::In => b"in",
            Mark::Let => b"let",
            Mark::Module => b"module",
            Mark::Newtype => b"newtype",
            Mark::Of => b"of",
            Mark::Then => b"then",
            Mark::Type => b"type",
            Mark::Where => b"where",
            Mark::Minus => b"-",
            Mark::As => b"as",
            Mark::Hiding => b"hiding",
            Mark::Qualified => b"qualified",
        }
    }
}
