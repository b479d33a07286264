//! What a lexeme is to the layout rule.
ghost use Rattle.std.specs.Prelude.{◌≡◌};
ghost use Rattle.hr_rules.specs.Roles.{reserved_role, role_by, role_of, special_role, symbol_role, word_role};

use crate::words::{is_one_of, is_spelled};
use hr_base::{Class, Lexeme};

const FIXITY_WORDS: [&[u8]; 3] = [b"infix", b"infixl", b"infixr"];

/// The words that begin a declaration of the top level alone.
const TOP_WORDS: [&[u8]; 4] = [b"type", b"data", b"newtype", b"import"];

const OPEN_BRACKETS: [&[u8]; 2] = [b"(", b"["];

/// What a lexeme is to the layout rule, which asks of a lexeme only whether it can begin a part of a
/// block, and what it can follow.
#[derive(Clone, Copy, Debug, PartialEq, Eq)]
pub enum Role {
    /// A variable or constructor by a word, qualified or not.
    Name,
    /// A number, character or string.
    Literal,
    /// `(` or `[`.
    OpenBracket,
    /// `_`.
    Wildcard,
    /// `~`.
    Tilde,
    /// `-`.
    Minus,
    /// Any other variable or constructor operator, qualified or not, or `:`.
    Operator,
    /// The backquote.
    Backquote,
    /// `::`.
    DoubleColon,
    /// `|`.
    Bar,
    /// `->`.
    Arrow,
    /// `where`.
    Where,
    /// `of`.
    Of,
    /// `infix`, `infixl` or `infixr`.
    FixityWord,
    /// `type`, `data`, `newtype` or `import`.
    TopWord,
    /// `,`.
    Comma,
    /// `;`.
    Semicolon,
    /// `{`.
    OpenBrace,
    /// `}`.
    CloseBrace,
    /// Any other lexeme.
    Other,
}

/// What the lexeme is to the layout rule.
#[tactic(auto, unfolding(crate::specs::Roles::role_of))]
pub fn role_of(lexeme: &Lexeme) -> Role
    ensures { result ≡ role_of lexeme.now }
{
    role_by(lexeme.class, lexeme.text.as_slice())
}

/// The role of a text of the class.
fn role_by(class: Class, text: &[u8]) -> Role
    ensures { result ≡ role_by class text.now }
{
    match class {
        Class::VarId => Role::Name,
        Class::ConId => Role::Name,
        Class::QVarId => Role::Name,
        Class::QConId => Role::Name,
        Class::Integer => Role::Literal,
        Class::Float => Role::Literal,
        Class::Char => Role::Literal,
        Class::Str => Role::Literal,
        Class::VarSym => symbol_role(text),
        Class::ConSym => Role::Operator,
        Class::QVarSym => Role::Operator,
        Class::QConSym => Role::Operator,
        Class::ReservedId => word_role(text),
        Class::ReservedOp => reserved_role(text),
        Class::Special => special_role(text),
    }
}

/// The role of a variable operator.
fn symbol_role(text: &[u8]) -> Role
    ensures { result ≡ symbol_role text.now }
{
    if is_spelled(b"-", text) {
        Role::Minus
    } else {
        Role::Operator
    }
}

/// The role of a reserved word.
fn word_role(text: &[u8]) -> Role
    ensures { result ≡ word_role text.now }
{
    if is_spelled(b"_", text) {
        Role::Wildcard
    } else if is_spelled(b"where", text) {
        Role::Where
    } else if is_spelled(b"of", text) {
        Role::Of
    } else if is_one_of(&FIXITY_WORDS, text) {
        Role::FixityWord
    } else if is_one_of(&TOP_WORDS, text) {
        Role::TopWord
    } else {
        Role::Other
    }
}

/// The role of a reserved operator: `:` is one, and a constructor operator as well.
fn reserved_role(text: &[u8]) -> Role
    ensures { result ≡ reserved_role text.now }
{
    if is_spelled(b":", text) {
        Role::Operator
    } else if is_spelled(b"::", text) {
        Role::DoubleColon
    } else if is_spelled(b"|", text) {
        Role::Bar
    } else if is_spelled(b"->", text) {
        Role::Arrow
    } else if is_spelled(b"~", text) {
        Role::Tilde
    } else {
        Role::Other
    }
}

/// The role of a special.
fn special_role(text: &[u8]) -> Role
    ensures { result ≡ special_role text.now }
{
    if is_one_of(&OPEN_BRACKETS, text) {
        Role::OpenBracket
    } else if is_spelled(b"`", text) {
        Role::Backquote
    } else if is_spelled(b",", text) {
        Role::Comma
    } else if is_spelled(b";", text) {
        Role::Semicolon
    } else if is_spelled(b"{", text) {
        Role::OpenBrace
    } else if is_spelled(b"}", text) {
        Role::CloseBrace
    } else {
        Role::Other
    }
}
