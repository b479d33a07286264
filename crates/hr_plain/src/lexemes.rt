ghost use Rattle.std.specs.Prelude.{◌≡◌, ◌∷◌, [], nat_eq};
ghost use Rattle.std.specs.Cmp.Lexicographic.{pointwise};
ghost use Rattle.hr_plain.specs.Form.{is_ascii_text, is_at_margin, is_integer, is_mark, is_pattern, is_plain_variable, is_reserved_class};
ghost use Rattle.hr_plain.specs.Scoping.{is_variable};

use hr_base::{Class, Item};

/// Whether the lexeme is a variable.
pub fn is_variable(item: &Item) -> bool
    ensures { result ≡ is_variable item.now }
{
    match item.lexeme.class {
        Class::VarId => true,
        _ => false,
    }
}

/// Whether the lexeme is an ASCII variable.
pub fn is_plain_variable(item: &Item) -> bool
    ensures { result ≡ is_plain_variable item.now }
{
    is_variable(item) && is_ascii(item.lexeme.text.as_slice())
}

fn is_ascii(text: &[u8]) -> bool
    ensures { result ≡ is_ascii_text text.now }
{
    for b in text {
        if *b >= 128 {
            return false;
        }
    }
    true
}

/// Whether the lexeme is an integer.
pub fn is_integer(item: &Item) -> bool
    ensures { result ≡ is_integer item.now }
{
    match item.lexeme.class {
        Class::Integer => true,
        _ => false,
    }
}

/// Whether the lexeme may be a pattern.
pub fn is_pattern(item: &Item) -> bool
    ensures { result ≡ is_pattern item.now }
{
    is_plain_variable(item) || is_integer(item)
}

/// Whether the lexeme is a special character or a reserved operator, and is this one character.
pub fn is_mark(item: &Item, mark: u8) -> bool
    ensures { result ≡ is_mark mark item.now }
{
    is_reserved(item) && is_character(item.lexeme.text.as_slice(), mark)
}

fn is_reserved(item: &Item) -> bool
    ensures { result ≡ is_reserved_class item.now.lexeme.class }
{
    match item.lexeme.class {
        Class::Special => true,
        Class::ReservedOp => true,
        _ => false,
    }
}

fn is_character(text: &[u8], character: u8) -> bool
    ensures { result ≡ pointwise nat_eq text.now (character ∷ []) }
{
    match text {
        [only] => *only == character,
        _ => false,
    }
}

/// Whether the lexeme stands at the margin, with a linefeed just before it or as the first thing of
/// its text.
pub fn is_at_margin(item: &Item, is_first: bool) -> bool
    ensures { result ≡ is_at_margin is_first item.now }
{
    match item.trivia.as_slice().last() {
        Some(b) => *b == b'\n',
        None => is_first,
    }
}
