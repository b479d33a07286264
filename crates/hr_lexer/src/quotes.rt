//! Characters and strings, behind their first quote.
ghost use Rattle.std.specs.Prelude.{◌≡◌, ◌+◌, ◌<◌, ◌≤◌, ◌^◌, length, IfSome, Some};
ghost use Rattle.hr_rules.specs.Quotes.{char_len, closed_behind, is_closed, is_plain, string_len};
ghost use Rattle.hr_lexer.specs.QuoteReader.{char_at_quote, literal, string_at_quote};

use crate::escapes::{escape_len, string_escape_len};
use crate::taken::Taken;
use hr_base::Class;

/// A character literal.
pub fn char_at_quote(text: &[char]) -> Option<Taken>
    requires { length text.now + 1 < 2 ^ 64 }
    ensures value { result ≡ char_at_quote text.now }
    ensures within { IfSome result (λ taken. taken.len ≤ length text.now + 1) }
    ensures some { IfSome result (λ taken. 0 < taken.len) }
{
    literal(Class::Char, char_len(text))
}

/// A string literal.
pub fn string_at_quote(text: &[char]) -> Option<Taken>
    requires { length text.now + 1 < 2 ^ 64 }
    ensures value { result ≡ string_at_quote text.now }
    ensures within { IfSome result (λ taken. taken.len ≤ length text.now + 1) }
    ensures some { IfSome result (λ taken. 0 < taken.len) }
{
    literal(Class::Str, string_len(text))
}

/// A literal whose length is known but for its first quote.
fn literal(class: Class, len: Option<usize>) -> Option<Taken>
    requires { IfSome len (λ n. n + 1 < 2 ^ 64) }
    ensures value { result ≡ literal class len }
    ensures within { IfSome result (λ taken. IfSome len (λ n. taken.len ≤ n + 1)) }
    ensures some { IfSome result (λ taken. 0 < taken.len) }
{
    Some(Taken {
        class,
        len: len? + 1,
    })
}

/// The length of a character literal.
fn char_len(text: &[char]) -> Option<usize>
    ensures value { result ≡ char_len text.now }
    ensures within { IfSome result (λ n. n ≤ length text.now) }
{
    match text {
        [] => None,
        [c, rest @ ..] if is_plain('\'', *c) => closed_behind(rest, 0),
        ['\\', rest @ ..] => closed_behind(rest, escape_len(rest)?),
        _ => None,
    }
}

/// The length up to the closing quote, where it stands behind an escape of `len` characters.
fn closed_behind(text: &[char], len: usize) -> Option<usize>
    ensures value { result ≡ closed_behind text.now (Some len) }
    ensures within { IfSome result (λ n. n ≤ length text.now + 1) }
{
    let (_, rest) = text.split_at_checked(len)?;
    match rest {
        ['\'', ..] => Some(len + 2),
        _ => None,
    }
}

/// The length of a string.
fn string_len(text: &[char]) -> Option<usize>
    ensures value { result ≡ string_len text.now }
    ensures within { IfSome result (λ n. n ≤ length text.now) }
{
    let mut rest = text;
    loop {
        match rest {
            [] => return None,
            ['"', tail @ ..] => return Some(text.len() - tail.len()),
            [c, tail @ ..] if is_plain('"', *c) => rest = tail,
            ['\\', tail @ ..] => rest = tail.split_at_checked(string_escape_len(tail)?)?.1,
            _ => return None,
        }
    }
}

/// Whether the character may stand for itself between these quotes.
fn is_plain(own: char, c: char) -> bool
    ensures { result ≡ is_plain own c }
{
    !(c.is_control() || c == '\\' || c == own)
}
