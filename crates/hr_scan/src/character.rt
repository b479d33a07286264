//! The one decoder: the character that begins at a place of a text.
ghost use Rattle.std.specs.Prelude.{◌≡◌, ◌+◌, drop, IfSome, IfNone};
ghost use Rattle.hr_scan.specs.Characters.{announced_len, cell_len, char_at, wide_char_at, Begins};
ghost use Rattle.std.specs.Str.{StartsWithNoChar};

use std::str;

/// A character by its code, with the number of bytes that it takes in UTF-8.
#[derive(Clone, Copy, Debug, PartialEq, Eq)]
pub struct Character {
    pub code: u32,
    pub len: usize,
}

/// The character that begins at the place `from`, if one begins there.
pub fn character_at(bytes: &[u8], from: usize) -> Option<Character>
    ensures value { result ≡ char_at (drop from bytes.now) }
    ensures some { IfSome result (λ c. Begins c (drop from bytes.now) (drop (from + c.len) bytes.now)) }
    ensures none { IfNone result (StartsWithNoChar (drop from bytes.now)) }
{
    let (_, rest) = bytes.split_at_checked(from)?;
    first_character(rest)
}

/// How many bytes a cell of a text takes: a character, or one byte that begins none.
pub fn cell_len(cell: Option<Character>) -> usize
    ensures { result ≡ cell_len cell }
{
    cell.map_or(1, |character| character.len)
}

/// The character at the front.
fn first_character(bytes: &[u8]) -> Option<Character>
    ensures { result ≡ char_at bytes.now }
{
    let first = *bytes.first()?;
    if first < 0x80 {
        return Some(Character {
            code: u32::from(first),
            len: 1,
        });
    }
    wide_character(announced_len(first), bytes)
}

/// The character that the first `len` bytes spell.
fn wide_character(len: usize, bytes: &[u8]) -> Option<Character>
    ensures { result ≡ wide_char_at len bytes.now }
{
    let text = &bytes[..len.min(bytes.len())];
    let code = str::from_utf8(text).ok()?.chars().next()?;
    Some(Character {
        code: u32::from(code),
        len: text.len(),
    })
}

/// How many bytes a character takes that begins with this byte.
fn announced_len(first: u8) -> usize
    ensures { result ≡ announced_len first }
{
    match first {
        0x00..=0x7F => 1,
        0x80..=0xDF => 2,
        0xE0..=0xEF => 3,
        _ => 4,
    }
}
