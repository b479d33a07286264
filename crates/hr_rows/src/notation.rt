ghost use Rattle.std.specs.Prelude.{◌<◌, IfSome, length};

use std::alloc::{AllocError, Global};

/// What is read next of a field.
#[derive(Clone, Copy)]
enum Piece<'a> {
    Byte(u8),
    Repeated { times: u32, text: &'a [u8] },
}

/// The bytes that a field stands for, or `None` where it is not in the notation: a backslash before no
/// escape, a number that no hexadecimal digits or braces follow.
pub fn decoded(alloc: Global, field: &[u8]) -> Result<Option<Vec<u8>>, AllocError> {
    let mut bytes = Vec::new(alloc);
    let mut rest = field;
    while let Some((piece, tail)) = next_piece(rest) {
        match piece {
            Piece::Byte(byte) => bytes.push(byte)?,
            Piece::Repeated { times, text } => {
                let Some(once) = plain(alloc, text)? else {
                    return Ok(None);
                };
                for _ in 0..times {
                    bytes.extend_from_slice(once.as_slice())?;
                }
            }
        }
        rest = tail;
    }
    Ok(if rest.is_empty() { Some(bytes) } else { None })
}

/// The bytes of a text that has no repetition in it.
fn plain(alloc: Global, text: &[u8]) -> Result<Option<Vec<u8>>, AllocError> {
    let mut bytes = Vec::new(alloc);
    let mut rest = text;
    while let Some((Piece::Byte(byte), tail)) = next_piece(rest) {
        bytes.push(byte)?;
        rest = tail;
    }
    Ok(if rest.is_empty() { Some(bytes) } else { None })
}

/// The next piece and what stands behind it; none at the end, and where nothing of the notation begins.
fn next_piece(rest: &[u8]) -> Option<(Piece<'_>, &[u8])>
    ensures { IfSome result (λ found. length found.1.now < length rest.now) }
{
    match rest {
        [] | [b'\\'] => None,
        [b'\\', b'x', high, low, tail @ ..] => {
            let byte = hex_digit(*high)? * 16 + hex_digit(*low)?;
            Some((Piece::Byte(byte), tail))
        }
        [b'\\', b'0'..=b'9', ..] => repetition(rest.split_at(1).1),
        [b'\\', letter, tail @ ..] => Some((Piece::Byte(unescaped(*letter)?), tail)),
        [byte, tail @ ..] => Some((Piece::Byte(*byte), tail)),
    }
}

/// A number, `{`, a text and `}`, and what stands behind them.
fn repetition(rest: &[u8]) -> Option<(Piece<'_>, &[u8])>
    ensures { IfSome result (λ found. length found.1.now < length rest.now) }
{
    let (digits, behind) = rest.split_at(index_of(rest, b'{')?);
    let (text, tail) = behind.split_at(index_of(behind, b'}')?);
    let times = number(digits)?;
    let (_, text) = text.split_first()?;
    let (_, tail) = tail.split_first()?;
    Some((Piece::Repeated { times, text }, tail))
}

/// Where a byte first stands.
fn index_of(bytes: &[u8], sought: u8) -> Option<usize>
    ensures { IfSome result (λ place. place < length bytes.now) }
{
    bytes.iter().position(|byte| *byte == sought)
}

/// The number that decimal digits spell.
fn number(digits: &[u8]) -> Option<u32> {
    let mut sum = 0u32;
    for digit in digits {
        if !digit.is_ascii_digit() {
            return None;
        }
        sum = sum.checked_mul(10)?.checked_add(u32::from(*digit - b'0'))?;
    }
    Some(sum)
}

/// The value of a hexadecimal digit.
fn hex_digit(digit: u8) -> Option<u8>
    ensures { IfSome result (λ value. value < 16) }
{
    match digit {
        b'0'..=b'9' => Some(digit - b'0'),
        b'a'..=b'f' => Some(digit - b'a' + 10),
        b'A'..=b'F' => Some(digit - b'A' + 10),
        _ => None,
    }
}

/// The byte that a backslash and a letter stand for.
fn unescaped(letter: u8) -> Option<u8> {
    match letter {
        b'n' => Some(10),
        b'r' => Some(13),
        b't' => Some(9),
        b'f' => Some(12),
        b'v' => Some(11),
        b's' => Some(32),
        b'\\' => Some(92),
        _ => None,
    }
}

/// The bytes in the notation: each printable byte of ASCII as itself, but for the backslash.
pub fn escaped(alloc: Global, bytes: &[u8]) -> Result<String, AllocError> {
    let mut text = String::new(alloc);
    for byte in bytes {
        match byte {
            b'\n' => text.push_str("\\n")?,
            b'\r' => text.push_str("\\r")?,
            b'\t' => text.push_str("\\t")?,
            b'\x0C' => text.push_str("\\f")?,
            b'\x0B' => text.push_str("\\v")?,
            b'\\' => text.push_str("\\\\")?,
            b' '..=b'~' => text.push(char::from(*byte))?,
            _ => {
                let hex = format!(in alloc; "\\x{byte:02X}")?;
                text.push_str(hex.as_str())?;
            }
        }
    }
    Ok(text)
}
