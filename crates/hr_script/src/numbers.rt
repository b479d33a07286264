//! Numbers and positions, without leading zeros.
ghost use Rattle.std.specs.Prelude.{◌≡◌, map, IfOk};
ghost use Rattle.std.specs.Char.{is_ascii_digit};
ghost use Rattle.std.specs.List.{list_all};
ghost use Rattle.hr_script.specs.Numbers as spec;

use hr_base::Pos;
use std::alloc::{AllocError, Global};

/// The pieces between the separators.
pub(crate) fn pieces(alloc: Global, text: &[u8], separator: u8) -> Result<Vec<&[u8]>, AllocError>
    ensures { IfOk result (λ pieces. map (λ piece. piece.now) pieces.items ≡ spec.cut_at separator text.now) }
{
    text.split(|byte| *byte == separator).collect(alloc)
}

/// The number that the text is, if 32 bits hold it.
#[tactic(auto, unfolding(crate::specs::Numbers::number_in))]
pub(crate) fn number_of(text: &[u8]) -> Option<u32>
    ensures { result ≡ spec.number_in text.now }
{
    if begins_number(text) && all_digits(text) {
        value_of(text)
    } else {
        None
    }
}

fn begins_number(text: &[u8]) -> bool
    ensures { result ≡ spec.begins_number text.now }
{
    match text {
        [] => false,
        [_] => true,
        [first, ..] => *first > b'0',
    }
}

fn all_digits(text: &[u8]) -> bool
    ensures { result ≡ list_all is_ascii_digit text.now }
{
    text.iter().all(|byte| byte.is_ascii_digit())
}

/// What decimal digits stand for, if 32 bits hold it.
#[tactic(auto, unfolding(crate::specs::Numbers::decimal_value))]
fn value_of(digits: &[u8]) -> Option<u32>
    ensures { result ≡ spec.in_32_bits (spec.decimal_value digits.now) }
{
    let mut value = 0u64;
    for digit in digits {
        value = value * 10 + u64::from(digit.saturating_sub(b'0'));
        if value > GREATEST {
            return None;
        }
    }
    Some(value as u32)
}

/// The greatest number of a script.
const GREATEST: u64 = 4_294_967_295;

/// The number that the text is, if it is 1 or more.
fn counted(text: &[u8]) -> Option<u32>
    ensures { result ≡ spec.from_one (spec.number_in text.now) }
{
    match number_of(text) {
        Some(0) => None,
        found => found,
    }
}

/// The position that the text is, as `LINE:COLUMN`.
#[tactic(auto, unfolding(crate::specs::Numbers::position_in))]
pub fn pos_of(alloc: Global, text: &[u8]) -> Result<Option<Pos>, AllocError>
    ensures { IfOk result (λ found. found ≡ spec.position_in text.now) }
{
    match pieces(alloc, text, b':')?.as_slice() {
        [line, col] => match (counted(line), counted(col)) {
            (Some(line), Some(col)) => Ok(Some(Pos { line, col })),
            _ => Ok(None),
        },
        _ => Ok(None),
    }
}
