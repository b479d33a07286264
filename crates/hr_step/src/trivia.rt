//! Whether blanks and comments stay.
ghost use Rattle.std.specs.Prelude.{◌≡◌, ◌≤◌, ◌<◌, length};
ghost use Rattle.hr_step.specs.Trivia.{are_blanks, behind_newline, front_behind, does_tail_stay, does_trivia_stay, front_len, is_blank, is_end, is_number, is_one_blank_more, may_be_indented, may_end_for, may_stand_for, number_behind, stays_at, stays_here};

use crate::kept::kept_number;
use hr_base::{Item, Items, Text};
use hr_draft::Drafted;
use hr_rules::has_newline;

/// Whether what stands before each kept lexeme stays, where the lexeme before it is the one that it had; and so what is
/// behind the last lexeme.
pub fn does_trivia_stay(old: &Items, draft: &[Drafted], new: &Items) -> bool
    ensures { result ≡ does_trivia_stay old.now draft.now new.now }
{
    let mut behind = Some(0);
    let mut left = new.list.as_slice();
    for drafted in draft {
        let [item, rest @ ..] = left else {
            return false;
        };
        let number = kept_number(drafted);
        if !stays_here(old.list.as_slice(), behind, number, item) {
            return false;
        }
        behind = number_behind(number);
        left = rest;
    }
    does_tail_stay(old, behind, &new.tail)
}

/// The number of the old lexeme that stood behind the one of the number.
fn number_behind(number: Option<usize>) -> Option<usize>
    ensures { result ≡ number_behind number }
{
    match number {
        Some(number) => Some(number.saturating_add(1)),
        None => None,
    }
}

fn is_number(behind: Option<usize>, number: usize) -> bool
    ensures { result ≡ is_number behind number }
{
    match behind {
        Some(behind) => behind == number,
        None => false,
    }
}

/// Whether the trivia of the old lexeme of the number stays before the new one, where that is the lexeme that stood
/// behind the one before it.
fn stays_here(old: &[Item], behind: Option<usize>, number: Option<usize>, new: &Item) -> bool
    ensures { result ≡ stays_here old.now behind number new.now }
{
    match number {
        Some(number) => {
            if is_number(behind, number) {
                stays_at(old, number, new)
            } else {
                true
            }
        }
        None => true,
    }
}

fn stays_at(old: &[Item], number: usize, new: &Item) -> bool
    ensures { result ≡ stays_at old.now number new.now }
{
    match old.get(number) {
        Some(item) => may_stand_for(item.trivia.as_slice(), new.trivia.as_slice(), number == 0),
        None => false,
    }
}

/// Whether what is behind the last lexeme stays, where that lexeme is the last one of the old text too.
fn does_tail_stay(old: &Items, behind: Option<usize>, new: &Text) -> bool
    ensures { result ≡ does_tail_stay old.now behind new.now }
{
    if is_number(behind, old.list.len()) {
        may_end_for(old.tail.as_slice(), new.as_slice())
    } else {
        true
    }
}

/// Byte for byte, or with one blank more in front.
fn may_end_for(old: &[u8], new: &[u8]) -> bool
    ensures { result ≡ may_end_for old.now new.now }
{
    if old == new {
        return true;
    }
    is_one_blank_more(old, new)
}

/// Whether the new trivia stays as the old one: byte for byte, or with one blank more in front; before a lexeme that
/// is first on its line the blanks of its own line may change, or become a newline and blanks.
pub fn may_stand_for(old: &[u8], new: &[u8], is_first: bool) -> bool
    ensures { result ≡ may_stand_for old.now new.now is_first }
{
    if old == new {
        return true;
    }
    if is_one_blank_more(old, new) {
        return true;
    }
    if is_first {
        return may_be_indented(old, new);
    }
    has_newline(old) && may_be_indented(old, new)
}

/// Whether the new bytes are the old ones behind a blank.
fn is_one_blank_more(old: &[u8], new: &[u8]) -> bool
    ensures { result ≡ is_one_blank_more old.now new.now }
{
    match new {
        [first, rest @ ..] => *first == b' ' && rest == old,
        [] => false,
    }
}

/// Whether the new trivia is the old one but for the blanks that it ends with, before which a newline may stand.
fn may_be_indented(old: &[u8], new: &[u8]) -> bool
    ensures { result ≡ may_be_indented old.now new.now }
{
    let (front, _) = old.split_at(front_len(old));
    if new.len() < front.len() {
        return false;
    }
    let (begin, rest) = new.split_at(front.len());
    begin == front && are_blanks(behind_newline(rest))
}

/// The number of bytes before the blanks that blanks and comments end with.
fn front_len(bytes: &[u8]) -> usize
    ensures value { result ≡ front_len bytes.now }
    ensures within { result ≤ length bytes.now }
{
    let mut front = 0;
    for (place, byte) in bytes.iter().enumerate() {
        front = front_behind(front, place, *byte);
    }
    front
}

/// Where the front ends, behind one byte more at the place.
fn front_behind(front: usize, place: usize, byte: u8) -> usize
    requires { place < usize.MAX }
    ensures { result ≡ front_behind front place byte }
{
    if is_end(byte) { place + 1 } else { front }
}

/// Whether the byte ends a line or may end a comment: what is behind the last one is blanks, those beyond ASCII too.
fn is_end(byte: u8) -> bool
    ensures { result ≡ is_end byte }
{
    byte == b'\n' || byte == b'\r' || byte == 0x0C || byte == b'}'
}

fn are_blanks(bytes: &[u8]) -> bool
    ensures { result ≡ are_blanks bytes.now }
{
    for byte in bytes {
        if !is_blank(*byte) {
            return false;
        }
    }
    true
}

/// Whether the byte is a blank that ends no line: a space, a tab or a vertical tab.
fn is_blank(byte: u8) -> bool
    ensures { result ≡ is_blank byte }
{
    byte == b' ' || byte == b'\t' || byte == 0x0B
}

/// The bytes behind the newline that they begin with, if they begin with one.
fn behind_newline(bytes: &[u8]) -> &[u8]
    ensures { result.now ≡ behind_newline bytes.now }
{
    match bytes {
        [13, 10, rest @ ..] => rest,
        [13, rest @ ..] => rest,
        [10, rest @ ..] => rest,
        [12, rest @ ..] => rest,
        _ => bytes,
    }
}
