//! Integers and floats.
ghost use Rattle.std.specs.Prelude.{◌≡◌, ◌+◌, ◌<◌, ◌≤◌, ◌^◌, length, min, true, IfSome};
ghost use Rattle.std.specs.Char.{digit_value};
ghost use Rattle.hr_rules.specs.Numbers.{is_decimal, is_o, is_x, value_of};
ghost use Rattle.hr_rules.specs.Runs.{begins};
ghost use Rattle.hr_lexer.specs.NumberReader.{based_digits, decimal_digits, digits_len, exponent_len, float_len, float_part_len, fraction_len, integer_at, integer_digits, is_wide, marked_digits, number_at, signed_len, with_more};

use crate::taken::Taken;
use hr_base::Class;

const GREATEST_INTEGER: u64 = 9_223_372_036_854_775_807;

/// Where the digits of an integer stand, and what they are digits of.
#[derive(Clone, Copy, Debug)]
pub struct Digits {
    pub base: u32,
    pub skipped: usize,
    pub len: usize,
}

/// A number, unless it is an integer that is too great.
pub fn number_at(text: &[char]) -> Option<Taken>
    ensures value { result ≡ number_at text.now }
    ensures within { IfSome result (λ taken. taken.len ≤ length text.now) }
    ensures some { begins is_decimal text.now ≡ true → IfSome result (λ taken. 0 < taken.len) }
{
    let len = float_len(text);
    if len == 0 {
        return integer_at(text);
    }
    Some(Taken {
        class: Class::Float,
        len,
    })
}

/// An integer, unless it is too great.
fn integer_at(text: &[char]) -> Option<Taken>
    ensures value { result ≡ integer_at text.now }
    ensures within { IfSome result (λ taken. taken.len ≤ length text.now) }
    ensures some { begins is_decimal text.now ≡ true → IfSome result (λ taken. 0 < taken.len) }
{
    let digits = integer_digits(text);
    let (_, rest) = text.split_at(digits.skipped);
    let (written, _) = rest.split_at(digits.len);
    if is_wide(digits.base, written) {
        return None;
    }
    Some(Taken {
        class: Class::Integer,
        len: digits.skipped + digits.len,
    })
}

/// The digits of the integer that begins the text.
fn integer_digits(text: &[char]) -> Digits
    ensures value { result ≡ integer_digits text.now }
    ensures base { 0 < result.base }
    ensures within { result.skipped + result.len ≤ length text.now }
    ensures some { begins is_decimal text.now ≡ true → 0 < result.skipped + result.len }
{
    match text {
        ['0', mark, rest @ ..] => marked_digits(*mark, rest, text),
        _ => decimal_digits(text),
    }
}

/// The same behind a 0 and a letter.
fn marked_digits(mark: char, rest: &[char], text: &[char]) -> Digits
    requires { 2 + length rest.now ≡ length text.now }
    ensures value { result ≡ marked_digits mark rest.now text.now }
    ensures base { 0 < result.base }
    ensures within { result.skipped + result.len ≤ length text.now }
    ensures some { begins is_decimal text.now ≡ true → 0 < result.skipped + result.len }
{
    if is_x(mark) {
        based_digits(16, rest, text)
    } else if is_o(mark) {
        based_digits(8, rest, text)
    } else {
        decimal_digits(text)
    }
}

/// Digits of the base behind a 0 and a letter, or decimal ones where there are none.
fn based_digits(base: u32, rest: &[char], text: &[char]) -> Digits
    requires rest { 2 + length rest.now ≡ length text.now }
    requires base { 0 < base }
    ensures value { result ≡ based_digits base rest.now text.now }
    ensures base { 0 < result.base }
    ensures within { result.skipped + result.len ≤ length text.now }
    ensures some { begins is_decimal text.now ≡ true → 0 < result.skipped + result.len }
{
    let len = digits_len(base, rest);
    if len == 0 {
        return decimal_digits(text);
    }
    Digits {
        base,
        skipped: 2,
        len,
    }
}

fn decimal_digits(text: &[char]) -> Digits
    ensures value { result ≡ decimal_digits text.now }
    ensures base { 0 < result.base }
    ensures within { result.skipped + result.len ≤ length text.now }
    ensures some { begins is_decimal text.now ≡ true → 0 < result.skipped + result.len }
{
    Digits {
        base: 10,
        skipped: 0,
        len: digits_len(10, text),
    }
}

fn is_x(mark: char) -> bool
    ensures { result ≡ is_x mark }
{
    mark == 'x' || mark == 'X'
}

fn is_o(mark: char) -> bool
    ensures { result ≡ is_o mark }
{
    mark == 'o' || mark == 'O'
}

/// How many digits of the base the text begins with.
pub fn digits_len(base: u32, text: &[char]) -> usize
    ensures value { result ≡ digits_len base text.now }
    ensures within { result ≤ length text.now }
{
    text.iter().take_while(|c| digit_value(**c) < base).count()
}

/// The value of a digit, and 36 where the character is none.
fn digit_value(c: char) -> u32
    ensures { result ≡ digit_value c }
{
    c.to_digit(36).unwrap_or(36)
}

/// Whether the digits stand for a number above the greatest integer.
fn is_wide(base: u32, digits: &[char]) -> bool
    requires { 0 < base }
    ensures { result ≡ is_wide base digits.now }
{
    value_capped(base, digits) > GREATEST_INTEGER
}

/// The number that the digits stand for, or `u64::MAX` where it is greater.
pub fn value_capped(base: u32, digits: &[char]) -> u64
    requires { 0 < base }
    ensures { result ≡ min u64.MAX (value_of base digits.now) }
{
    let mut value: u64 = 0;
    for digit in digits {
        value = value
            .saturating_mul(u64::from(base))
            .saturating_add(u64::from(digit_value(*digit)));
    }
    value
}

/// The length of the float that begins the text, 0 where none does.
fn float_len(text: &[char]) -> usize
    ensures value { result ≡ float_len text.now }
    ensures within { result ≤ length text.now }
{
    let digits = digits_len(10, text);
    let (_, rest) = text.split_at(digits);
    with_more(digits, float_part_len(rest))
}

/// The length of what makes a float of digits, 0 where nothing does.
fn float_part_len(text: &[char]) -> usize
    ensures value { result ≡ float_part_len text.now }
    ensures within { result ≤ length text.now }
{
    match text {
        ['.', rest @ ..] => with_more(1, fraction_len(rest)),
        _ => exponent_len(text),
    }
}

/// The length of digits and maybe an exponent, 0 where there is no digit.
fn fraction_len(text: &[char]) -> usize
    ensures value { result ≡ fraction_len text.now }
    ensures within { result ≤ length text.now }
{
    let digits = digits_len(10, text);
    if digits == 0 {
        return 0;
    }
    let (_, rest) = text.split_at(digits);
    digits + exponent_len(rest)
}

/// The length of an exponent, 0 where there is none.
fn exponent_len(text: &[char]) -> usize
    ensures value { result ≡ exponent_len text.now }
    ensures within { result ≤ length text.now }
{
    match text {
        ['e', rest @ ..] => with_more(1, signed_len(rest)),
        ['E', rest @ ..] => with_more(1, signed_len(rest)),
        _ => 0,
    }
}

/// The length of decimal digits that a sign may precede, 0 where there is no digit.
fn signed_len(text: &[char]) -> usize
    ensures value { result ≡ signed_len text.now }
    ensures within { result ≤ length text.now }
{
    match text {
        ['+', rest @ ..] => with_more(1, digits_len(10, rest)),
        ['-', rest @ ..] => with_more(1, digits_len(10, rest)),
        _ => digits_len(10, text),
    }
}

/// `more` and `len` together, and 0 where `len` is 0.
fn with_more(more: usize, len: usize) -> usize
    requires { more + len < 2 ^ 64 }
    ensures value { result ≡ with_more more len }
    ensures within { result ≤ more + len }
{
    if len == 0 { 0 } else { more + len }
}
