//! Blanks and comments.
ghost use Rattle.std.specs.Prelude.{◌≡◌, ◌<◌, ◌≤◌, drop, false, length, IfSome};
ghost use Rattle.std.specs.List.{prefix_len};
ghost use Rattle.hr_rules.specs.Comments.{begins_line_comment, closed_len, goes_on, is_in_line, opens, shuts};
ghost use Rattle.hr_rules.specs.Runs.{begins_with};
ghost use Rattle.hr_lexer.specs.TriviaReader.{line_comment_len, nested_comment_len, piece_len, trivia_len};

use hr_rules::{Kind, is_newline, is_symbol, kind_of};

/// How many characters of blanks and comments the text begins with.
pub fn trivia_len(text: &[char]) -> usize
    ensures value { result ≡ trivia_len text.now }
    ensures within { result ≤ length text.now }
{
    let mut rest = text;
    while let Some(len) = piece_len(rest) {
        let (_, tail) = rest.split_at(len);
        rest = tail;
    }
    text.len() - rest.len()
}

/// The length of one blank or one comment.
fn piece_len(text: &[char]) -> Option<usize>
    ensures value { result ≡ piece_len text.now }
    ensures within { IfSome result (λ n. n ≤ length text.now) }
    ensures some { IfSome result (λ n. 0 < n) }
{
    let first = *text.first()?;
    match kind_of(first) {
        Kind::Blank => Some(1),
        Kind::Newline => Some(1),
        Kind::Symbol => line_comment_len(text),
        Kind::Special => nested_comment_len(text),
        _ => None,
    }
}

/// The length of a line comment.
fn line_comment_len(text: &[char]) -> Option<usize>
    ensures value { result ≡ line_comment_len text.now }
    ensures within { IfSome result (λ n. n ≤ length text.now) }
    ensures some { IfSome result (λ n. 0 < n) }
{
    if begins_line_comment(text) {
        Some(line_len(text))
    } else {
        None
    }
}

/// How many characters stand before the next newline or the end.
fn line_len(text: &[char]) -> usize
    ensures value { result ≡ prefix_len is_in_line text.now }
    ensures within { result ≤ length text.now }
{
    text.iter().take_while(|c| is_in_line(**c)).count()
}

fn is_in_line(c: char) -> bool
    ensures { result ≡ is_in_line c }
{
    !is_newline(c)
}

fn begins_line_comment(text: &[char]) -> bool
    ensures { result ≡ begins_line_comment text.now }
{
    match text {
        ['-', '-', rest @ ..] => !goes_on(rest),
        _ => false,
    }
}

/// Whether a symbol behind more dashes makes an operator of them.
fn goes_on(text: &[char]) -> bool
    ensures { result ≡ goes_on text.now }
{
    let mut rest = text;
    loop {
        match rest {
            ['-', tail @ ..] => rest = tail,
            [c, ..] => return is_symbol(*c),
            [] => return false,
        }
    }
}

/// The length of a nested comment.
fn nested_comment_len(text: &[char]) -> Option<usize>
    ensures value { result ≡ nested_comment_len text.now }
    ensures within { IfSome result (λ n. n ≤ length text.now) }
    ensures some { IfSome result (λ n. 0 < n) }
{
    match text {
        ['{', '-', rest @ ..] => Some(closed_len(rest)? + 2),
        _ => None,
    }
}

/// The length up to the end of the first `-}` that has no partner.
fn closed_len(text: &[char]) -> Option<usize>
    ensures value { result ≡ closed_len false 0 text.now }
    ensures within { IfSome result (λ n. n ≤ length text.now) }
{
    let mut depth: usize = 0;
    let mut rest = text;
    loop {
        let [c, tail @ ..] = rest else { return None };
        if opens(*c, tail) {
            depth += 1;
            rest = past_mark(tail);
        } else if shuts(*c, tail) {
            rest = past_mark(tail);
            if depth == 0 {
                return Some(text.len() - rest.len());
            }
            depth -= 1;
        } else {
            rest = tail;
        }
    }
}

/// What is behind the second character of a mark.
fn past_mark(text: &[char]) -> &[char]
    ensures { result.now ≡ drop 1 text.now }
{
    match text {
        [] => text,
        [_, rest @ ..] => rest,
    }
}

/// Whether the character and what follows begin with `{-`.
pub fn opens(c: char, rest: &[char]) -> bool
    ensures { result ≡ opens c rest.now }
{
    c == '{' && begins_with('-', rest)
}

/// Whether the character and what follows begin with `-}`.
fn shuts(c: char, rest: &[char]) -> bool
    ensures { result ≡ shuts c rest.now }
{
    c == '-' && begins_with('}', rest)
}

fn begins_with(c: char, text: &[char]) -> bool
    ensures { result ≡ begins_with c text.now }
{
    match text {
        [first, ..] => *first == c,
        [] => false,
    }
}
