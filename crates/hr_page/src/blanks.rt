//! Blanks that are put in, and comments that stay.
ghost use Rattle.std.specs.Prelude.{◌≡◌, IfOk, option_map};
ghost use Rattle.hr_page.specs.Blanks.{has_comment, is_special, joins, new_trivia, opens};

use hr_base::{Class, Lexeme, Text};
use hr_rules::is_one_of;
use std::alloc::{AllocError, Global};

const OPENINGS: [&[u8]; 3] = [b"(", b"{", b"["];

const CLOSINGS: [&[u8]; 4] = [b")", b"}", b",", b";"];

/// Whether blanks and comments have a comment: each has two dashes, or a brace and a dash.
pub fn has_comment(trivia: &[u8]) -> bool
    ensures { result ≡ has_comment trivia.now }
{
    trivia.iter().any(|byte| *byte == b'-')
}

/// What stands before a new lexeme: one blank, but none at the text's begin, behind an opening bracket and before a
/// closing parenthesis or brace, a comma or a semicolon.
pub fn new_trivia(
    alloc: Global,
    before: Option<&Lexeme>,
    lexeme: &Lexeme,
) -> Result<Text, AllocError> {
    match before {
        Some(before) => blank_between(alloc, before, lexeme),
        None => Text::from_slice(alloc, b""),
    }
}

/// What stands between two lexemes of which the second is new.
fn blank_between(alloc: Global, before: &Lexeme, lexeme: &Lexeme) -> Result<Text, AllocError>
    ensures { IfOk result (λ text. text ≡ new_trivia before.now lexeme.now) }
{
    if opens(before) {
        return Text::from_slice(alloc, b"");
    }
    if joins(lexeme) {
        return Text::from_slice(alloc, b"");
    }
    Text::from_slice(alloc, b" ")
}

/// Whether no blank is put behind the lexeme.
fn opens(lexeme: &Lexeme) -> bool
    ensures { result ≡ opens lexeme.now }
{
    is_special(lexeme.class) && is_one_of(&OPENINGS, lexeme.text.as_slice())
}

/// Whether no blank is put before the lexeme.
fn joins(lexeme: &Lexeme) -> bool
    ensures { result ≡ joins lexeme.now }
{
    is_special(lexeme.class) && is_one_of(&CLOSINGS, lexeme.text.as_slice())
}

fn is_special(class: Class) -> bool
    ensures { result ≡ is_special class }
{
    match class {
        Class::Special => true,
        _ => false,
    }
}
