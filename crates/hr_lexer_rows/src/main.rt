//! Rows of hr_lexer: texts with their lexemes, or with why they have none.
//!
//!     f x                  the lexemes, each behind its class; more than thirty are counted
//!     f x ;; trivia        the same, with the blanks and comments before each and behind the last one
//!     x ;; varid           whether the text is a variable identifier
//!     f ;; x ;; apart      whether two texts, one directly behind the other, are read as these two lexemes
//!
//! A refusal is shown by its number, and its place in bytes where it has one; a lexeme of more than a hundred
//! bytes by how many they are.
#![tactic(auto)]

use hr_base::{Item, Items};
use hr_lexer::{LexError, are_apart, is_varid, lex};
use hr_rows::{answer_all, escaped};
use std::alloc::{AllocError, Global};
use std::io;

const MOST_LEXEMES: usize = 30;

const MOST_BYTES: usize = 100;

/// The answer of a case.
fn answer(alloc: Global, fields: &[Vec<u8>]) -> Result<String, AllocError> {
    match fields {
        [text] => lexed(alloc, text.as_slice(), false),
        [text, word] if word.as_slice() == b"trivia".as_slice() => {
            lexed(alloc, text.as_slice(), true)
        }
        [text, word] if word.as_slice() == b"varid".as_slice() => {
            told(alloc, is_varid(alloc, text.as_slice())?)
        }
        [before, text, word] if word.as_slice() == b"apart".as_slice() => {
            told(alloc, are_apart(alloc, before.as_slice(), text.as_slice())?)
        }
        _ => String::from_str(alloc, "no case"),
    }
}

fn told(alloc: Global, is: bool) -> Result<String, AllocError> {
    String::from_str(alloc, if is { "yes" } else { "no" })
}

/// The items of a text or its refusal.
fn lexed(alloc: Global, text: &[u8], with_trivia: bool) -> Result<String, AllocError> {
    match lex(alloc, text) {
        Ok(items) if with_trivia => with_trivia_of(alloc, &items),
        Ok(items) => lexemes_of(alloc, &items),
        Err(LexError::Memory(error)) => Err(error),
        Err(error) => refusal(alloc, &error),
    }
}

fn refusal(alloc: Global, error: &LexError) -> Result<String, AllocError> {
    let number = error.number().unwrap_or(0);
    match error.place() {
        Some(place) => format!(in alloc; "refused {number} at {place}"),
        None => format!(in alloc; "refused {number}"),
    }
}

fn lexemes_of(alloc: Global, items: &Items) -> Result<String, AllocError> {
    let list = items.list.as_slice();
    if list.is_empty() {
        return String::from_str(alloc, "nothing");
    }
    if list.len() > MOST_LEXEMES {
        let count = list.len();
        return format!(in alloc; "{count} lexemes");
    }
    let mut all = String::new(alloc);
    for item in list {
        if !all.is_empty() {
            all.push_str("; ")?;
        }
        all.push_str(lexeme(alloc, item)?.as_str())?;
    }
    Ok(all)
}

fn with_trivia_of(alloc: Global, items: &Items) -> Result<String, AllocError> {
    let mut all = String::new(alloc);
    for item in items.list.as_slice() {
        let trivia = escaped(alloc, item.trivia.as_slice())?;
        let lexeme = lexeme(alloc, item)?;
        all.push_str(format!(in alloc; "[{trivia}] {lexeme}; ")?.as_str())?;
    }
    let tail = escaped(alloc, items.tail.as_slice())?;
    all.push_str(format!(in alloc; "[{tail}]")?.as_str())?;
    Ok(all)
}

fn lexeme(alloc: Global, item: &Item) -> Result<String, AllocError> {
    let class = item.lexeme.class;
    let len = item.lexeme.text.len();
    if len > MOST_BYTES {
        return format!(in alloc; "{class:?} of {len} bytes");
    }
    let text = escaped(alloc, item.lexeme.text.as_slice())?;
    format!(in alloc; "{class:?} {text}")
}

fn main(rt: HostRuntime) -> io::Result<()> {
    answer_all(&rt, rt.alloc(), answer)
}
