//! Rows of the layout rule: what a cursor over the items of a text answers.
//!
//!     walk ;; f = let\n  b ;; body begin 3 open     the calls, one after another
//!     many ;; \9{ let a =}                          blocks behind each `let`, opened and then closed
//!     follow ;; applied ;; x C ( where              which of the lexemes can follow the ending
//!
//! A number takes so many items and answers their lexemes; the calls without an answer, `begin` and `leave`,
//! write nothing. A newline in a lexeme is written as a blank.
#![tactic(auto)]

mod calls;
mod endings;
mod many;
mod shown;

use hr_layout::{Cursor, can_follow};
use hr_lexer::lex;
use hr_rows::answer_all;
use std::alloc::{AllocError, Global};
use std::io;

/// A cursor at the beginning of the text, or none where the text has no items.
fn cursor(alloc: Global, text: &[u8]) -> Result<Option<Cursor>, AllocError> {
    match lex(alloc, text) {
        Ok(items) => Ok(Some(Cursor::new(alloc, items.list)?)),
        Err(_) => Ok(None),
    }
}

/// The lexemes of the text that can follow the ending.
fn followers(alloc: Global, ending: &str, text: &[u8]) -> Result<Option<String>, AllocError> {
    let (Some(ending), Ok(items)) = (endings::named(ending), lex(alloc, text)) else {
        return Ok(None);
    };
    let mut said = String::new(alloc);
    for item in items.list.as_slice() {
        if can_follow(ending, &item.lexeme) {
            shown::push_word(&mut said, item.lexeme.text.as_slice())?;
        }
    }
    Ok(Some(said))
}

/// The answer of a case, or none where it isn't one.
fn said(alloc: Global, fields: &[Vec<u8>]) -> Result<Option<String>, AllocError> {
    match fields {
        [kind, text, calls] if kind.as_slice() == b"walk".as_slice() => {
            match cursor(alloc, text.as_slice())? {
                Some(cursor) => calls::answers(alloc, cursor, calls.as_slice()),
                None => Ok(None),
            }
        }
        [kind, text] if kind.as_slice() == b"many".as_slice() => {
            match cursor(alloc, text.as_slice())? {
                Some(cursor) => many::answer(alloc, cursor),
                None => Ok(None),
            }
        }
        [kind, ending, text] if kind.as_slice() == b"follow".as_slice() => {
            match str::from_utf8(ending.as_slice()) {
                Ok(ending) => followers(alloc, ending, text.as_slice()),
                Err(_) => Ok(None),
            }
        }
        _ => Ok(None),
    }
}

fn answer(alloc: Global, fields: &[Vec<u8>]) -> Result<String, AllocError> {
    match said(alloc, fields)? {
        Some(said) => Ok(said),
        None => String::from_str(alloc, "no case"),
    }
}

fn main(rt: HostRuntime) -> io::Result<()> {
    answer_all(&rt, rt.alloc(), answer)
}
