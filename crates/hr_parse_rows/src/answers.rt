//! The answer of a case.

use crate::modules::module;
use crate::shown::Shown;
use hr_base::Pos;
use hr_lexer::lex;
use hr_parse::{ParseError, parse};
use hr_tree::{Module, items};
use std::alloc::{AllocError, Global};
use std::mem::ManuallyDrop;

pub fn answer(alloc: Global, fields: &[Vec<u8>]) -> Result<String, AllocError> {
    match fields {
        [kind, text] => said(alloc, kind.as_slice(), text.as_slice()),
        _ => String::from_str(alloc, "no case"),
    }
}

fn said(alloc: Global, kind: &[u8], text: &[u8]) -> Result<String, AllocError> {
    let Ok(lexed) = lex(alloc, text) else {
        return String::from_str(alloc, "lexer");
    };
    if kind == b"lexes".as_slice() {
        return String::from_str(alloc, "yes");
    }
    let handed = lexed.clone()?;
    match parse(alloc, handed) {
        Err(error) => refused(alloc, error),
        Ok(tree) => {
            let tree = ManuallyDrop::new(tree);
            if items(alloc, &tree)? != lexed {
                return String::from_str(alloc, "torn");
            }
            told(alloc, kind, &tree)
        }
    }
}

fn told(alloc: Global, kind: &[u8], tree: &Module) -> Result<String, AllocError> {
    match kind {
        b"fits" => String::from_str(alloc, "yes"),
        b"read" => written(alloc, false, tree),
        b"tree" => written(alloc, true, tree),
        _ => String::from_str(alloc, "no case"),
    }
}

fn written(alloc: Global, has_nodes: bool, tree: &Module) -> Result<String, AllocError> {
    let mut out = Shown::new(alloc, has_nodes);
    module(&mut out, tree)?;
    Ok(out.into_text())
}

fn refused(alloc: Global, error: ParseError) -> Result<String, AllocError> {
    match error {
        ParseError::Syntax { pos } => at(alloc, "6", pos),
        ParseError::TooDeep { pos } => at(alloc, "7", pos),
        ParseError::OutOfProfile { construct, pos } => {
            let text = str::from_utf8(construct.as_slice()).unwrap_or("");
            let number = format!(in alloc; "8 {text}")?;
            at(alloc, number.as_str(), pos)
        }
        ParseError::Memory(error) => Err(error),
    }
}

fn at(alloc: Global, number: &str, pos: Pos) -> Result<String, AllocError> {
    let Pos { line, col } = pos;
    format!(in alloc; "{number} {line}:{col}")
}
