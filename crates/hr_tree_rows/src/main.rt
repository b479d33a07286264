//! Rows of the tree: what the tree of a module without declarations yields, and which lexeme of it begins at a
//! position.
//!
//!     module M where ;; 1:1 1:2      the module's text; positions
//!
//! The answer is the text again, of what the tree yields, and for each position the number of the lexeme that
//! begins there, or `-`. The tree is made by hand of the text's three lexemes, and never dropped: a program that
//! drops a tree proves the drops of all nodes, which takes many minutes.
#![tactic(auto)]

use hr_base::{Items, Pos};
use hr_lexer::lex;
use hr_rows::{answer_all, escaped};
use hr_rules::join;
use hr_tree::{Block, Header, Layout, Module, at, items};
use sqlite_items::Items as Children;
use std::alloc::{AllocError, Global};
use std::io;
use std::mem::ManuallyDrop;

/// The tree of a text of three lexemes, or none where it has fewer.
fn header_alone(alloc: Global, text: Items) -> Option<ManuallyDrop<Module>> {
    let Items { mut list, tail } = text;
    let (Some(opening), Some(name), Some(word)) = (
        list.list.pop(),
        list.list.pop(),
        list.list.pop(),
    ) else {
        return None;
    };
    Some(ManuallyDrop::new(Module {
        header: Some(Header {
            word,
            name,
            exports: None,
            opening,
        }),
        body: Block {
            layout: Layout::Implicit { col: 0 },
            pieces: Children::new(alloc),
        },
        tail,
    }))
}

/// The position that is spelled, if one is.
fn place(spelled: &str) -> Option<Pos> {
    let (line, col) = spelled.split_once(':')?;
    let line = line.parse().ok()?;
    let col = col.parse().ok()?;
    Some(Pos { line, col })
}

/// The text that the tree yields, and the numbers of the lexemes at the positions.
fn shown(alloc: Global, tree: &Module, places: &str) -> Result<String, AllocError> {
    let again = join(alloc, &items(alloc, tree)?)?;
    let mut said = escaped(alloc, again.as_slice())?;
    for word in places.split(' ') {
        match place(word).and_then(|pos| at(tree, pos)) {
            Some(number) => write!(said, " {number}")?,
            None => said.push_str(" -")?,
        }
    }
    Ok(said)
}

fn answer(alloc: Global, fields: &[Vec<u8>]) -> Result<String, AllocError> {
    let [text, places] = fields else {
        return String::from_str(alloc, "no text and positions");
    };
    let Ok(places) = str::from_utf8(places.as_slice()) else {
        return String::from_str(alloc, "no positions");
    };
    let Ok(read) = lex(alloc, text.as_slice()) else {
        return String::from_str(alloc, "not lexed");
    };
    match header_alone(alloc, read) {
        Some(tree) => shown(alloc, &tree, places),
        None => String::from_str(alloc, "no header"),
    }
}

fn main(rt: HostRuntime) -> io::Result<()> {
    answer_all(&rt, rt.alloc(), answer)
}
