use crate::Outline;
use hr_base::{Class, Lexeme, Name, Place, Pos, Text};
use hr_rules::Reached;
use hr_tree::Module;
use std::alloc::{AllocError, Global};

/// The name of a module. One without a header is Main.
pub fn module_name(alloc: Global, tree: &Module) -> Result<Text, AllocError> {
    match &tree.header {
        Some(header) => header.name.lexeme.text.clone(),
        None => Text::from_slice(alloc, b"Main"),
    }
}

/// The name that a lexeme spells: a qualified one is a module's name, a dot and a name.
pub fn name_of(lexeme: &Lexeme) -> Result<Name, AllocError> {
    match lexeme.class {
        Class::QVarId | Class::QConId | Class::QVarSym | Class::QConSym => qualified(&lexeme.text),
        _ => Ok(Name {
            qualifier: None,
            text: lexeme.text.clone()?,
        }),
    }
}

fn qualified(text: &Text) -> Result<Name, AllocError> {
    let len = text.len();
    let dot = text
        .as_slice()
        .iter()
        .position(|byte| *byte == b'.')
        .unwrap_or(len);
    Ok(Name {
        qualifier: Some(text.part(0, dot)?),
        text: text.part(len.min(dot.saturating_add(1)), len)?,
    })
}

/// Where the lexeme of that number stands.
pub fn place_of(module: &Text, outline: &Outline<'_>, number: usize) -> Result<Place, AllocError> {
    let mut reached = Reached::origin();
    for (passed, mark) in outline.marks.iter().enumerate() {
        reached = reached.behind(mark.item.trivia.as_slice());
        if passed == number {
            break;
        }
        reached = reached.behind(mark.item.lexeme.text.as_slice());
    }
    Ok(Place {
        module: module.clone()?,
        pos: Pos {
            line: u32::try_from(reached.line).unwrap_or(u32::MAX),
            col: u32::try_from(reached.col).unwrap_or(u32::MAX),
        },
    })
}
