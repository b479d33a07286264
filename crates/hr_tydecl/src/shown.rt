//! Lexemes as refusals show them.
use hr_base::{Place, Text};
use hr_outline::{module_name, outline_of, place_of};
use hr_tree::Module;
use std::alloc::{AllocError, Global};

/// Where a lexeme of a module stands.
pub fn place_at(alloc: Global, module: &Module, lexeme: usize) -> Result<Place, AllocError> {
    let outline = outline_of(alloc, module)?;
    let name = module_name(alloc, module)?;
    place_of(&name, &outline, lexeme)
}

/// The text of a lexeme of a module.
pub fn lexeme_text(alloc: Global, module: &Module, lexeme: usize) -> Result<Text, AllocError> {
    let outline = outline_of(alloc, module)?;
    match outline.marks.get(lexeme) {
        Some(mark) => mark.item.lexeme.text.clone(),
        None => Text::from_slice(alloc, b""),
    }
}
