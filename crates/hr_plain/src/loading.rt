ghost use Rattle.std.specs.Prelude.{◌≡◌, IfErr, IfOk};
ghost use Rattle.hr_plain.specs.Form.{IsPlain};
ghost use Rattle.hr_plain.specs.Refusals.{IsLoadRefusal, load_number, load_place};
ghost use Rattle.hr_plain.specs.Reading.{unread};

use crate::equations::equations;
use crate::scoping::are_scoped;
use crate::trivia::are_plain;
use hr_base::Items;
use hr_lexer::{LexError, lex};
use hr_plain_tree::Module;
use std::alloc::{AllocError, Global};
use thiserror::Error;

/// Why the text of that number, from 0, is not read. There is one text, of the number 0, until a
/// project has several.
#[derive(Debug, Drop, Error)]
pub enum LoadError {
    #[error("text {text}: {error}")]
    Lex { text: usize, error: LexError },
    #[error("text {text} is not of the plain form")]
    OutsideForm { text: usize },
    #[error("out of memory")]
    Memory(AllocError),
}

impl LoadError {
    /// The number by which the refusal is shown; none for want of memory.
    pub fn number(&self) -> Option<u32>
        ensures { result ≡ load_number self.now }
    {
        match self {
            LoadError::Lex { error, .. } => error.number(),
            LoadError::OutsideForm { .. } => Some(25),
            LoadError::Memory(_) => None,
        }
    }

    /// Its place in the text, a number of bytes; none where the whole text is refused, and for want of
    /// memory.
    pub fn place(&self) -> Option<usize>
        ensures { result ≡ load_place self.now }
    {
        match self {
            LoadError::Lex { error, .. } => error.place(),
            LoadError::OutsideForm { .. } => None,
            LoadError::Memory(_) => None,
        }
    }
}

/// The refusal of the one text that has items and isn't of the form.
fn outside_form() -> LoadError
    ensures { result ≡ LoadError.OutsideForm 0 }
{
    LoadError::OutsideForm { text: 0 }
}

/// The lexer's refusal of the one text.
fn unread(error: LexError) -> LoadError
    ensures { result ≡ unread error }
{
    match error {
        LexError::Memory(error) => LoadError::Memory(error),
        error => LoadError::Lex { text: 0, error },
    }
}

/// The tree of a text of the plain form.
pub fn load(alloc: Global, bytes: &[u8]) -> Result<Module, LoadError>
    ensures read { IfOk result (IsPlain bytes.now) }
    ensures refused { IfErr result (IsLoadRefusal bytes.now) }
{
    let items = match lex(alloc, bytes) {
        Ok(items) => items,
        Err(error) => return Err(unread(error)),
    };
    if !are_plain(&items) {
        return Err(outside_form());
    }
    let Items { list, tail } = items;
    let equations = match equations(alloc, list).map_err(LoadError::Memory)? {
        Some(equations) => equations,
        None => return Err(outside_form()),
    };
    if are_scoped(alloc, equations.as_slice()).map_err(LoadError::Memory)? {
        Ok(Module { equations, tail })
    } else {
        Err(outside_form())
    }
}
