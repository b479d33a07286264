//! Texts become trees.
ghost use Rattle.std.specs.Prelude.{◌≡◌, ◌++◌, ◌∷◌, [], IfOk, OnOk};
ghost use Rattle.hr_tree.specs.Yields.{items_of};
ghost use Rattle.hr_tree_items.specs.Texts.{AreTextsOf, IsOneMore, IsRead};

use crate::LoadError;
use hr_base::{Items, Text};
use hr_lexer::lex;
use hr_parse::parse;
use hr_prelude::{Builtin, source};
use hr_tree::Module;
use hr_tree_items::yields;
use std::alloc::{AllocError, Global};

/// The trees of the texts, and then of Prelude and Char.
pub fn read_all(alloc: Global, texts: &[Text]) -> Result<Vec<Module>, LoadError>
    ensures { IfOk result (λ trees. AreTextsOf texts.now trees.items) }
{
    let mut trees = Vec::new(alloc);
    for (text, bytes) in texts.iter().enumerate() {
        read(alloc, &mut trees, text, bytes.as_slice())?;
    }
    for which in [Builtin::Prelude, Builtin::Char] {
        read(alloc, &mut trees, texts.len(), source(which).as_bytes())?;
    }
    Ok(trees)
}

/// Reads the text of that number.
fn read(alloc: Global, trees: &mut Vec<Module>, text: usize, bytes: &[u8]) -> Result<(), LoadError>
    ensures { OnOk result (IsOneMore bytes.now trees.old.items trees.new.items) }
{
    match lex(alloc, bytes) {
        Err(error) => Err(LoadError::lexing(text, error)),
        Ok(items) => {
            let lexed = items.clone()?;
            match parse(alloc, items) {
                Err(error) => Err(LoadError::parsing(text, error)),
                Ok(tree) => Ok(keep(alloc, trees, tree, &lexed)?),
            }
        }
    }
}

/// Keeps the tree of these items. One that yields others, which no parse does, is kept by none: it is answered by want of
/// memory.
fn keep(
    alloc: Global,
    trees: &mut Vec<Module>,
    tree: Module,
    lexed: &Items,
) -> Result<(), AllocError>
    ensures { OnOk result (IsRead lexed.now trees.old.items trees.new.items) }
{
    if yields(alloc, &tree, lexed)? {
        return Ok(trees.push(tree)?);
    }
    Err(AllocError)
}
