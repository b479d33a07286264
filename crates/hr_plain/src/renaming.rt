ghost use Rattle.std.specs.Prelude.{◌≡◌, List, ℕ, IfErr, IfOk, IfSome, MatchOption};
ghost use Rattle.hr_plain_tree.specs.Yields.{items_of};
ghost use Rattle.hr_plain.specs.Form.{IsPlain};
ghost use Rattle.hr_plain.specs.Renaming.{IsFound, IsRenamed, IsWhy, NoName, Respelled, is_spelled, number_of};

use crate::binding::{occurrences, owner_of};
use crate::lexemes::is_variable;
use crate::writing::respelled;
use hr_base::{Items, MODULE_LIMIT, Place, Pos, Text};
use hr_lexer::is_varid;
use hr_plain_tree::{Module, at};
use hr_rules::join;
use std::alloc::{AllocError, Global};

/// What a command looks for: a thing at a place, or one of a name. No command of the plain form looks
/// for a name.
#[derive(Debug, Drop, PartialEq, Eq)]
pub enum Sought {
    At(Place),
    Name(Text),
}

/// Why a step is refused.
#[derive(Debug, Drop, PartialEq, Eq)]
pub enum Why {
    /// Nothing of the kind is there.
    NoSuchThing { at: Sought },
    /// The new name is no variable.
    WrongForm,
    /// Some lexeme has the new name as its text, which the plain form doesn't tell apart.
    NameInUse,
    /// The new text is too long.
    OverLimit,
    Memory(AllocError),
}

impl Why {
    /// The number of the refusal; none for want of memory.
    pub fn number(&self) -> Option<u32>
        ensures { result ≡ number_of self.now }
    {
        match self {
            Why::NoSuchThing { .. } => Some(31),
            Why::WrongForm => Some(33),
            Why::NameInUse => Some(58),
            Why::OverLimit => Some(57),
            Why::Memory(_) => None,
        }
    }
}

/// The text of the module `Main` with the name at the position renamed, wherever it is bound and
/// used. The positions are those of the text that the tree was read from.
pub fn rename(
    alloc: Global,
    tree: &Module,
    module: &Text,
    pos: Pos,
    new: &Text,
) -> Result<Text, Why>
    requires { (bytes : List ℕ) × IsPlain bytes tree.now }
    ensures renamed { IfOk result (IsRenamed tree.now «module».now pos new.now) }
    ensures refused { IfErr result (IsWhy tree.now «module».now pos new.now) }
{
    let items = hr_plain_tree::items(alloc, tree).map_err(Why::Memory)?;
    let Some((lexeme, old)) = named_at(tree, &items, module, pos) else {
        let place = place_at(module, pos).map_err(Why::Memory)?;
        return Err(Why::NoSuchThing {
            at: Sought::At(place),
        });
    };
    if !is_varid(alloc, new.as_slice()).map_err(Why::Memory)? {
        return Err(Why::WrongForm);
    }
    if is_spelled(&items, new) {
        return Err(Why::NameInUse);
    }
    let items = respelled_at(alloc, tree, &items, lexeme, old, new).map_err(Why::Memory)?;
    let text = join(alloc, &items).map_err(Why::Memory)?;
    if text.len() > MODULE_LIMIT {
        return Err(Why::OverLimit);
    }
    Ok(text)
}

/// The position of the module.
fn place_at(module: &Text, pos: Pos) -> Result<Place, AllocError>
    ensures { IfOk result (λ place. place ≡ record { «module» = «module».now; pos = pos }) }
{
    let module = module.clone()?;
    Ok(Place { module, pos })
}

/// Whether some lexeme has the text.
fn is_spelled(items: &Items, text: &Text) -> bool
    ensures { result ≡ is_spelled text.now items.now.list }
{
    items
        .list
        .as_slice()
        .iter()
        .any(|item| item.lexeme.text == *text)
}

/// The items with every occurrence of the name at the lexeme respelled.
fn respelled_at(
    alloc: Global,
    tree: &Module,
    items: &Items,
    lexeme: usize,
    old: &Text,
    new: &Text,
) -> Result<Items, AllocError>
    requires { items.now ≡ items_of tree.now }
    ensures { IfOk result (Respelled tree.now lexeme old.now new.now) }
{
    let owner = owner_of(tree, lexeme, old);
    let marks = occurrences(alloc, tree, &owner, old)?;
    respelled(alloc, items, marks.as_slice(), new)
}

/// The number and the text of the variable that begins at the position of the module.
fn named_at<'a>(
    tree: &Module,
    items: &'a Items,
    module: &Text,
    pos: Pos,
) -> Option<(usize, &'a Text)>
    requires { items.now ≡ items_of tree.now }
    ensures { MatchOption result (NoName tree.now «module».now pos) (λ found. IsFound tree.now «module».now pos found.0 found.1.now) }
{
    if !module.is(b"Main") {
        return None;
    }
    let lexeme = at(tree, pos)?;
    let item = items.list.as_slice().get(lexeme)?;
    if is_variable(item) {
        Some((lexeme, &item.lexeme.text))
    } else {
        None
    }
}
