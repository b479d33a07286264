//! What a tree yields.
ghost use Rattle.std.specs.Prelude.{◌≡◌, ◌∷◌, [], ◌++◌, IfOk};
ghost use Rattle.hr_base.specs.declared.lexeme.Item.{Item};
ghost use Rattle.hr_tree.specs.Yields.{items_of};

use crate::Module;
use crate::walk::{Visitor, walk_module};
use hr_base::{Item, Items, Seq, Text};
use std::alloc::{AllocError, Global};
use std::marker::Model;

/// Copies of the items that were visited.
#[derive(Drop)]
struct Copies {
    list: Vec<Item>,
}

impl Model for Copies {
    ghost use Rattle.std.specs.Prelude.{List};
    ghost use Rattle.hr_base.specs.declared.lexeme.Item.{Item};

    ghost Value = { List Item };

    ghost view = { λ copies. copies.list.items };
}

impl Visitor for Copies {
    type Fault = AllocError;

    ghost behind = { λ copies item. copies ++ item ∷ [] };

    fn visit(&mut self, item: &Item) -> Result<(), AllocError> {
        let copy = item.clone()?;
        self.list.push(copy)?;
        Ok(())
    }
}

/// The items of the module, from left to right, and what is behind the last one.
pub fn items(alloc: Global, tree: &Module) -> Result<Items, AllocError>
    ensures { IfOk result (λ items. items ≡ items_of tree.now) }
{
    let mut copies = Copies {
        list: Vec::new(alloc),
    };
    walk_module(tree, &mut copies)?;
    let Copies { list } = copies;
    Ok(Items {
        list: Seq { list },
        tail: tail_of(tree)?,
    })
}

/// What is behind the last lexeme.
fn tail_of(tree: &Module) -> Result<Text, AllocError>
    ensures { IfOk result (λ tail. tail ≡ tree.now.tail) }
{
    tree.tail.clone()
}
