ghost use Rattle.std.specs.Prelude.{◌≡◌, IfOk, true};
ghost use Rattle.hr_tree.specs.Yields.{items_of};
ghost use Rattle.hr_tree_items.specs.Same.{same_item, same_items};

use hr_base::{Item, Items};
use hr_draft::is_same_lexeme;
use hr_tree::{Module, items};
use std::alloc::{AllocError, Global};

/// Whether the tree yields exactly these items: each lexeme with the blanks and comments before it, and what is behind the
/// last one.
pub fn yields(alloc: Global, tree: &Module, list: &Items) -> Result<bool, AllocError>
    ensures { IfOk result (λ does. does ≡ true → items_of tree.now ≡ list.now) }
{
    let found = items(alloc, tree)?;
    Ok(are_same(&found, list))
}

fn are_same(left: &Items, right: &Items) -> bool
    ensures { result ≡ true → left.now ≡ right.now }
{
    are_same_items(left.list.as_slice(), right.list.as_slice()) && left.tail == right.tail
}

fn are_same_items(left: &[Item], right: &[Item]) -> bool
    ensures { result ≡ same_items left.now right.now }
{
    let mut rest = right;
    for item in left {
        let [other, behind @ ..] = rest else {
            return false;
        };
        if !is_same_item(item, other) {
            return false;
        }
        rest = behind;
    }
    rest.is_empty()
}

fn is_same_item(left: &Item, right: &Item) -> bool
    ensures { result ≡ same_item left.now right.now }
{
    left.trivia == right.trivia && is_same_lexeme(&left.lexeme, &right.lexeme)
}
