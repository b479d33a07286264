//! The lexeme at a position.
ghost use Rattle.std.specs.Prelude.{◌≡◌, ◌^◌, ◌<◌, length, min, position, option_map};
ghost use Rattle.hr_rules.specs.Positions.{is_same_pos, positions_of};
ghost use Rattle.hr_tree.specs.Search.{passed_item};
ghost use Rattle.hr_tree.specs.Yields.{module_items};

use crate::Module;
use crate::walk::{Visitor, walk_module};
use hr_base::{Item, Pos};
use hr_rules::Reached;
use std::convert::Infallible;

/// A search for the lexeme that begins at a position: how far it has come, and what it has found.
#[derive(Clone, Copy, Drop)]
struct Search {
    pos: Pos,
    reached: Reached,
    passed: usize,
    found: Option<usize>,
}

impl Visitor for Search {
    type Fault = Infallible;

    ghost behind = { passed_item };

    fn visit(&mut self, item: &Item) -> Result<(), Infallible> {
        *self = behind_item(*self, item);
        Ok(())
    }
}

/// The number of the lexeme that begins at the position, from 0, or `usize::MAX` for a number
/// beyond it, which no memory has room for.
pub fn at(tree: &Module, pos: Pos) -> Option<usize>
    ensures shown { result ≡ option_map (min usize.MAX) (position (is_same_pos pos) (positions_of (module_items tree.now))) }
    ensures exact { length (module_items tree.now) < 2 ^ 64 → result ≡ position (is_same_pos pos) (positions_of (module_items tree.now)) }
{
    let mut search = Search {
        pos,
        reached: Reached::origin(),
        passed: 0,
        found: None,
    };
    match walk_module(tree, &mut search) {
        Ok(()) => search.found,
        Err(never) => match never {},
    }
}

/// The search behind an item.
fn behind_item(search: Search, item: &Item) -> Search
    ensures { result ≡ passed_item search item.now }
{
    let lexeme = search.reached.behind(item.trivia.as_slice());
    let found = lexeme.is_at(search.pos).then_some(search.passed);
    Search {
        pos: search.pos,
        reached: lexeme.behind(item.lexeme.text.as_slice()),
        passed: search.passed.saturating_add(1),
        found: search.found.or(found),
    }
}
