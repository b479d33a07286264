//! The lexeme at a position.
ghost use Rattle.std.specs.Prelude.{◌≡◌, ◌++◌, ◌^◌, ◌<◌, length, min, position, option_map};
ghost use Rattle.hr_rules.specs.Positions.{is_same_pos, positions_of};
ghost use Rattle.hr_plain_tree.specs.Search.{passed, passed_item};
ghost use Rattle.hr_plain_tree.specs.Yields.{equation_items, module_items, yield_of};

use crate::{Equation, Exp, Module};
use hr_base::{Item, Pos};
use hr_rules::Reached;

/// A search for the lexeme that begins at a position: how far it has come, and what it has found.
#[derive(Clone, Copy, Drop)]
struct Search {
    pos: Pos,
    reached: Reached,
    passed: usize,
    found: Option<usize>,
}

/// The number of the lexeme that begins at the position, from 0, or `usize::MAX` for a number
/// beyond it, which no memory has room for.
pub fn at(tree: &Module, pos: Pos) -> Option<usize>
    ensures shown { result ≡ option_map (min usize.MAX) (position (is_same_pos pos) (positions_of (module_items tree.now))) }
    ensures exact { length (module_items tree.now) < 2 ^ 64 → result ≡ position (is_same_pos pos) (positions_of (module_items tree.now)) }
{
    let mut search = Search {
        pos,
        reached: Reached::origin(),
        passed: 0,
        found: None,
    };
    for equation in tree.equations.as_slice() {
        search = behind_equation(search, equation);
    }
    search.found
}

/// The search behind an equation.
fn behind_equation(search: Search, equation: &Equation) -> Search
    ensures { result ≡ passed search (equation_items equation.now) }
{
    let mut search = behind_item(search, &equation.name);
    for pattern in equation.patterns.as_slice() {
        search = behind_item(search, pattern);
    }
    search = behind_item(search, &equation.equals);
    behind_exp(search, &equation.body)
}

/// The search behind an expression.
fn behind_exp(search: Search, exp: &Exp) -> Search
    ensures { result ≡ passed search (yield_of exp.now) }
{
    match exp {
        Exp::Variable(item) => behind_item(search, item),
        Exp::Integer(item) => behind_item(search, item),
        Exp::Group(left, inner, right) => {
            let search = behind_item(search, left);
            let search = behind_exp(search, inner.get());
            behind_item(search, right)
        }
        Exp::Apply(atoms) => {
            let mut search = search;
            for atom in atoms.as_slice() {
                search = behind_exp(search, atom);
            }
            search
        }
    }
}

/// The search behind an item.
fn behind_item(search: Search, item: &Item) -> Search
    ensures { result ≡ passed_item search item.now }
{
    let lexeme = search.reached.behind(item.trivia.as_slice());
    let found = lexeme.is_at(search.pos).then_some(search.passed);
    Search {
        pos: search.pos,
        reached: lexeme.behind(item.lexeme.text.as_slice()),
        passed: search.passed.saturating_add(1),
        found: search.found.or(found),
    }
}
