//! Which fixity each operator has: the Haskell 98 Report, section 4.4.2.
ghost use Rattle.std.specs.Prelude.{◌≡◌, ◌≤◌, ◌+◌, ◌∷◌, [], IfSome};

use hr_base::{Binder, Class, Lexeme};
use hr_fixity::{Direction, Fixity};
use hr_outline::{Mark, outline_of};
use hr_scope_rules::Role;
use hr_tables::Bindings;
use hr_tree::Module;
use indexmap::IndexMap;
use std::alloc::{AllocError, Global};

/// That of an operator without a declaration.
const UNDECLARED: Fixity = Fixity {
    level: 9,
    direction: Direction::Left,
};

/// That of `:`, which no declaration can name.
const OF_THE_COLON: Fixity = Fixity {
    level: 5,
    direction: Direction::Right,
};

/// The fixities that the modules of a project declare, by what their operators are bound to.
#[derive(Drop)]
pub struct Fixities {
    declared: IndexMap<Binder, Fixity>,
}

impl Fixities {
    /// Those of all fixity declarations, local ones included.
    pub fn new(
        alloc: Global,
        modules: &[Module],
        bindings: &Bindings,
    ) -> Result<Fixities, AllocError> {
        let mut fixities = Fixities {
            declared: IndexMap::new(alloc),
        };
        for (tree, entries) in modules.iter().zip(bindings.modules.as_slice()) {
            let outline = outline_of(alloc, tree)?;
            fixities.read(outline.marks.as_slice(), entries.as_slice())?;
        }
        Ok(fixities)
    }

    /// Those of one module. Behind the word of a declaration stands its level, or none, and its operators.
    fn read(&mut self, marks: &[Mark<'_>], entries: &[Option<Binder>]) -> Result<(), AllocError> {
        let mut stated = UNDECLARED;
        for (mark, entry) in marks.iter().zip(entries) {
            match (mark.role, entry) {
                (Role::Fixes(_), Some(binder)) => {
                    self.declared.insert(binder.clone()?, stated)?;
                }
                _ => stated = stated_behind(stated, &mark.item.lexeme),
            }
        }
        Ok(())
    }

    /// The fixity of the operator, by what it is bound to. Of the operators `:` alone is bound to nothing.
    pub fn fixity_of(&self, binder: Option<&Binder>) -> Fixity {
        let Some(binder) = binder else {
            return OF_THE_COLON;
        };
        match self.declared.get(binder) {
            Some(fixity) => *fixity,
            None => UNDECLARED,
        }
    }
}

/// What is stated of the operators that follow, behind a lexeme.
fn stated_behind(stated: Fixity, lexeme: &Lexeme) -> Fixity {
    match lexeme.class {
        Class::ReservedId => match direction_of(lexeme.text.as_slice()) {
            Some(direction) => Fixity {
                level: 9,
                direction,
            },
            None => stated,
        },
        Class::Integer => match level_of(lexeme.text.as_slice()) {
            Some(level) => Fixity {
                level,
                direction: stated.direction,
            },
            None => stated,
        },
        _ => stated,
    }
}

fn direction_of(word: &[u8]) -> Option<Direction> {
    match word {
        b"infixl" => Some(Direction::Left),
        b"infixr" => Some(Direction::Right),
        b"infix" => Some(Direction::Neither),
        _ => None,
    }
}

/// The level that a digit is.
fn level_of(number: &[u8]) -> Option<u8>
    ensures { IfSome result (λ level. (level ≤ 9) × (number.now ≡ (48 + level) ∷ [])) }
{
    match number {
        [digit] if b'0' <= *digit && *digit <= b'9' => Some(digit.saturating_sub(b'0')),
        _ => None,
    }
}
