//! What the next lexeme's column decides.
ghost use Rattle.std.specs.Prelude.{◌≡◌, ◌∷◌, []};
ghost use Rattle.hr_rules.specs.Blocks.{at_margin, ends_block, goes_on, left_of, opens};

use crate::follow::{begins_part, can_follow};
use hr_base::Ending;
use hr_rules::{BlockKind, Opened, Placed, Role, role_of};

/// Whether the lexeme is first on its line and left of the column.
pub(crate) fn left_of(col: u32, next: &Placed) -> bool
    ensures { result ≡ left_of col next.now }
{
    next.first && next.pos.col < col
}

/// Whether the lexeme is first on its line and at the column.
pub(crate) fn at_margin(col: u32, next: &Placed) -> bool
    ensures { result ≡ at_margin col next.now }
{
    next.first && next.pos.col == col
}

/// Whether the lexeme is right of the column, or not first on its line.
pub(crate) fn goes_on(col: u32, next: &Placed) -> bool
    ensures { result ≡ goes_on col next.now }
{
    !next.first || col < next.pos.col
}

/// How a block opens before the lexeme, where the enclosing one is at the column.
pub(crate) fn opens(enclosing: u32, next: &Placed) -> Opened
    ensures { result ≡ opens enclosing (next.now ∷ []) }
{
    if let Role::OpenBrace = role_of(&next.item.lexeme) {
        Opened::Explicit
    } else if enclosing < next.pos.col {
        Opened::Implicit { col: next.pos.col }
    } else {
        Opened::Empty
    }
}

/// Whether an implicit block of the kind at the column ends before the lexeme, if its last part is
/// complete and ends so.
pub(crate) fn ends_before(col: u32, kind: BlockKind, ending: Ending, next: &Placed) -> bool
    ensures { result ≡ ends_block col kind ending (next.now ∷ []) }
{
    if left_of(col, next) {
        true
    } else if at_margin(col, next) {
        !begins_part(kind, role_of(&next.item.lexeme))
    } else {
        !can_follow(ending, &next.item.lexeme)
    }
}
