//! How far blocks move, and where that brings the lexemes in them.
ghost use Rattle.std.specs.Prelude.{◌≡◌};
ghost use Rattle.hr_page.specs.Columns.{behind_ended, is_like, moved, right_of, wanted};

/// The old and the new column of a block.
#[derive(Clone, Copy, Debug, PartialEq, Eq)]
pub struct Shift {
    pub old: u64,
    pub new: u64,
}

/// Where a lexeme stands: in an implicit block that moves, or in none or between braces.
#[derive(Clone, Copy, Debug, PartialEq, Eq)]
pub struct Standing {
    pub shift: Shift,
    pub implicit: bool,
    /// Braces round it, nearer than the block, are gone.
    pub unbraced: bool,
}

impl Shift {
    /// That of what doesn't move.
    pub fn none() -> Shift {
        Shift { old: 1, new: 1 }
    }

    /// The column moved along with the block, 1 at least.
    pub fn moved(self, column: u64) -> u64
        ensures { result ≡ moved self column }
    {
        column
            .saturating_add(self.new)
            .saturating_sub(self.old)
            .max(1)
    }

    /// Whether two blocks move by the same number.
    pub fn is_like(self, other: Shift) -> bool
        ensures { result ≡ is_like self other }
    {
        self.new.saturating_add(other.old) == other.new.saturating_add(self.old)
    }
}

/// The column of a lexeme that is first on its line and stood at the column `old`, behind blocks which end before it,
/// by the outermost of them.
pub fn wanted(old: u64, ended: Option<Shift>, standing: Standing) -> u64
    ensures { result ≡ wanted old ended standing }
{
    right_of(
        standing,
        behind_ended(ended, standing.shift, standing.shift.moved(old)),
    )
}

/// The column of a lexeme that its block moves to `moved`: behind blocks that moved by another number it stays left
/// of them.
fn behind_ended(ended: Option<Shift>, shift: Shift, moved: u64) -> u64
    ensures { result ≡ behind_ended ended shift moved }
{
    match ended {
        Some(ended) => {
            if ended.is_like(shift) {
                moved
            } else {
                moved.min(ended.new.saturating_sub(1)).max(1)
            }
        }
        None => moved,
    }
}

/// The column of a lexeme: without the braces round it it stays right of its block.
fn right_of(standing: Standing, column: u64) -> u64
    ensures { result ≡ right_of standing column }
{
    if standing.unbraced {
        if standing.implicit {
            return column.max(standing.shift.new.saturating_add(1));
        }
    }
    column
}
