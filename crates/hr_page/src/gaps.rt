//! What stands between the lexemes of a draft before lines are moved.

use crate::blanks::{has_comment, new_trivia};
use crate::fates::Fate;
use crate::old::Old;
use hr_base::{Lexeme, Text};
use hr_draft::{Draft, Drafted, Manner, Origin};
use std::alloc::{AllocError, Global};

/// What stands before a lexeme. `place` is the number of the old lexeme where it counts as standing: its
/// own, or that of the one whose trivia it has; none for a lexeme that follows by the rule for new ones.
#[derive(Drop)]
pub struct Gap {
    pub trivia: Text,
    pub place: Option<usize>,
}

/// What stands before each lexeme of a draft, and behind the last one.
#[derive(Drop)]
pub struct Gaps {
    pub list: Vec<Gap>,
    pub tail: Text,
}

/// How far the old lexemes are passed.
#[derive(Drop)]
struct Gathering {
    alloc: Global,
    /// The number behind the old lexemes that are passed.
    next: usize,
    /// Whether a removed lexeme that comes next is the first one of its run.
    begins: bool,
    /// The trivia of runs that were removed, where it has a comment.
    saved: Vec<u8>,
    /// The kept lexeme whose trivia the run before it has taken.
    wrapped: Option<usize>,
}

/// What stands between the lexemes of the draft, ahead of the rules on columns.
pub fn gaps_of(
    alloc: Global,
    old: &Old,
    fates: &[Fate],
    draft: &Draft,
) -> Result<Gaps, AllocError> {
    let mut gathering = Gathering {
        alloc,
        next: 0,
        begins: true,
        saved: Vec::new(alloc),
        wrapped: None,
    };
    let mut list = Vec::with_capacity(alloc, draft.lexemes.len())?;
    let mut before = None;
    for drafted in draft.lexemes.as_slice() {
        list.push(gathering.gap(old, fates, before, drafted)?)?;
        before = Some(&drafted.lexeme);
    }
    gathering.pass_removed(old, fates, old.items.len())?;
    let tail = gathering.with_saved(old.tail())?;
    Ok(Gaps { list, tail })
}

impl Gathering {
    /// What stands before the lexeme, behind the one before it.
    fn gap(
        &mut self,
        old: &Old,
        fates: &[Fate],
        before: Option<&Lexeme>,
        drafted: &Drafted,
    ) -> Result<Gap, AllocError> {
        match (drafted.origin, drafted.manner, drafted.first) {
            (Origin::Kept(spot), _, _) => {
                self.kept_gap(old, fates, before, &drafted.lexeme, spot.item)
            }
            (
                Origin::New,
                Some(
                    Manner::Run {
                        place_of: Some(spot),
                    },
                ),
                true,
            ) => self.gap_in_place(old, fates, spot.item),
            (Origin::New, Some(Manner::Wrap), true) => match next_kept(fates, self.next) {
                Some(item) => {
                    self.wrapped = Some(item);
                    self.gap_in_place(old, fates, item)
                }
                None => self.new_gap(before, &drafted.lexeme),
            },
            _ => self.new_gap(before, &drafted.lexeme),
        }
    }

    /// Before a kept lexeme stands its own trivia, unless a run round it has that.
    fn kept_gap(
        &mut self,
        old: &Old,
        fates: &[Fate],
        before: Option<&Lexeme>,
        lexeme: &Lexeme,
        item: usize,
    ) -> Result<Gap, AllocError> {
        self.pass_removed(old, fates, item)?;
        self.next = item.saturating_add(1);
        self.begins = true;
        let trivia = if self.wrapped == Some(item) {
            new_trivia(self.alloc, before, lexeme)?
        } else {
            self.with_saved(old.trivia(item))?
        };
        Ok(Gap {
            trivia,
            place: Some(item),
        })
    }

    /// Before a run in the place of old lexemes stands the trivia of the first of them.
    fn gap_in_place(&mut self, old: &Old, fates: &[Fate], item: usize) -> Result<Gap, AllocError> {
        self.pass_removed(old, fates, item)?;
        self.begins = false;
        Ok(Gap {
            trivia: self.with_saved(old.trivia(item))?,
            place: Some(item),
        })
    }

    fn new_gap(&mut self, before: Option<&Lexeme>, lexeme: &Lexeme) -> Result<Gap, AllocError> {
        Ok(Gap {
            trivia: new_trivia(self.alloc, before, lexeme)?,
            place: None,
        })
    }

    /// Passes the old lexemes before the number. A comment before a removed run is saved.
    fn pass_removed(&mut self, old: &Old, fates: &[Fate], to: usize) -> Result<(), AllocError> {
        for item in self.next..to.min(fates.len()) {
            if fates[item] == Fate::Removed {
                let trivia = old.trivia(item);
                if self.begins && has_comment(trivia) {
                    self.saved.extend_from_slice(trivia)?;
                }
                self.begins = false;
            } else {
                self.begins = true;
            }
        }
        self.next = to.max(self.next);
        Ok(())
    }

    /// The trivia behind what was saved.
    fn with_saved(&mut self, trivia: &[u8]) -> Result<Text, AllocError> {
        let mut bytes = Vec::with_capacity(
            self.alloc,
            self.saved.len().saturating_add(trivia.len()),
        )?;
        bytes.extend_from_slice(self.saved.as_slice())?;
        bytes.extend_from_slice(trivia)?;
        self.saved.clear();
        Text::from_vec(bytes)
    }
}

/// The first kept lexeme that isn't before the number.
fn next_kept(fates: &[Fate], from: usize) -> Option<usize> {
    for item in from..fates.len() {
        if fates[item] == Fate::Kept {
            return Some(item);
        }
    }
    None
}
