//! The page that a draft is written on: its bytes, and the blocks that are open where it ends.

use crate::fates::Fate;
use crate::indent::{Indent, indent_to};
use crate::shift::{Shift, Standing, wanted};
use hr_draft::BlockSpan;
use hr_rules::{Reached, has_newline};
use std::alloc::{AllocError, Global};

/// A block that is open, by the number behind its last old lexeme.
#[derive(Clone, Copy)]
struct Open {
    to: usize,
    kind: OpenKind,
}

#[derive(Clone, Copy)]
enum OpenKind {
    Implicit(Shift),
    Explicit,
    /// One whose braces are gone.
    Unbraced,
}

#[derive(Drop)]
pub struct Page<'a> {
    spans: &'a [BlockSpan],
    fates: &'a [Fate],
    newline: &'a [u8],
    /// The number of blocks that have begun.
    begun: usize,
    open: Vec<Open>,
    /// Where the page ends.
    reached: Reached,
    pub bytes: Vec<u8>,
}

impl<'a> Page<'a> {
    pub fn new(
        alloc: Global,
        spans: &'a [BlockSpan],
        fates: &'a [Fate],
        newline: &'a [u8],
    ) -> Page<'a> {
        Page {
            spans,
            fates,
            newline,
            begun: 0,
            open: Vec::new(alloc),
            reached: Reached::origin(),
            bytes: Vec::new(alloc),
        }
    }

    /// The bytes of the page, which ends here.
    pub fn bytes(self) -> Vec<u8> {
        self.bytes
    }

    /// Writes bytes as they are.
    pub fn write(&mut self, bytes: &[u8]) -> Result<(), AllocError> {
        self.reached = self.reached.behind(bytes);
        self.bytes.extend_from_slice(bytes)?;
        Ok(())
    }

    /// Where trivia ends that would be written.
    pub fn behind(&self, trivia: &[u8]) -> u64 {
        self.reached.behind(trivia).col
    }

    /// The indent of a lexeme that counts as standing at the old number, where it goes to another column. It is
    /// `is_first` where nothing stands before it.
    pub fn place(&mut self, item: usize, trivia: &[u8], is_first: bool) -> Option<Indent> {
        let ended = self.leave(item);
        if !is_first && !has_newline(trivia) {
            return None;
        }
        let old = self.behind(trivia);
        let column = wanted(old, ended, self.standing());
        if column == old {
            None
        } else {
            Some(indent_to(self.reached, trivia, column))
        }
    }

    /// Writes trivia as the indent has it.
    pub fn write_indented(&mut self, trivia: &[u8], indent: Indent) -> Result<(), AllocError> {
        self.write(&trivia[..indent.front.min(trivia.len())])?;
        if indent.breaks {
            let newline = self.newline;
            self.write(newline)?;
        }
        for _ in 0..indent.spaces {
            self.bytes.push(b' ')?;
        }
        self.reached.col = self.reached.col.saturating_add(indent.spaces);
        Ok(())
    }

    /// Leaves the blocks that end before the old lexeme. The answer is the shift of the outermost implicit one.
    fn leave(&mut self, item: usize) -> Option<Shift> {
        let mut ended = None;
        for _ in 0..self.open.len() {
            let Some(open) = self.open.as_slice().last().copied() else {
                return ended;
            };
            if item < open.to {
                return ended;
            }
            if let OpenKind::Implicit(shift) = open.kind {
                ended = Some(shift);
            }
            self.open.pop();
        }
        ended
    }

    /// Begins the blocks whose first lexeme is the one that stands at the old number, where the page ends.
    pub fn enter(&mut self, item: usize) -> Result<(), AllocError> {
        let spans = self.spans;
        for number in self.begun..spans.len() {
            let span = spans[number];
            if item < span.from {
                return Ok(());
            }
            self.begun = number + 1;
            if item < span.to {
                self.push(span)?;
            }
        }
        Ok(())
    }

    /// Opens the block at the column where the page ends, if the draft still has it.
    fn push(&mut self, span: BlockSpan) -> Result<(), AllocError> {
        let to = span.to;
        if span.explicit {
            let kind = if self.is_kept(span.from) {
                OpenKind::Explicit
            } else {
                OpenKind::Unbraced
            };
            self.open.push(Open { to, kind })?;
        } else if span.opening.is_none_or(|opening| self.is_kept(opening)) {
            let kind = OpenKind::Implicit(Shift {
                old: u64::from(span.col),
                new: self.reached.col,
            });
            self.open.push(Open { to, kind })?;
        }
        Ok(())
    }

    fn is_kept(&self, item: usize) -> bool {
        self.fates.get(item).copied() == Some(Fate::Kept)
    }

    /// Where a lexeme stands that is written next.
    fn standing(&self) -> Standing {
        let mut unbraced = false;
        for open in self.open.as_slice().iter().rev() {
            match open.kind {
                OpenKind::Implicit(shift) => {
                    return Standing {
                        shift,
                        implicit: true,
                        unbraced,
                    };
                }
                OpenKind::Explicit => break,
                OpenKind::Unbraced => unbraced = true,
            }
        }
        Standing {
            shift: Shift::none(),
            implicit: false,
            unbraced,
        }
    }
}
