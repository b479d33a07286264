//! Whether the blocks stand where they stood.
ghost use Rattle.std.specs.Prelude.{◌≡◌, IfOk};
ghost use Rattle.hr_step.specs.Blocks.{are_blocks_kept, is_opening_kept, is_same_block, is_same_braces, is_same_number, is_same_place, old_opening};

use crate::kept::{counts_before, kept_before_new, kept_marks, kept_number};
use hr_draft::{BlockSpan, Drafted};
use std::alloc::{AllocError, Global};

/// Whether the blocks that were read are those of the old text whose opening is kept, in the same braces or none, each
/// round the same kept lexemes. There are so many old lexemes.
pub fn are_blocks_kept(
    alloc: Global,
    lexemes: usize,
    old: &[BlockSpan],
    draft: &[Drafted],
    new: &[BlockSpan],
) -> Result<bool, AllocError>
    ensures { IfOk result (λ kept. kept ≡ are_blocks_kept lexemes old.now draft.now new.now) }
{
    let marks = kept_marks(alloc, lexemes, draft)?;
    let olds = counts_before(alloc, marks.as_slice())?;
    let news = kept_before_new(alloc, draft)?;
    let mut left = new;
    for span in old {
        if is_opening_kept(marks.as_slice(), span.opening) {
            let [found, rest @ ..] = left else {
                return Ok(false);
            };
            if !is_same_block(draft, olds.as_slice(), news.as_slice(), *span, *found) {
                return Ok(false);
            }
            left = rest;
        }
    }
    Ok(left.is_empty())
}

/// Whether the word is kept that opens a block, if there is one.
fn is_opening_kept(marks: &[bool], opening: Option<usize>) -> bool
    ensures { result ≡ is_opening_kept marks.now opening }
{
    match opening {
        Some(item) => match marks.get(item) {
            Some(mark) => *mark,
            None => false,
        },
        None => true,
    }
}

/// Whether the old block and the new one are the same. `olds` and `news` count the kept lexemes before each place.
fn is_same_block(
    draft: &[Drafted],
    olds: &[usize],
    news: &[usize],
    old: BlockSpan,
    new: BlockSpan,
) -> bool
    ensures { result ≡ is_same_block draft.now olds.now news.now old new }
{
    if !is_same_braces(old.explicit, new.explicit) {
        return false;
    }
    if !is_same_number(old_opening(draft, new.opening), old.opening) {
        return false;
    }
    is_same_place(olds, old.from, news, new.from) && is_same_place(olds, old.to, news, new.to)
}

fn is_same_braces(old: bool, new: bool) -> bool
    ensures { result ≡ is_same_braces old new }
{
    match (old, new) {
        (true, true) => true,
        (false, false) => true,
        (true, false) => false,
        (false, true) => false,
    }
}

/// The number of the old lexeme that the opening of a new block is.
fn old_opening(draft: &[Drafted], opening: Option<usize>) -> Option<usize>
    ensures { result ≡ old_opening draft.now opening }
{
    match opening {
        Some(item) => match draft.get(item) {
            Some(drafted) => kept_number(drafted),
            None => None,
        },
        None => None,
    }
}

fn is_same_number(left: Option<usize>, right: Option<usize>) -> bool
    ensures { result ≡ is_same_number left right }
{
    match (left, right) {
        (None, None) => true,
        (None, Some(_)) => false,
        (Some(_), None) => false,
        (Some(left), Some(right)) => left == right,
    }
}

/// Whether as many lexemes are kept before the old place as before the new one.
fn is_same_place(olds: &[usize], old: usize, news: &[usize], new: usize) -> bool
    ensures { result ≡ is_same_place olds.now old news.now new }
{
    match olds.get(old) {
        Some(left) => match news.get(new) {
            Some(right) => *left == *right,
            None => false,
        },
        None => false,
    }
}
