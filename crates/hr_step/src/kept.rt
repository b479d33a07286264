//! Which lexemes are kept.
ghost use Rattle.std.specs.Prelude.{◌≡◌, ◌∷◌, ◌++◌, IfOk, Some, None, false, length, map, replicate};
ghost use Rattle.hr_step.specs.Kept.{count_behind, counts_from, is_kept, kept_before_new, kept_number, marked, marked_by};

use hr_draft::{Drafted, Origin};
use std::alloc::{AllocError, Global};

/// The number of the old lexeme that the draft's lexeme is, if it is kept.
pub fn kept_number(drafted: &Drafted) -> Option<usize>
    ensures { result ≡ kept_number drafted.now }
{
    match drafted.origin {
        Origin::Kept(spot) => Some(spot.item),
        Origin::Carried(_) => None,
        Origin::New => None,
    }
}

fn is_kept(drafted: &Drafted) -> bool
    ensures { result ≡ is_kept drafted.now }
{
    kept_number(drafted).is_some()
}

/// For each of the old lexemes, of which there are so many, whether it is kept.
pub fn kept_marks(alloc: Global, lexemes: usize, draft: &[Drafted]) -> Result<Vec<bool>, AllocError>
    ensures { IfOk result (λ marks. marks.items ≡ marked_by (replicate lexemes false) draft.now) }
{
    let mut marks = vec![in alloc; false; lexemes]?;
    for drafted in draft {
        mark(marks.as_mut_slice(), kept_number(drafted));
    }
    Ok(marks)
}

/// Sets the mark of the number, if there is one.
fn mark(marks: &mut [bool], number: Option<usize>)
    ensures { marks.new ≡ marked marks.old number }
{
    if let Some(number) = number {
        if number < marks.len() {
            marks[number] = true;
        }
    }
}

/// For each lexeme of the draft, and for its end, how many lexemes before it are kept.
pub fn kept_before_new(alloc: Global, draft: &[Drafted]) -> Result<Vec<usize>, AllocError>
    ensures { IfOk result (λ counts. counts.items ≡ kept_before_new draft.now) }
{
    let mut marks = Vec::with_capacity(alloc, draft.len())?;
    for drafted in draft {
        marks.push(is_kept(drafted))?;
    }
    counts_before(alloc, marks.as_slice())
}

/// At each place, and behind the last one, how many marks before it are set.
pub fn counts_before(alloc: Global, marks: &[bool]) -> Result<Vec<usize>, AllocError>
    ensures { IfOk result (λ counts. counts.items ≡ counts_from 0 marks.now) }
{
    let mut counts = Vec::with_capacity(alloc, marks.len())?;
    let mut count = 0usize;
    for mark in marks {
        counts.push(count)?;
        count = count_behind(count, *mark);
    }
    counts.push(count)?;
    Ok(counts)
}

fn count_behind(count: usize, mark: bool) -> usize
    ensures { result ≡ count_behind count mark }
{
    if mark { count.saturating_add(1) } else { count }
}
