ghost use Rattle.std.specs.Prelude.{◌≡◌, ◌+◌, IfOk, OnOk, map, option_copied, slice_get};
ghost use Rattle.hr_outline.specs.Seen.{joined_seen, mark_seen, seen};
ghost use Rattle.hr_scope_rules.specs.Outline.{outline};
ghost use Rattle.hr_sequences.specs.Sequences.{begun_behind, begun_in, behind_name, end_behind, is_backquote, joined_behind, last_of, minus_behind, name_at, nothing_begun, operand_begins, operator_behind, put, root_put, sequences_of};

use crate::{Sequence, SequencePart};
use hr_base::Seq;
use hr_outline::{Joined, Mark, Outline, outline_of};
use hr_scope_rules::Joint;
use hr_tree::Module;
use std::alloc::{AllocError, Global};

/// The sequences that have begun, in the order of their first lexemes, and those that have not ended, the innermost
/// one last.
#[derive(Drop)]
struct Reading {
    begun: Vec<Sequence>,
    open: Vec<Open>,
}

/// A sequence that has not ended.
#[derive(Clone, Copy, Drop)]
struct Open {
    /// Which one of those that have begun.
    number: usize,
    /// The number of the lexeme with which its next operand begins.
    operand_at: usize,
    is_pattern: bool,
    /// Whether it is the operand of a left side, to which its parts belong.
    is_inner: bool,
}

/// The sequences of a module in the order of their first lexemes; of two that begin together, or of which one
/// stands in the other, the outer one comes first.
pub fn sequences_of(alloc: Global, tree: &Module) -> Result<Vec<Sequence>, AllocError>
    ensures { IfOk result (λ list. list.items ≡ sequences_of (outline tree.now)) }
{
    sequences_in(alloc, &outline_of(alloc, tree)?)
}

/// The same, from the outline of the module.
#[tactic(auto, unfolding(hr_outline::specs::Seen::seen, crate::specs::Sequences::sequences_of))]
pub fn sequences_in(alloc: Global, outline: &Outline<'_>) -> Result<Vec<Sequence>, AllocError>
    ensures { IfOk result (λ list. list.items ≡ sequences_of (seen outline.now)) }
{
    let mut reading = Reading {
        begun: Vec::new(alloc),
        open: Vec::new(alloc),
    };
    for joined in outline.joints.iter() {
        reading.read(alloc, *joined, outline.marks.as_slice())?;
    }
    let Reading { begun, open: _ } = reading;
    Ok(begun)
}

impl Reading {
    fn read(&mut self, alloc: Global, joined: Joined, marks: &[Mark<'_>]) -> Result<(), AllocError>
        ensures { OnOk result (begun_in self.new ≡ joined_behind (map mark_seen marks.now) (begun_in self.old) (joined_seen joined)) }
    {
        match joined.joint {
            Joint::Expression => self.begin(alloc, joined.at, false),
            Joint::Pattern => self.begin(alloc, joined.at, true),
            Joint::Minus => self.minus(joined.at),
            Joint::Operator => self.operator(joined.at, is_backquote(marks, joined.at), false),
            Joint::Root => self.operator(joined.at, is_backquote(marks, joined.at), true),
            Joint::End => self.end(),
        }
    }

    /// A sequence begins. The sequences on both sides of a left side's operator are parts of the left side.
    fn begin(&mut self, alloc: Global, at: usize, is_pattern: bool) -> Result<(), AllocError>
        ensures { OnOk result (begun_in self.new ≡ begun_behind (begun_in self.old) at is_pattern (operand_begins self.old.open.items at)) }
    {
        match self.operand_begins(at) {
            Some(outer) => {
                self.open.push(Open {
                    number: outer.number,
                    operand_at: at,
                    is_pattern,
                    is_inner: true,
                })?;
                Ok(())
            }
            None => {
                self.open.push(Open {
                    number: self.begun.len(),
                    operand_at: at,
                    is_pattern,
                    is_inner: false,
                })?;
                let list = Vec::new(alloc);
                self.begun.push(Sequence {
                    parts: Seq { list },
                    root: None,
                })?;
                Ok(())
            }
        }
    }

    /// The innermost sequence, if an operand of it begins there.
    fn operand_begins(&self, at: usize) -> Option<Open>
        ensures { result ≡ operand_begins self.now.open.items at }
    {
        match self.open.last() {
            Some(innermost) if innermost.operand_at == at => Some(*innermost),
            Some(_) => None,
            None => None,
        }
    }

    /// A minus before an operand. That of a negative integer that is no operand belongs to no sequence.
    fn minus(&mut self, at: usize) -> Result<(), AllocError>
        ensures { OnOk result (begun_in self.new ≡ minus_behind (begun_in self.old) at (operand_begins self.old.open.items at)) }
    {
        match self.operand_begins(at) {
            Some(innermost) if innermost.is_pattern => put(
                &mut self.begun,
                innermost.number,
                SequencePart::PatternMinus { item: at },
            ),
            Some(innermost) => put(
                &mut self.begun,
                innermost.number,
                SequencePart::Minus { item: at },
            ),
            None => Ok(()),
        }
    }

    fn operator(&mut self, at: usize, is_quoted: bool, is_root: bool) -> Result<(), AllocError>
        ensures { OnOk result (begun_in self.new ≡ operator_behind is_quoted (begun_in self.old) at is_root (last_of self.old.open.items)) }
    {
        let Some(innermost) = self.open.last().copied() else {
            return Ok(());
        };
        self.open.pop();
        let item = name_at(is_quoted, at)?;
        self.open.push(Open {
            number: innermost.number,
            operand_at: behind_name(is_quoted, item)?,
            is_pattern: innermost.is_pattern,
            is_inner: innermost.is_inner,
        })?;
        put(&mut self.begun, innermost.number, SequencePart::Operand)?;
        set_root(&mut self.begun, innermost.number, is_root)?;
        put(
            &mut self.begun,
            innermost.number,
            SequencePart::Operator { item },
        )
    }

    /// The innermost sequence ends with an operand.
    fn end(&mut self) -> Result<(), AllocError>
        ensures { OnOk result (begun_in self.new ≡ end_behind (begun_in self.old) (last_of self.old.open.items)) }
    {
        let Some(innermost) = self.open.last().copied() else {
            return Ok(());
        };
        self.open.pop();
        if innermost.is_inner {
            return Ok(());
        }
        put(&mut self.begun, innermost.number, SequencePart::Operand)
    }
}

/// Adds a part to the sequence of that number.
fn put(sequences: &mut Vec<Sequence>, number: usize, part: SequencePart) -> Result<(), AllocError>
    ensures { OnOk result (sequences.new.items ≡ put sequences.old.items number part) }
{
    match sequences.get_mut(number) {
        Some(sequence) => {
            sequence.parts.list.push(part)?;
            Ok(())
        }
        None => Ok(()),
    }
}

/// The next part of the sequence of that number is its root, if it is one. One that no `u32` counts is want of memory.
fn set_root(sequences: &mut Vec<Sequence>, number: usize, is_root: bool) -> Result<(), AllocError>
    ensures { OnOk result (sequences.new.items ≡ root_put is_root sequences.old.items number) }
{
    if !is_root {
        return Ok(());
    }
    match sequences.get_mut(number) {
        Some(sequence) => {
            let root = narrowed(sequence.parts.len())?;
            sequence.root = Some(root);
            Ok(())
        }
        None => Ok(()),
    }
}

fn narrowed(parts: usize) -> Result<u32, AllocError>
    ensures { IfOk result (λ number. number ≡ parts) }
{
    u32::try_from(parts).map_err(|_| AllocError)
}

/// Where the name of an operator stands that begins there.
fn name_at(is_quoted: bool, at: usize) -> Result<usize, AllocError>
    ensures { IfOk result (λ item. item ≡ name_at is_quoted at) }
{
    if is_quoted { behind(at, 1) } else { Ok(at) }
}

/// What stands behind the operator whose name stands there.
fn behind_name(is_quoted: bool, item: usize) -> Result<usize, AllocError>
    ensures { IfOk result (λ next. next ≡ behind_name is_quoted item) }
{
    if is_quoted {
        behind(item, 2)
    } else {
        behind(item, 1)
    }
}

/// So many lexemes behind it.
fn behind(item: usize, count: usize) -> Result<usize, AllocError>
    ensures { IfOk result (λ next. next ≡ item + count) }
{
    match item.checked_add(count) {
        Some(next) => Ok(next),
        None => Err(AllocError),
    }
}

/// Whether the lexeme of that number is a backquote, which stands round the name of an operator.
#[tactic(auto, using(std::proofs::lemmas::Option::gets))]
fn is_backquote(marks: &[Mark<'_>], number: usize) -> bool
    ensures { result ≡ is_backquote (slice_get (map mark_seen marks.now) number) }
{
    match marks.get(number) {
        Some(mark) => mark.item.lexeme.text.as_slice() == b"`".as_slice(),
        None => false,
    }
}
