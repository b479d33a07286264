//! The sequences of a module, resolved.
use crate::Fixities;
use hr_base::{Binder, Place, Pos, Seq, Text};
use hr_fixity::{FixityError, Graded, Infix, Part, resolve};
use hr_outline::{Outline, outline_of};
use hr_rules::Reached;
use hr_sequences::{Sequence, SequencePart, sequences_in};
use hr_tree::Module;
use std::alloc::{AllocError, Global};

/// A module whose sequences are resolved: its name, what its lexemes are bound to, and where each of them begins.
#[derive(Drop)]
struct Scene<'a> {
    module: &'a Text,
    entries: &'a [Option<Binder>],
    places: Vec<Pos>,
    fixities: &'a Fixities,
}

/// The graded trees of a module's sequences, in the order of their first lexemes, the outer one first. The first
/// that has none is refused.
pub fn grade(
    alloc: Global,
    module: &Text,
    tree: &Module,
    entries: &[Option<Binder>],
    fixities: &Fixities,
) -> Result<Seq<Graded>, FixityError> {
    let Ok((places, sequences)) = read(alloc, tree) else {
        return Err(FixityError::Memory(AllocError));
    };
    let scene = Scene {
        module,
        entries,
        places,
        fixities,
    };
    let mut list = Vec::new(alloc);
    for sequence in sequences.as_slice() {
        let graded = scene.graded(alloc, sequence)?;
        let Ok(()) = list.push(graded) else {
            return Err(FixityError::Memory(AllocError));
        };
    }
    Ok(Seq { list })
}

/// Where the lexemes of a module begin, and its sequences.
fn read(alloc: Global, tree: &Module) -> Result<(Vec<Pos>, Vec<Sequence>), AllocError> {
    let outline = outline_of(alloc, tree)?;
    Ok((positions(alloc, &outline)?, sequences_in(alloc, &outline)?))
}

/// Where the lexemes begin.
pub fn positions(alloc: Global, outline: &Outline<'_>) -> Result<Vec<Pos>, AllocError> {
    let mut positions = Vec::new(alloc);
    let mut reached = Reached::origin();
    for mark in outline.marks.as_slice() {
        reached = reached.behind(mark.item.trivia.as_slice());
        positions.push(Pos {
            line: u32::try_from(reached.line).map_err(|_| AllocError)?,
            col: u32::try_from(reached.col).map_err(|_| AllocError)?,
        })?;
        reached = reached.behind(mark.item.lexeme.text.as_slice());
    }
    Ok(positions)
}

impl Scene<'_> {
    fn graded(&self, alloc: Global, sequence: &Sequence) -> Result<Graded, FixityError> {
        let Ok(infix) = self.infix(alloc, sequence) else {
            return Err(FixityError::Memory(AllocError));
        };
        if !infix.is_sequence() {
            return Err(FixityError::Memory(AllocError));
        }
        resolve(alloc, &infix)
    }

    /// The sequence with the places and fixities of its operators.
    fn infix(&self, alloc: Global, sequence: &Sequence) -> Result<Infix, AllocError> {
        let mut list = Vec::new(alloc);
        for part in sequence.parts.as_slice() {
            list.push(self.part(*part)?)?;
        }
        Ok(Infix {
            parts: Seq { list },
            root: sequence.root,
        })
    }

    fn part(&self, part: SequencePart) -> Result<Part, AllocError> {
        Ok(match part {
            SequencePart::Operand => Part::Operand,
            SequencePart::Operator { item } => Part::Operator {
                place: self.place(item)?,
                fixity: self.fixities.fixity_of(self.binder(item)),
            },
            SequencePart::Minus { item } => Part::Minus {
                place: self.place(item)?,
            },
            SequencePart::PatternMinus { item } => Part::PatternMinus {
                place: self.place(item)?,
            },
        })
    }

    fn binder(&self, item: usize) -> Option<&Binder> {
        match self.entries.get(item) {
            Some(entry) => entry.as_ref(),
            None => None,
        }
    }

    fn place(&self, item: usize) -> Result<Place, AllocError> {
        let Some(pos) = self.places.get(item) else {
            return Err(AllocError);
        };
        Ok(Place {
            module: self.module.clone()?,
            pos: *pos,
        })
    }
}
