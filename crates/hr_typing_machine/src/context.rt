//! What the rules of a group are run against, which stays the same while they run.
use hr_base::{Binder, Entity, Spot};
use hr_instances::Entities;
use hr_type::Scheme;
use hr_typing_grades::Grades;
use indexmap::IndexMap;

/// A signature of a name: its lexeme in the signature, and the number of the type among the declared ones.
#[derive(Clone, Copy, Drop)]
pub struct Sign {
    pub lexeme: usize,
    pub number: usize,
}

/// The signatures of names by what these are bound to.
pub type Signs = IndexMap<Binder, Sign>;

/// What is known beside the group: the types of what was typed before and of constructors, declared types, the module's
/// signatures and graded sequences, and what its names are bound to.
#[derive(Clone, Copy)]
pub struct Context<'a> {
    pub schemes: &'a IndexMap<Entity, Scheme>,
    pub signatures: &'a [(Spot, Scheme)],
    pub numbers: &'a IndexMap<Spot, usize>,
    pub signs: &'a Signs,
    pub grades: &'a Grades<'a>,
    pub entities: &'a Entities,
    pub entries: &'a [Option<Binder>],
    pub module: usize,
}

impl<'a> Context<'a> {
    /// What a lexeme is bound to.
    pub fn binder(&self, lexeme: usize) -> Option<&'a Binder> {
        match self.entries.get(lexeme) {
            Some(entry) => entry.as_ref(),
            None => None,
        }
    }

    /// The number of the declared type of a `::`.
    pub fn number(&self, colons: usize) -> Option<usize> {
        let spot = Spot {
            module: self.module,
            item: colons,
        };
        self.numbers.get(&spot).copied()
    }

    /// The declared type of this number.
    pub fn signature(&self, number: usize) -> Option<&'a Scheme> {
        match self.signatures.get(number) {
            Some((_, scheme)) => Some(scheme),
            None => None,
        }
    }
}
