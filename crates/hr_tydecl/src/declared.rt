use hr_base::{Entity, Place, Seq, Spot, Text};
use hr_type::Scheme;
use std::alloc::{AllocError, Global};
use thiserror::Error;

/// What the modules of a project declare of types. A signature or annotated expression is named by its `::`; its
/// variables are numbered in the order in which they are written, those of a type by its head.
pub struct Declared {
    /// for each type its number of arguments
    pub arities: Seq<(Entity, u32)>,
    /// for each synonym its expansion, whose bound variables are its parameters
    pub synonyms: Seq<(Entity, Scheme)>,
    pub constructors: Seq<(Entity, Scheme)>,
    pub signatures: Seq<(Spot, Scheme)>,
}

/// By hand, so that the crates above let it go by one call.
impl Drop for Declared {
    fn drop(self) {
        let Declared {
            arities,
            synonyms,
            constructors,
            signatures,
        } = self;
        drop(arities);
        drop(synonyms);
        drop(constructors);
        drop(signatures);
    }
}

impl Declared {
    /// Nothing is declared.
    pub fn new(alloc: Global) -> Declared {
        Declared {
            arities: Seq {
                list: Vec::new(alloc),
            },
            synonyms: Seq {
                list: Vec::new(alloc),
            },
            constructors: Seq {
                list: Vec::new(alloc),
            },
            signatures: Seq {
                list: Vec::new(alloc),
            },
        }
    }
}

/// Why what the modules say of types is refused.
#[derive(Debug, Error)]
pub enum DeclError {
    #[error("the expansion of a synonym leads back to it")]
    SynonymCycle { name: Text },
    #[error("a type has another number of arguments")]
    WrongArity { place: Place },
    #[error("a type variable is not bound")]
    UnboundTypeVariable { place: Place },
    #[error(transparent)]
    Memory(AllocError),
}

/// By hand, so that who lets a refusal go calls this, and does not take all its variants apart.
impl Drop for DeclError {
    fn drop(self) {
        match self {
            DeclError::SynonymCycle { name } => drop(name),
            DeclError::WrongArity { place } => drop(place),
            DeclError::UnboundTypeVariable { place } => drop(place),
            DeclError::Memory(error) => drop(error),
        }
    }
}

impl From<AllocError> for DeclError {
    fn from(error: AllocError) -> DeclError {
        DeclError::Memory(error)
    }
}
