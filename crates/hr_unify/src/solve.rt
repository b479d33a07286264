ghost use Rattle.std.specs.Prelude.{◌≡◌, []};
ghost use Rattle.hr_unify.specs.Unifiers.{IsGood};

use hr_base::Seq;
use hr_type::Mono;
use std::alloc::{AllocError, Global};
use thiserror::Error;

/// Pairs of a variable and its type.
#[derive(Debug, Drop)]
pub struct Subst {
    pub pairs: Seq<(u32, Mono)>,
}

impl Subst {
    /// No pairs.
    pub fn new(alloc: Global) -> Subst
        ensures none { result.pairs ≡ [] }
        ensures good { IsGood result.pairs }
    {
        Subst {
            pairs: Seq {
                list: Vec::new(alloc),
            },
        }
    }
}

/// Why types have no unifier.
#[derive(Debug, Drop, Error)]
pub enum UnifyError {
    /// Two types that would have to be equal have different constructors or numbers of arguments.
    #[error("two types have different constructors or numbers of arguments")]
    Mismatch { left: Mono, right: Mono },
    /// A variable would have to be equal to a type that has it inside.
    #[error("variable {var} would be inside its own type")]
    Occurs { var: u32, ty: Mono },
    #[error("out of memory")]
    Memory(AllocError),
}
