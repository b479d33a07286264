//! What the names of a target stand for, also where the target is refused.

use hr_base::{Binder, Seq};
use hr_scope::{Found, look_up_all};
use hr_tables::{Bindings, Interfaces};
use hr_tree::Module;
use std::alloc::{AllocError, Global};

/// For each lexeme what it is bound to, and in a second list what else, where its region declares the name twice.
#[derive(Drop)]
pub struct Meanings {
    pub one: Bindings,
    pub also: Bindings,
}

/// What the names of the modules stand for.
pub fn meanings_of(
    alloc: Global,
    modules: &[Module],
    interfaces: &Interfaces,
) -> Result<Meanings, AllocError> {
    let mut ones = Vec::new(alloc);
    let mut others = Vec::new(alloc);
    for list in look_up_all(alloc, modules, interfaces)? {
        let (one, also) = meanings_in(alloc, list)?;
        ones.push(one)?;
        others.push(also)?;
    }
    Ok(Meanings {
        one: Bindings {
            modules: Seq { list: ones },
        },
        also: Bindings {
            modules: Seq { list: others },
        },
    })
}

type Entries = Seq<Option<Binder>>;

/// The two lists of a module.
fn meanings_in(alloc: Global, list: Vec<Found>) -> Result<(Entries, Entries), AllocError> {
    let mut one = Vec::with_capacity(alloc, list.len())?;
    let mut also = Vec::with_capacity(alloc, list.len())?;
    for found in list {
        let (first, second) = binders(found);
        one.push(first)?;
        also.push(second)?;
    }
    Ok((Seq { list: one }, Seq { list: also }))
}

/// The binder of a name, and the second one of its region. A name for which two things are in scope has none.
fn binders(found: Found) -> (Option<Binder>, Option<Binder>) {
    match found {
        Found::One(binder) => (Some(binder), None),
        Found::Several {
            first: Binder::Local(first),
            second: Binder::Local(second),
        } => (Some(Binder::Local(first)), Some(Binder::Local(second))),
        _ => (None, None),
    }
}
