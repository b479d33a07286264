//! What synonyms stand for.
use crate::building::Builder;
use crate::checking::numbers_of;
use crate::cycles::Order;
use crate::known::{Stated, entries_of};
use hr_base::Binder;
use hr_type::Scheme;
use hr_typing_code::ModuleRules;
use hr_typing_walk::Written;
use std::alloc::AllocError;

/// Expands all synonyms, each behind those that it mentions.
pub fn expand_all(
    order: &Order,
    modules: &[ModuleRules],
    entries: &[&[Option<Binder>]],
    builder: &mut Builder,
) -> Result<(), AllocError> {
    let count = builder.types.synonyms.len();
    for _ in 0..count {
        builder.expansions.push(None)?;
    }
    for synonym in order.order.as_slice() {
        let Some(stated) = builder.types.synonyms.get(*synonym).copied() else {
            continue;
        };
        let own = entries_of(entries, stated.module);
        let scheme = expansion_of(stated, modules, own, builder)?;
        if let Some(place) = builder.expansions.get_mut(*synonym) {
            *place = scheme;
        }
    }
    Ok(())
}

fn expansion_of(
    stated: Stated,
    modules: &[ModuleRules],
    entries: &[Option<Binder>],
    builder: &mut Builder,
) -> Result<Option<Scheme>, AllocError> {
    let Some(rules) = modules.get(stated.module) else {
        return Ok(None);
    };
    let Some(
        Written::Synonym {
            name: _,
            variables,
            ty,
        },
    ) = rules.written.get(stated.number)
    else {
        return Ok(None);
    };
    let numbers = numbers_of(builder.alloc, variables.as_slice())?;
    let body = builder.build(ty.as_slice(), &numbers, entries)?;
    Ok(Some(Scheme {
        bound: bound_of(variables.len())?,
        body,
    }))
}

/// How many variables are bound.
pub fn bound_of(count: usize) -> Result<u32, AllocError> {
    match u32::try_from(count) {
        Ok(bound) => Ok(bound),
        Err(_) => Err(AllocError),
    }
}
