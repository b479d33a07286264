//! The order in which synonyms are expanded, and which of them lead back to themselves. A synonym leads to those that
//! its type mentions.
use crate::known::{Stated, Types, entries_of, known_at};
use hr_base::{Binder, Seq};
use hr_graph::components;
use hr_typing_code::{ModuleRules, within};
use hr_typing_walk::{TypeMark, Written};
use std::alloc::{AllocError, Global};

/// For each synonym whether its type leads back to it, and the synonyms with each behind those that it mentions.
#[derive(Drop)]
pub struct Order {
    pub cyclic: Vec<bool>,
    pub order: Vec<usize>,
}

/// The type that a synonym stands for, with its parameters.
pub fn synonym_marks<'a>(modules: &'a [ModuleRules], stated: Stated) -> &'a [TypeMark] {
    let Some(rules) = modules.get(stated.module) else {
        return &[];
    };
    match rules.written.get(stated.number) {
        Some(Written::Synonym { ty, .. }) => ty.as_slice(),
        _ => &[],
    }
}

pub fn synonym_order(
    alloc: Global,
    types: &Types,
    modules: &[ModuleRules],
    entries: &[&[Option<Binder>]],
) -> Result<Order, AllocError> {
    let count = types.synonyms.len();
    let mut cyclic = vec![in alloc; false; count]?;
    let mut edges = Vec::new(alloc);
    for (from, stated) in types.synonyms.as_slice().iter().enumerate() {
        let own = entries_of(entries, stated.module);
        for mark in synonym_marks(modules, *stated) {
            put_mention(from, mark, types, own, &mut cyclic, &mut edges)?;
        }
    }
    let edges = within(alloc, count, edges.as_slice())?;
    let parts = components(alloc, count, edges.as_slice())?;
    let order = flat(alloc, &parts, &mut cyclic)?;
    Ok(Order { cyclic, order })
}

fn put_mention(
    from: usize,
    mark: &TypeMark,
    types: &Types,
    entries: &[Option<Binder>],
    cyclic: &mut Vec<bool>,
    edges: &mut Vec<(usize, usize)>,
) -> Result<(), AllocError> {
    let TypeMark::Applied(lexeme, _, _) = mark else {
        return Ok(());
    };
    let Some(known) = known_at(types, entries, *lexeme) else {
        return Ok(());
    };
    let Some(to) = known.synonym else {
        return Ok(());
    };
    if to == from {
        set(cyclic, from);
    }
    edges.push((from, to))?;
    Ok(())
}

fn set(flags: &mut Vec<bool>, at: usize) {
    if let Some(flag) = flags.get_mut(at) {
        *flag = true;
    }
}

/// The synonyms in order; those of a component with others lead back to themselves.
fn flat(
    alloc: Global,
    parts: &Seq<Seq<usize>>,
    cyclic: &mut Vec<bool>,
) -> Result<Vec<usize>, AllocError> {
    let mut order = Vec::new(alloc);
    for part in parts.as_slice() {
        for synonym in part.as_slice() {
            if part.len() > 1 {
                set(cyclic, *synonym);
            }
            order.push(*synonym)?;
        }
    }
    Ok(order)
}
