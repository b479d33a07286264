//! The groups of a block's definitions: names that use one another without a signature (Haskell 98 Report, 4.5.1).
use crate::block::{Block, Defined, Definition};
use crate::edges::{Nodes, edges_of, nodes_of, unsigned, within};
use hr_base::Binder;
use hr_graph::components;
use hr_typing_walk::{Rule, Walk};
use std::alloc::{AllocError, Global};

/// Definitions that are typed together: the lexemes that bind their names first, their rules with `Open` and `Close`,
/// and their first lexeme.
#[derive(Drop)]
pub struct Group {
    pub names: Vec<usize>,
    pub rules: Vec<Rule>,
    pub first: usize,
}

/// Adds the rules of a block: its signatures, and its groups in order.
pub fn put_block(block: Block, walk: &mut Walk) {
    for signed in block.signed.as_slice() {
        walk.put(Rule::Sign(*signed));
    }
    match groups(walk.alloc(), block, walk.entries()) {
        Ok(groups) => put_groups(groups, walk),
        Err(error) => walk.note(Err(error)),
    }
}

fn put_groups(groups: Vec<Group>, walk: &mut Walk) {
    for group in groups {
        let Group {
            names,
            rules,
            first: _,
        } = group;
        drop(names);
        walk.put_all(rules);
    }
}

/// Adds a definition whose rules stand behind the first so many to a block.
pub fn put_definition(
    head: Result<Defined, AllocError>,
    from: usize,
    walk: &mut Walk,
    block: &mut Block,
) {
    let rules = walk.take_from(from);
    let done = match head {
        Ok(defined) => block.define(walk.alloc(), defined, rules),
        Err(error) => Err(error),
    };
    walk.note(done);
}

/// The groups of a block, each behind those that it uses; definitions without names come last, in text order.
pub fn groups(
    alloc: Global,
    block: Block,
    entries: &[Option<Binder>],
) -> Result<Vec<Group>, AllocError> {
    let Block {
        definitions,
        signed,
    } = block;
    let nodes = nodes_of(alloc, definitions.as_slice(), entries)?;
    let free = unsigned(alloc, &nodes, signed.as_slice(), entries)?;
    let edges = edges_of(
        alloc,
        definitions.as_slice(),
        &nodes,
        free.as_slice(),
        entries,
    )?;
    let count = nodes.owners.len();
    let edges = within(alloc, count, edges.as_slice())?;
    let parts = components(alloc, count, edges.as_slice())?;
    let mut left = held(alloc, definitions)?;
    let mut groups = Vec::new(alloc);
    for part in parts.as_slice() {
        groups.push(group_of(alloc, part.as_slice(), &nodes, &mut left)?)?;
    }
    put_nameless(alloc, left, &mut groups)?;
    Ok(groups)
}

/// Definitions that are taken one by one.
fn held(
    alloc: Global,
    definitions: Vec<Definition>,
) -> Result<Vec<Option<Definition>>, AllocError> {
    let mut held = Vec::new(alloc);
    for definition in definitions {
        held.push(Some(definition))?;
    }
    Ok(held)
}

/// The definitions of a component's names, in text order.
fn group_of(
    alloc: Global,
    part: &[usize],
    nodes: &Nodes,
    left: &mut Vec<Option<Definition>>,
) -> Result<Group, AllocError> {
    let mut names = Vec::new(alloc);
    let mut rules = Vec::new(alloc);
    let mut first = usize::MAX;
    for node in part {
        if let Some(lexeme) = nodes.lexemes.get(*node) {
            names.push(*lexeme)?;
        }
        let owner = nodes.owners.get(*node).copied().unwrap_or(0);
        if let Some(definition) = taken(left, owner) {
            first = first.min(definition.first);
            put_rules(definition, &mut rules)?;
        }
    }
    closed(alloc, names, rules, first)
}

fn taken(left: &mut Vec<Option<Definition>>, owner: usize) -> Option<Definition> {
    match left.get_mut(owner) {
        Some(place) => place.take(),
        None => None,
    }
}

fn put_rules(definition: Definition, rules: &mut Vec<Rule>) -> Result<(), AllocError> {
    let mut own = definition.rules;
    rules.append(&mut own)
}

/// A group round the rules of its definitions.
fn closed(
    alloc: Global,
    names: Vec<usize>,
    rules: Vec<Rule>,
    first: usize,
) -> Result<Group, AllocError> {
    let mut whole = Vec::new(alloc);
    let mut inner = rules;
    whole.push(Rule::Open(names.clone()?))?;
    whole.append(&mut inner)?;
    whole.push(Rule::Close)?;
    Ok(Group {
        names,
        rules: whole,
        first,
    })
}

fn put_nameless(
    alloc: Global,
    left: Vec<Option<Definition>>,
    groups: &mut Vec<Group>,
) -> Result<(), AllocError> {
    for definition in left {
        if let Some(definition) = definition {
            let first = definition.first;
            let mut rules = Vec::new(alloc);
            put_rules(definition, &mut rules)?;
            groups.push(closed(alloc, Vec::new(alloc), rules, first)?)?;
        }
    }
    Ok(())
}
