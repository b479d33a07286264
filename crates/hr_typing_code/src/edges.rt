//! Which definitions of a block use which names.
ghost use Rattle.std.specs.Prelude.{IfOk, OnOk};
ghost use Rattle.hr_graph.specs.Graph.{IsWithin};

use crate::block::Definition;
use hr_base::Binder;
use hr_typing_walk::{Rule, Signed, Used};
use indexmap::IndexMap;
use std::alloc::{AllocError, Global};

/// The names of definitions as nodes: which definition each belongs to, and the node of a binder.
#[derive(Drop)]
pub struct Nodes {
    pub owners: Vec<usize>,
    pub lexemes: Vec<usize>,
    numbers: IndexMap<Binder, usize>,
}

/// What a lexeme is bound to.
fn binder_at(entries: &[Option<Binder>], lexeme: usize) -> Option<&Binder> {
    match entries.get(lexeme) {
        Some(entry) => entry.as_ref(),
        None => None,
    }
}

pub fn nodes_of(
    alloc: Global,
    definitions: &[Definition],
    entries: &[Option<Binder>],
) -> Result<Nodes, AllocError> {
    let mut nodes = Nodes {
        owners: Vec::new(alloc),
        lexemes: Vec::new(alloc),
        numbers: IndexMap::new(alloc),
    };
    for (owner, definition) in definitions.iter().enumerate() {
        for lexeme in definition.names.as_slice() {
            put_node(&mut nodes, owner, *lexeme, entries)?;
        }
    }
    Ok(nodes)
}

fn put_node(
    nodes: &mut Nodes,
    owner: usize,
    lexeme: usize,
    entries: &[Option<Binder>],
) -> Result<(), AllocError> {
    if let Some(binder) = binder_at(entries, lexeme) {
        nodes.numbers.insert(binder.clone()?, nodes.owners.len())?;
    }
    nodes.owners.push(owner)?;
    nodes.lexemes.push(lexeme)?;
    Ok(())
}

/// The node of the name that a lexeme uses.
fn node_at(nodes: &Nodes, entries: &[Option<Binder>], lexeme: usize) -> Option<usize> {
    match binder_at(entries, lexeme) {
        Some(binder) => nodes.numbers.get(binder).copied(),
        None => None,
    }
}

/// The edges whose ends are below a number.
#[tactic(auto, using(crate::proofs::Ends::within_none))]
pub fn within(
    alloc: Global,
    count: usize,
    edges: &[(usize, usize)],
) -> Result<Vec<(usize, usize)>, AllocError>
    ensures { IfOk result (λ kept. IsWithin count kept.items) }
{
    let mut kept = Vec::new(alloc);
    for edge in edges {
        put_within(count, edge.0, edge.1, &mut kept)?;
    }
    Ok(kept)
}

#[tactic(auto, using(crate::proofs::Ends::within_more))]
fn put_within(
    count: usize,
    from: usize,
    to: usize,
    kept: &mut Vec<(usize, usize)>,
) -> Result<(), AllocError>
    requires { IsWithin count kept.old.items }
    ensures { OnOk result (IsWithin count kept.new.items) }
{
    if from >= count {
        return Ok(());
    }
    if to >= count {
        return Ok(());
    }
    kept.push((from, to))?;
    Ok(())
}

/// For each node whether its name has no signature.
pub fn unsigned(
    alloc: Global,
    nodes: &Nodes,
    signed: &[Signed],
    entries: &[Option<Binder>],
) -> Result<Vec<bool>, AllocError> {
    let mut free = vec![in alloc; true; nodes.owners.len()]?;
    for signed in signed {
        if let Some(node) = node_at(nodes, entries, signed.name) {
            if let Some(place) = free.get_mut(node) {
                *place = false;
            }
        }
    }
    Ok(free)
}

/// What edges are made from: the nodes, which of them have no signature, and what names are bound to.
#[derive(Clone, Copy)]
struct Graph<'a> {
    nodes: &'a Nodes,
    free: &'a [bool],
    entries: &'a [Option<Binder>],
}

/// An edge to each name without a signature that a definition uses; the names of one pattern lead to one another.
pub fn edges_of(
    alloc: Global,
    definitions: &[Definition],
    nodes: &Nodes,
    free: &[bool],
    entries: &[Option<Binder>],
) -> Result<Vec<(usize, usize)>, AllocError> {
    let graph = Graph {
        nodes,
        free,
        entries,
    };
    let mut edges = Vec::new(alloc);
    let mut first = 0usize;
    for definition in definitions {
        let count = definition.names.len();
        put_ring(first, count, &mut edges)?;
        if count > 0 {
            put_uses(first, definition.rules.as_slice(), graph, &mut edges)?;
        }
        first = first.saturating_add(count);
    }
    Ok(edges)
}

/// Edges from each of so many nodes to the next, and from the last to the first.
fn put_ring(first: usize, count: usize, edges: &mut Vec<(usize, usize)>) -> Result<(), AllocError> {
    for place in 1..count {
        let node = first.saturating_add(place);
        edges.push((node.saturating_sub(1), node))?;
        edges.push((node, node.saturating_sub(1)))?;
    }
    Ok(())
}

fn put_uses(
    node: usize,
    rules: &[Rule],
    graph: Graph,
    edges: &mut Vec<(usize, usize)>,
) -> Result<(), AllocError> {
    for rule in rules {
        match rule {
            Rule::Use(used) => put_use(node, *used, graph, edges)?,
            Rule::Sequence(_, operators) => put_operators(
                node,
                operators.as_slice(),
                graph,
                edges,
            )?,
            _ => {}
        }
    }
    Ok(())
}

fn put_operators(
    node: usize,
    operators: &[usize],
    graph: Graph,
    edges: &mut Vec<(usize, usize)>,
) -> Result<(), AllocError> {
    for operator in operators {
        put_use(node, Used::Name(*operator), graph, edges)?;
    }
    Ok(())
}

fn put_use(
    node: usize,
    used: Used,
    graph: Graph,
    edges: &mut Vec<(usize, usize)>,
) -> Result<(), AllocError> {
    let Used::Name(lexeme) = used else {
        return Ok(());
    };
    let Some(to) = node_at(graph.nodes, graph.entries, lexeme) else {
        return Ok(());
    };
    if graph.free.get(to).copied().unwrap_or(false) {
        edges.push((node, to))?;
    }
    Ok(())
}
