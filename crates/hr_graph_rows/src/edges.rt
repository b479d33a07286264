ghost use Rattle.std.specs.Prelude.{IsTrue};
ghost use Rattle.hr_graph.specs.Graph.{IsWithin};

use crate::notation::{Fan, fan_of, words};
use crate::shown::Shown;
use hr_graph::components;
use std::alloc::{AllocError, Global};

/// An edge, as the numbers of its two nodes.
pub type Edge = (usize, usize);

/// The components of a graph; none where the fields are no case.
pub fn answer(alloc: Global, nodes: &[u8], edges: &[u8]) -> Result<Option<String>, AllocError> {
    let Some(nodes) = number(nodes) else {
        return Ok(None);
    };
    let Some(edges) = edges_of(alloc, nodes, edges)? else {
        return Ok(None);
    };
    if !are_within(nodes, &edges) {
        return Ok(None);
    }
    let groups = components(alloc, nodes, &edges)?;
    let mut shown = Shown::new(alloc);
    for group in groups.as_slice() {
        match group.as_slice() {
            [node] => shown.add(*node)?,
            several => {
                let inner = Shown::of(alloc, several)?;
                let word = format!(in alloc; "[{inner}]")?;
                shown.add_word(word.as_str())?;
            }
        }
    }
    Ok(Some(shown.into_line()?))
}

/// The number that a field is.
fn number(field: &[u8]) -> Option<usize> {
    std::str::from_utf8(field).ok()?.parse().ok()
}

/// The edges of a field, in its order.
fn edges_of(alloc: Global, nodes: usize, field: &[u8]) -> Result<Option<Vec<Edge>>, AllocError> {
    let mut edges = Vec::new(alloc);
    let Some(words) = words(field) else {
        return Ok(None);
    };
    for word in words {
        if let Some(fan) = fan_of(word) {
            push_fan(&mut edges, nodes, fan)?;
        } else if let Some(edge) = edge(word) {
            edges.push(edge)?;
        } else if !word.is_empty() {
            return Ok(None);
        }
    }
    Ok(Some(edges))
}

/// Two numbers with `:` between them.
fn edge(word: &str) -> Option<Edge> {
    let (from, to) = word.split_once(':')?;
    Some((from.parse().ok()?, to.parse().ok()?))
}

/// Each edge that the ranges stand for.
pub fn push_fan(edges: &mut Vec<Edge>, nodes: usize, fan: Fan) -> Result<(), AllocError> {
    let last = nodes.saturating_sub(1);
    for from in fan.from.first..=fan.from.last {
        for places in fan.behind.first..=fan.behind.last {
            edges.push((from, from.saturating_add(places).min(last)))?;
        }
    }
    Ok(())
}

/// Whether both ends of each edge are nodes, as `components` requires.
fn are_within(nodes: usize, edges: &[Edge]) -> bool
    ensures { IsTrue result → IsWithin nodes edges.now }
{
    for (from, to) in edges {
        if *from >= nodes {
            return false;
        }
        if *to >= nodes {
            return false;
        }
    }
    true
}
