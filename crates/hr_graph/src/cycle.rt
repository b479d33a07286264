ghost use Rattle.std.specs.Prelude.{◌≡◌, ◌⊎◌, ◌<◌, ℕ, List, IfOk, IfNone, IfSome, Contains, length, All};
ghost use Rattle.hr_graph.specs.Graph.{IsWithin};
ghost use Rattle.hr_graph.specs.Levels.{steps_of};
ghost use Rattle.hr_graph.specs.Cycle.{IsNumbered, IsFirstOn, IsFirstEqual, IsNearest, IsNearer, IsNotAfter, IsLeastThrough, lesser};

use crate::levels::distances;
use crate::rows::successors;
use crate::strong::labels;
use std::alloc::{AllocError, Global};

/// The first node that lies on a cycle, if there is one.
pub(crate) fn first_on_cycle(
    alloc: Global,
    nodes: usize,
    edges: &[(usize, usize)],
) -> Result<Option<usize>, AllocError>
    requires { IsWithin nodes edges.now }
    ensures none { IfOk result (λ first. IfNone first (IsNumbered edges.now)) }
    ensures some { IfOk result (λ first. IfSome first (IsFirstOn edges.now)) }
{
    let labels = labels(alloc, nodes, edges)?;
    Ok(first_equal(&labels, edges))
}

/// The least node with an edge to one of the same number.
fn first_equal(numbers: &[usize], edges: &[(usize, usize)]) -> Option<usize>
    requires { IsWithin (length numbers.now) edges.now }
    ensures { IsFirstEqual numbers.now edges.now result }
{
    let mut first = None;
    for (from, to) in edges {
        if numbers[*from] == numbers[*to] {
            first = Some(earlier(first, *from));
        }
    }
    first
}

fn earlier(known: Option<usize>, node: usize) -> usize
    ensures { result ≡ lesser known node }
{
    match known {
        Some(other) => other.min(node),
        None => node,
    }
}

/// Of the nodes of a row the one with the fewest steps to the goal, and the least of these, behind
/// its steps.
fn nearest(row: &[usize], steps: &[Option<usize>]) -> Option<(usize, usize)>
    requires { All (λ v. v < length steps.now) row.now }
    ensures { IsNearest row.now steps.now result }
{
    let mut best = None;
    for node in row {
        if let Some(count) = steps[*node] {
            best = Some(nearer(best, (count, *node)));
        }
    }
    best
}

fn nearer(best: Option<(usize, usize)>, other: (usize, usize)) -> (usize, usize)
    ensures { IsNearer best other result }
{
    match best {
        Some(known) => not_after(known, other),
        None => other,
    }
}

fn not_after(known: (usize, usize), other: (usize, usize)) -> (usize, usize)
    ensures one { (result ≡ other) ⊎ (result ≡ known) }
    ensures other { IsNotAfter result other }
    ensures known { IsNotAfter result known }
{
    if known.0 < other.0 {
        return known;
    }
    if other.0 < known.0 {
        return other;
    }
    if known.1 <= other.1 { known } else { other }
}

/// The shortest cycle through a node, and the first of these by the order of the nodes.
pub(crate) fn least_cycle(
    alloc: Global,
    nodes: usize,
    edges: &[(usize, usize)],
    first: usize,
) -> Result<Vec<usize>, AllocError>
    requires within { IsWithin nodes edges.now }
    requires first { IsFirstOn edges.now first }
    ensures { IfOk result (λ cycle. IsLeastThrough edges.now first cycle.items) }
{
    let rows = successors(alloc, nodes, edges)?;
    let steps = distances(alloc, nodes, edges, first)?;
    let mut cycle = vec![in alloc; first]?;
    let mut best = nearest(rows[first].as_slice(), &steps);
    while let Some((_, node)) = best {
        if node == first {
            return Ok(cycle);
        }
        cycle.push(node)?;
        best = nearest(rows[node].as_slice(), &steps);
    }
    Ok(cycle)
}
