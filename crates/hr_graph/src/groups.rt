ghost use Rattle.std.specs.Prelude.{◌≡◌, ◌<◌, ℕ, Some, None, length, replicate, All, IfOk, slice_index_or, slice_set, unwrap_or, vec_len};
ghost use Rattle.hr_graph.specs.Graph.{AreComponents, IsWithin};
ghost use Rattle.hr_graph.specs.Groups.{AreLeasts, AreLinks, AreGathered, groups_of};

use crate::ready::first_ready;
use crate::rows::{append, empty_rows};
use crate::strong::labels;
use hr_base::Seq;
use std::alloc::{AllocError, Global};

/// The first node with this label, which is this one if there was none before.
fn first_of(first: &mut Vec<Option<usize>>, label: usize, node: usize) -> usize
    requires { label < vec_len first.old }
    ensures least { result ≡ unwrap_or (slice_index_or first.old.items label None) node }
    ensures after { first.new.items ≡ slice_set first.old.items label (Some result) }
{
    let least = first[label].unwrap_or(node);
    first[label] = Some(least);
    least
}

/// No node is known for any label.
fn no_first(alloc: Global, labels: usize) -> Result<Vec<Option<usize>>, AllocError>
    ensures { IfOk result (λ first. first.items ≡ replicate labels None) }
{
    let first = vec![in alloc; None; labels]?;
    Ok(first)
}

/// For each node the least node that has its label.
fn leasts(alloc: Global, labels: &[usize]) -> Result<Vec<usize>, AllocError>
    requires { All (λ label. label < length labels.now) labels.now }
    ensures { IfOk result (λ leasts. AreLeasts labels.now leasts.items) }
{
    let mut first = no_first(alloc, labels.len())?;
    let mut leasts = Vec::new(alloc);
    for (node, label) in labels.iter().enumerate() {
        let least = first_of(&mut first, *label, node);
        leasts.push(least)?;
    }
    Ok(leasts)
}

/// The edges between the least nodes of different components.
fn between(
    alloc: Global,
    edges: &[(usize, usize)],
    leasts: &[usize],
) -> Result<Vec<(usize, usize)>, AllocError>
    requires { IsWithin (length leasts.now) edges.now }
    ensures { IfOk result (λ links. AreLinks edges.now leasts.now links.items) }
{
    let mut links = Vec::new(alloc);
    for (from, to) in edges {
        if leasts[*from] != leasts[*to] {
            links.push((leasts[*from], leasts[*to]))?;
        }
    }
    Ok(links)
}

/// For each node the nodes of which it is the least one, ascending.
fn members(alloc: Global, leasts: &[usize]) -> Result<Vec<Seq<usize>>, AllocError>
    requires { All (λ least. least < length leasts.now) leasts.now }
    ensures length { IfOk result (λ rows. vec_len rows ≡ length leasts.now) }
    ensures members { IfOk result (λ rows. AreGathered leasts.now rows.items) }
{
    let mut rows = empty_rows(alloc, leasts.len())?;
    for (node, least) in leasts.iter().enumerate() {
        append(&mut rows[*least], node)?;
    }
    Ok(rows)
}

/// The rows of the nodes in turn, but for empty ones.
fn filled_rows(
    alloc: Global,
    rows: &[Seq<usize>],
    order: &[usize],
) -> Result<Seq<Seq<usize>>, AllocError>
    requires { All (λ node. node < length rows.now) order.now }
    ensures { IfOk result (λ groups. groups ≡ groups_of rows.now order.now) }
{
    let mut list = Vec::new(alloc);
    for node in order {
        let row = rows[*node].as_slice();
        if !row.is_empty() {
            list.push(Seq {
                list: Vec::from_slice(alloc, row)?,
            })?;
        }
    }
    Ok(Seq { list })
}

/// The strong components of a graph: each after those that it points to, each ascending, the one
/// with the least node first where a choice is left.
pub fn components(
    alloc: Global,
    nodes: usize,
    edges: &[(usize, usize)],
) -> Result<Seq<Seq<usize>>, AllocError>
    requires { IsWithin nodes edges.now }
    ensures { IfOk result (λ components. AreComponents nodes edges.now components) }
{
    let labels = labels(alloc, nodes, edges)?;
    let leasts = leasts(alloc, &labels)?;
    let links = between(alloc, edges, &leasts)?;
    let order = first_ready(alloc, nodes, &links)?;
    let rows = members(alloc, &leasts)?;
    filled_rows(alloc, &rows, &order)
}
