ghost use Rattle.std.specs.Prelude.{◌≡◌, ◌<◌, ◌++◌, ◌∷◌, ℕ, [], length, replicate, reverse, map, IfOk, OnOk};
ghost use Rattle.hr_graph.specs.Graph.{IsWithin, turned};
ghost use Rattle.hr_graph.specs.Rows.{AreRows};

use hr_base::Seq;
use std::alloc::{AllocError, Global};

/// One empty row for each node.
pub(crate) fn empty_rows(alloc: Global, nodes: usize) -> Result<Vec<Seq<usize>>, AllocError>
    ensures { IfOk result (λ rows. rows.items ≡ replicate nodes []) }
{
    let mut rows = Vec::new(alloc);
    for _ in 0..nodes {
        rows.push(Seq {
            list: Vec::new(alloc),
        })?;
    }
    Ok(rows)
}

/// Puts one node more at the end of a row.
pub(crate) fn append(row: &mut Seq<usize>, node: usize) -> Result<(), AllocError>
    ensures { OnOk result (row.new ≡ row.old ++ node ∷ []) }
{
    row.list.push(node)?;
    Ok(())
}

/// For each node those that it points to, in the order of the edges.
pub(crate) fn successors(
    alloc: Global,
    nodes: usize,
    edges: &[(usize, usize)],
) -> Result<Vec<Seq<usize>>, AllocError>
    requires { IsWithin nodes edges.now }
    ensures { IfOk result (λ rows. AreRows nodes edges.now rows.items) }
{
    let mut rows = empty_rows(alloc, nodes)?;
    for (from, to) in edges {
        append(&mut rows[*from], *to)?;
    }
    Ok(rows)
}

/// The edges, each turned round.
pub(crate) fn reversed(
    alloc: Global,
    edges: &[(usize, usize)],
) -> Result<Vec<(usize, usize)>, AllocError>
    ensures { IfOk result (λ list. list.items ≡ turned edges.now) }
{
    let mut turned = Vec::new(alloc);
    for (from, to) in edges {
        turned.push((*to, *from))?;
    }
    Ok(turned)
}
