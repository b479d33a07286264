//! The order in which each node comes after those that it points to, the least first where several
//! may come. Each node that may not come yet waits for one of its targets.
ghost use Rattle.std.specs.Prelude.{◌≡◌, ◌⊎◌, ◌<◌, ℕ, false, [], replicate, length, IfNone, IfSome, IfOk, OnOk, Contains, slice_index_or, vec_len};
ghost use Rattle.hr_graph.specs.Graph.{IsWithin, IsInOrder, MayCome};
ghost use Rattle.hr_graph.specs.Rows.{AreRows};
ghost use Rattle.hr_graph.specs.Ready.{IsDone, Settled};

use crate::rows::{append, empty_rows, successors};
use hr_base::Seq;
use std::alloc::{AllocError, Global};
use std::collections::BTreeSet;
use std::mem;

#[derive(Drop)]
pub(crate) struct Agenda {
    /// Of the targets of each node, those that were not seen to be done.
    left: Vec<Seq<usize>>,
    /// For each node those that wait for it.
    waiting: Vec<Seq<usize>>,
    done: Vec<bool>,
    ready: BTreeSet<usize>,
}

impl Agenda {
    fn new(alloc: Global, nodes: usize, edges: &[(usize, usize)]) -> Result<Agenda, AllocError>
        requires { IsWithin nodes edges.now }
        ensures left { IfOk result (λ agenda. AreRows nodes edges.now agenda.left.items) }
        ensures waiting { IfOk result (λ agenda. agenda.waiting.items ≡ replicate nodes []) }
        ensures done { IfOk result (λ agenda. agenda.done.items ≡ replicate nodes false) }
        ensures ready { IfOk result (λ agenda. agenda.ready.keys ≡ []) }
    {
        Ok(Agenda {
            left: successors(alloc, nodes, edges)?,
            waiting: empty_rows(alloc, nodes)?,
            done: vec![in alloc; false; nodes]?,
            ready: BTreeSet::new(alloc),
        })
    }

    /// Makes a node ready, or lets it wait for a target that isn't done.
    fn settle(&mut self, node: usize) -> Result<(), AllocError>
        requires within { node < vec_len self.old.left }
        requires targets { (v : ℕ) → Contains (slice_index_or self.old.left.items node []) v → (v < vec_len self.old.done) × (v < vec_len self.old.waiting) }
        ensures settled { OnOk result (Settled self.old.left.items self.new.left.items self.old.waiting.items self.new.waiting.items self.old.done.items self.old.ready.keys self.new.ready.keys node) }
        ensures done { self.new.done.items ≡ self.old.done.items }
    {
        match last_needed(&mut self.left[node], self.done.as_slice()) {
            Some(target) => {
                append(&mut self.waiting[target], node)?;
                Ok(())
            }
            None => {
                self.ready.insert(node)?;
                Ok(())
            }
        }
    }
}

/// The last target that isn't done. Those behind it are dropped.
fn last_needed(row: &mut Seq<usize>, done: &[bool]) -> Option<usize>
    requires { (v : ℕ) → Contains row.old v → v < length done.now }
    ensures kept { (v : ℕ) → Contains row.new v → Contains row.old v }
    ensures dropped { (v : ℕ) → Contains row.old v → Contains row.new v ⊎ IsDone done.now v }
    ensures none { IfNone result (row.new ≡ []) }
    ensures some { IfSome result (λ v. Contains row.new v × (slice_index_or done.now v false ≡ false)) }
{
    while let Some(target) = row.list.last().copied() {
        if !done[target] {
            return Some(target);
        }
        row.list.pop();
    }
    None
}

/// The nodes that can be put in order, in that order.
pub(crate) fn first_ready(
    alloc: Global,
    nodes: usize,
    edges: &[(usize, usize)],
) -> Result<Vec<usize>, AllocError>
    requires { IsWithin nodes edges.now }
    ensures order { IfOk result (λ order. IsInOrder nodes edges.now order.items) }
    ensures all { IfOk result (λ order. (node : ℕ) → MayCome nodes edges.now order.items node → ⊥) }
{
    let mut agenda = Agenda::new(alloc, nodes, edges)?;
    for node in 0..nodes {
        agenda.settle(node)?;
    }
    let mut order = Vec::new(alloc);
    while let Some(next) = agenda.ready.pop_first() {
        order.push(next)?;
        agenda.done[next] = true;
        let released = mem::replace(
            &mut agenda.waiting[next],
            Seq {
                list: Vec::new(alloc),
            },
        );
        for waiter in released.as_slice() {
            agenda.settle(*waiter)?;
        }
    }
    Ok(order)
}
