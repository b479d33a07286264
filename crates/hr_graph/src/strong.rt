//! Strong components by the path of components: the open nodes form a path of groups, in which each
//! group's nodes reach each other and each group reaches the next. An edge back into the path joins
//! the groups from there on; a group with no edge left is a component, and is labelled.
ghost use Rattle.std.specs.Prelude.{◌≡◌, ◌+◌, ◌<◌, ◌≤◌, ◌++◌, ◌∷◌, ◌↔◌, ℕ, [], length, take, set, map, IfNone, IfSome, IfOk, OnOk, IsTrue, Contains, slice_index_or, vec_len};
ghost use Rattle.std.specs.Bool.{MatchBool};
ghost use Rattle.hr_graph.specs.Graph.{IsWithin};
ghost use Rattle.hr_graph.specs.Strong.{IsPath, IsSound, IsFollowing, Joined, AreEarly, HasTargets, labelled_from, mark_of, waiting, work, IsSeen, KeepsSeen, label_in, AreLabels, IsFresh};

use crate::rows::successors;
use hr_base::Seq;
use std::alloc::{AllocError, Global};

/// Where a node stands in the search.
#[derive(Clone, Copy)]
pub(crate) enum Mark {
    Unseen,
    /// On the path, at this place.
    Open(usize),
    /// In the component that was labelled as this one, from 0.
    Labelled(usize),
}

#[derive(Drop)]
pub(crate) struct Search {
    marks: Vec<Mark>,
    /// The open nodes, in the order in which they were met.
    path: Vec<usize>,
    /// The place on the path at which each group begins.
    starts: Vec<usize>,
    /// Edges of open nodes that are still to be followed: the place of the node, and the target.
    pending: Vec<(usize, usize)>,
    labelled: usize,
}

/// Puts off the edges of the node at this place.
fn wait(pending: &mut Vec<(usize, usize)>, place: usize, row: &[usize]) -> Result<(), AllocError>
    ensures { OnOk result (pending.new.items ≡ pending.old.items ++ waiting place row.now) }
{
    for target in row {
        pending.push((place, *target))?;
    }
    Ok(())
}

/// The target of an edge of the last group, which begins at this place, that is still to be
/// followed.
fn next_target(pending: &mut Vec<(usize, usize)>, start: usize) -> Option<usize>
    ensures none { IfNone result ((pending.new.items ≡ pending.old.items) × AreEarly pending.old.items start) }
    ensures some { IfSome result (λ target. (place : ℕ) × (start ≤ place) × (pending.old.items ≡ pending.new.items ++ (place, target) ∷ [])) }
{
    let (place, target) = pending.last().copied()?;
    if place < start {
        return None;
    }
    pending.pop();
    Some(target)
}

/// Joins the groups behind the one that has this place with it.
fn join(starts: &mut Vec<usize>, place: usize)
    ensures { Joined starts.old.items starts.new.items place }
{
    while let Some(start) = starts.last().copied() {
        if start <= place {
            return;
        }
        starts.pop();
    }
}

/// Closes the nodes of the path from this place on.
fn shut(marks: &mut Vec<Mark>, path: &mut Vec<usize>, start: usize, label: usize)
    requires { IsPath marks.old.items path.old.items }
    ensures marks { (v : ℕ) → mark_of marks.new.items v ≡ labelled_from label start (mark_of marks.old.items v) }
    ensures length { vec_len marks.new ≡ vec_len marks.old }
    ensures path { path.new.items ≡ take start path.old.items }
{
    while path.len() > start {
        if let Some(node) = path.pop() {
            marks[node] = Mark::Labelled(label);
        }
    }
}

impl Search {
    fn new(alloc: Global, nodes: usize) -> Result<Search, AllocError>
        ensures { IfOk result (λ s. IsFresh nodes s.marks.items s.path.items s.starts.items s.pending.items s.labelled) }
    {
        Ok(Search {
            marks: vec![in alloc; Mark::Unseen; nodes]?,
            path: Vec::new(alloc),
            starts: Vec::new(alloc),
            pending: Vec::new(alloc),
            labelled: 0,
        })
    }

    /// Puts a node at the end of the path, as a group of its own.
    fn enter(&mut self, node: usize, row: &[usize]) -> Result<(), AllocError>
        requires { node < vec_len self.old.marks }
        ensures marks { OnOk result (self.new.marks.items ≡ set self.old.marks.items node (Mark.Open (length self.old.path.items))) }
        ensures path { OnOk result (self.new.path.items ≡ self.old.path.items ++ node ∷ []) }
        ensures starts { OnOk result (self.new.starts.items ≡ self.old.starts.items ++ length self.old.path.items ∷ []) }
        ensures pending { OnOk result (self.new.pending.items ≡ self.old.pending.items ++ waiting (length self.old.path.items) row.now) }
        ensures labelled { self.new.labelled ≡ self.old.labelled }
    {
        let place = self.path.len();
        self.path.push(node)?;
        self.starts.push(place)?;
        self.marks[node] = Mark::Open(place);
        wait(&mut self.pending, place, row)
    }

    /// Follows an edge of the last group.
    fn follow(&mut self, rows: &[Seq<usize>], target: usize) -> Result<(), AllocError>
        requires follows { IsFollowing rows.now self.old.marks.items self.old.path.items self.old.starts.items self.old.pending.items self.old.labelled target }
        requires within { target < length rows.now }
        ensures sound { OnOk result (IsSound rows.now self.new.marks.items self.new.path.items self.new.starts.items self.new.pending.items self.new.labelled) }
        ensures seen { OnOk result (KeepsSeen self.old.marks.items self.new.marks.items) }
        ensures less { OnOk result (work rows.now self.new.marks.items self.new.starts.items self.new.pending.items ≤ work rows.now self.old.marks.items self.old.starts.items self.old.pending.items) }
    {
        match self.marks[target] {
            Mark::Unseen => {
                self.enter(target, rows[target].as_slice())?;
                Ok(())
            }
            Mark::Open(place) => {
                join(&mut self.starts, place);
                Ok(())
            }
            Mark::Labelled(_) => Ok(()),
        }
    }

    /// Goes on until the path is empty.
    fn explore(&mut self, rows: &[Seq<usize>]) -> Result<(), AllocError>
        requires sound { IsSound rows.now self.old.marks.items self.old.path.items self.old.starts.items self.old.pending.items self.old.labelled }
        requires targets { HasTargets rows.now }
        ensures sound { OnOk result (IsSound rows.now self.new.marks.items self.new.path.items self.new.starts.items self.new.pending.items self.new.labelled) }
        ensures seen { OnOk result (KeepsSeen self.old.marks.items self.new.marks.items) }
        ensures empty { OnOk result (self.new.starts.items ≡ []) }
    {
        while let Some(start) = self.starts.last().copied() {
            match next_target(&mut self.pending, start) {
                Some(target) => self.follow(rows, target)?,
                None => {
                    self.starts.pop();
                    shut(&mut self.marks, &mut self.path, start, self.labelled);
                    self.labelled += 1;
                }
            }
        }
        Ok(())
    }

    /// Closes the component of a node, and what it leads to.
    fn visit(&mut self, rows: &[Seq<usize>], root: usize) -> Result<(), AllocError>
        requires sound { IsSound rows.now self.old.marks.items self.old.path.items self.old.starts.items self.old.pending.items self.old.labelled }
        requires empty { self.old.starts.items ≡ [] }
        requires targets { HasTargets rows.now }
        requires within { root < length rows.now }
        ensures sound { OnOk result (IsSound rows.now self.new.marks.items self.new.path.items self.new.starts.items self.new.pending.items self.new.labelled) }
        ensures empty { OnOk result (self.new.starts.items ≡ []) }
        ensures seen { OnOk result (KeepsSeen self.old.marks.items self.new.marks.items) }
        ensures root { OnOk result (IsSeen (mark_of self.new.marks.items root)) }
    {
        if !is_unseen(self.marks[root]) {
            return Ok(());
        }
        self.enter(root, rows[root].as_slice())?;
        self.explore(rows)?;
        Ok(())
    }
}

fn is_unseen(mark: Mark) -> bool
    ensures { MatchBool result (mark ≡ Mark.Unseen) (IsSeen mark) }
{
    match mark {
        Mark::Unseen => true,
        _ => false,
    }
}

fn label_of(mark: Mark) -> usize
    ensures { result ≡ label_in mark }
{
    match mark {
        Mark::Labelled(label) => label,
        _ => 0,
    }
}

/// The numbers in the marks.
fn labels_in(alloc: Global, marks: &[Mark]) -> Result<Vec<usize>, AllocError>
    ensures { IfOk result (λ labels. labels.items ≡ map label_in marks.now) }
{
    marks.iter().map(|mark| label_of(*mark)).collect(alloc)
}

/// For each node the number of its strong component: nodes that reach each other have the same
/// one, and no edge leads to a greater one.
pub(crate) fn labels(
    alloc: Global,
    nodes: usize,
    edges: &[(usize, usize)],
) -> Result<Vec<usize>, AllocError>
    requires { IsWithin nodes edges.now }
    ensures { IfOk result (λ labels. AreLabels nodes edges.now labels.items) }
{
    let rows = successors(alloc, nodes, edges)?;
    let mut search = Search::new(alloc, nodes)?;
    for root in 0..nodes {
        search.visit(&rows, root)?;
    }
    labels_in(alloc, &search.marks)
}
