ghost use Rattle.std.specs.Prelude.{◌≡◌, ◌<◌, ℕ, [], replicate, IfOk, OnOk, None, vec_len, slice_index_or};
ghost use Rattle.hr_graph.specs.Graph.{IsWithin};
ghost use Rattle.hr_graph.specs.Levels.{AreSteps, Reached, steps_of};

use crate::rows::{reversed, successors};
use std::alloc::{AllocError, Global};

/// A search from the goal against the edges, level by level.
#[derive(Drop)]
pub(crate) struct Levels {
    /// The number of steps from each node to the goal, where it was reached.
    steps: Vec<Option<usize>>,
    /// The nodes that were reached, in that order, each with its steps.
    queue: Vec<(usize, usize)>,
}

impl Levels {
    fn new(alloc: Global, nodes: usize) -> Result<Levels, AllocError>
        ensures steps { IfOk result (λ levels. levels.steps.items ≡ replicate nodes None) }
        ensures queue { IfOk result (λ levels. levels.queue.items ≡ []) }
    {
        Ok(Levels {
            steps: vec![in alloc; None; nodes]?,
            queue: Vec::new(alloc),
        })
    }

    fn reach(&mut self, node: usize, count: usize) -> Result<(), AllocError>
        requires { node < vec_len self.old.steps }
        ensures { OnOk result (Reached (steps_of self.old.steps.items node) node count self.old.steps.items self.new.steps.items self.old.queue.items self.new.queue.items) }
    {
        match self.steps[node] {
            Some(_) => Ok(()),
            None => {
                self.queue.push((node, count))?;
                self.steps[node] = Some(count);
                Ok(())
            }
        }
    }
}

/// The least number of steps from each node to the goal, where there is a way.
pub(crate) fn distances(
    alloc: Global,
    nodes: usize,
    edges: &[(usize, usize)],
    goal: usize,
) -> Result<Vec<Option<usize>>, AllocError>
    requires within { IsWithin nodes edges.now }
    requires goal { goal < nodes }
    ensures { IfOk result (λ steps. AreSteps nodes edges.now goal steps.items) }
{
    let turned = reversed(alloc, edges)?;
    let rows = successors(alloc, nodes, &turned)?;
    let mut levels = Levels::new(alloc, nodes)?;
    levels.reach(goal, 0)?;
    let mut next = 0;
    while next < levels.queue.len() {
        let (node, count) = levels.queue[next];
        for before in rows[node].as_slice() {
            levels.reach(*before, count + 1)?;
        }
        next += 1;
    }
    Ok(levels.steps)
}
