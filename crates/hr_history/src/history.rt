ghost use Rattle.std.specs.Prelude.{◌≡◌, ◌+◌, ◌-◌, ◌≤◌, ℕ, List, [], ◌∷◌, ◌++◌, length, IfOk, MatchOption, OnOk, vec_capacity, vec_len};
ghost use Rattle.hr_history.specs.Held.{spare, values};

use std::alloc::{AllocError, Global};
use std::marker::Model;

/// What was held before each step that can be taken back, the last one last.
#[derive(Drop)]
pub struct History<P> {
    held: Vec<P>,
}

impl<P> Model for History<P> {
    ghost Value = { List P × ℕ };

    ghost view = { λ h. (h.held.items, vec_capacity h.held - vec_len h.held) };
}

impl<P> History<P> {
    /// Nothing is held, and there is room for one.
    pub fn new(alloc: Global) -> Result<History<P>, AllocError>
        ensures values { IfOk result (λ history. values history ≡ []) }
        ensures spare { IfOk result (λ history. 1 ≤ spare history) }
    {
        let held = Vec::with_capacity(alloc, 1)?;
        Ok(History { held })
    }

    /// Makes room for one more.
    pub fn reserve(&mut self) -> Result<(), AllocError>
        ensures values { values self.new ≡ values self.old }
        ensures spare { OnOk result (1 ≤ spare self.new) }
    {
        self.held.reserve(1)
    }

    /// Holds one more, for which there is room.
    pub fn push(&mut self, project: P)
        requires { 1 ≤ spare self.old }
        ensures values { values self.new ≡ values self.old ++ project ∷ [] }
        ensures spare { spare self.new + 1 ≡ spare self.old }
    {
        self.held.push_reserved(project);
    }

    /// Gives the last one back; none where nothing is held. There is room for one more than before.
    pub fn undo(&mut self) -> Option<P>
        ensures last { MatchOption result ((values self.old ≡ []) × (values self.new ≡ [])) (λ last. values self.old ≡ values self.new ++ last ∷ []) }
        ensures spare { MatchOption result (spare self.new ≡ spare self.old) (λ _. spare self.new ≡ spare self.old + 1) }
    {
        self.held.pop()
    }

    /// How many are held.
    pub fn len(&self) -> usize
        ensures { result ≡ length (values self.now) }
    {
        self.held.len()
    }
}
