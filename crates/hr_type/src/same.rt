ghost use Rattle.std.specs.Prelude.{◌≡◌, ◌↔◌, IfOk, IsTrue};

use crate::Mono;
use crate::parts::{have_same_head, push_parts};
use std::alloc::{AllocError, Global};

impl Mono {
    /// Whether two types are one.
    pub fn is_same(&self, alloc: Global, other: &Mono) -> Result<bool, AllocError>
        ensures { IfOk result (λ yes. IsTrue yes ↔ (self.now ≡ other.now)) }
    {
        let mut lefts = Vec::new(alloc);
        let mut rights = Vec::new(alloc);
        lefts.push(self)?;
        rights.push(other)?;
        while let Some(left) = lefts.pop() {
            let Some(right) = rights.pop() else {
                return Ok(false);
            };
            if !have_same_head(left, right) {
                return Ok(false);
            }
            push_parts(left, &mut lefts)?;
            push_parts(right, &mut rights)?;
        }
        Ok(rights.is_empty())
    }
}
