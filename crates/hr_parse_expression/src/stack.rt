//! What waits, one in another.

use hr_parse_lexeme::Held;
use hr_parse_parts::Frame;
use std::alloc::{AllocError, Global};

/// Frames that wait.
#[derive(Drop)]
pub(crate) struct Stack {
    outermost_first: Vec<Held<Frame>>,
}

impl Stack {
    pub(crate) fn new(alloc: Global) -> Stack {
        Stack {
            outermost_first: Vec::new(alloc),
        }
    }

    pub(crate) fn push(&mut self, frame: Held<Frame>) -> Result<(), AllocError> {
        self.outermost_first.push(frame)?;
        Ok(())
    }

    pub(crate) fn pop(&mut self) -> Option<Held<Frame>> {
        self.outermost_first.pop()
    }
}
