//! How deep trees nest.
ghost use Rattle.std.specs.Prelude.{◌+◌, ◌≤◌, OnOk};

use crate::{Held, Stop};

/// The greatest nesting of a node.
pub const LIMIT: u32 = 256;

/// A tree, and the number of levels of nodes that it has.
#[derive(Drop)]
pub struct Measured<T: Drop> {
    pub tree: Held<T>,
    pub height: u32,
}

/// Refused where `height` levels of nodes don't fit below a node with this nesting.
pub fn nest(depth: u32, height: u32) -> Result<(), Stop>
    ensures { OnOk result (depth + height ≤ 256) }
{
    if depth <= LIMIT && height <= LIMIT - depth {
        Ok(())
    } else {
        Err(Stop::TooDeep)
    }
}
