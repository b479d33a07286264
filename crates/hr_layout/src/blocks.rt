//! The blocks that are open.
ghost use Rattle.std.specs.Prelude.{◌≡◌, ◌∷◌, [], drop, OnOk, OnErr};
ghost use Rattle.hr_rules.specs.Blocks.{blocks_behind, enclosing};
ghost use Rattle.hr_layout.specs.Innermost.{innermost};

use hr_rules::{OpenBlock, Role};
use smallvec::SmallVec;
use std::alloc::{AllocError, Global};
use std::marker::Model;

/// The blocks that are open, which contracts see as their list, the innermost one first.
#[derive(Drop)]
pub(crate) struct Blocks {
    outermost_first: SmallVec<OpenBlock, 8>,
}

impl Model for Blocks {
    ghost use Rattle.std.specs.Prelude.{List, reverse};
    ghost use Rattle.hr_rules.specs.declared.block.OpenBlock.{OpenBlock};

    ghost Value = { List OpenBlock };

    ghost view = { λ b. reverse b.outermost_first.items };
}

impl Blocks {
    pub(crate) fn new(alloc: Global) -> Blocks
        ensures { result ≡ [] }
    {
        Blocks {
            outermost_first: SmallVec::new(alloc),
        }
    }

    /// A block opens inside the innermost one.
    pub(crate) fn push(&mut self, block: OpenBlock) -> Result<(), AllocError>
        ensures pushed { OnOk result (self.new ≡ block ∷ self.old) }
        ensures refused { OnErr result (self.new ≡ self.old) }
    {
        self.outermost_first.push(block)?;
        Ok(())
    }

    /// The innermost block is left, if there is one.
    pub(crate) fn leave(&mut self)
        ensures { self.new ≡ drop 1 self.old }
    {
        self.outermost_first.pop();
    }

    pub(crate) fn innermost(&self) -> Option<OpenBlock>
        ensures { result ≡ innermost self.now }
    {
        self.outermost_first.as_slice().last().copied()
    }

    /// The column of the enclosing implicit block, or 0 where there is none or a brace is nearer.
    pub(crate) fn enclosing(&self) -> u32
        ensures { result ≡ enclosing self.now }
    {
        match self.innermost() {
            None => 0,
            Some(OpenBlock::Implicit { col, .. }) => col,
            Some(OpenBlock::Explicit) => 0,
        }
    }

    /// A lexeme is taken: a closing brace leaves the innermost block if that one has braces.
    pub(crate) fn take(&mut self, role: Role)
        ensures { self.new ≡ blocks_behind role self.old }
    {
        if let Role::CloseBrace = role {
            if let Some(OpenBlock::Explicit) = self.innermost() {
                self.leave();
            }
        }
    }
}
