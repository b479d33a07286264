ghost use Rattle.std.specs.Prelude.{◌≡◌, ◌+◌, ◌<◌, OnErr, OnOk};

use std::alloc::AllocError;

/// How often an entity may be brought by a list, an import or an export in all, new or not. A million bytes of imports
/// could bring ten thousand million; such modules are want of memory.
pub(crate) const STEPS: usize = 8_388_608;

/// How often an entity may still be brought.
#[derive(Drop)]
pub(crate) struct Budget {
    left: usize,
}

impl Budget {
    pub(crate) fn new() -> Budget {
        Budget { left: STEPS }
    }

    /// Takes so many steps, if they are left.
    pub(crate) fn spend(&mut self, steps: usize) -> Result<(), AllocError>
        ensures taken { OnOk result (self.new.left + steps ≡ self.old.left) }
        ensures lacking { OnErr result (self.old.left < steps) }
    {
        match self.left.checked_sub(steps) {
            Some(left) => {
                self.left = left;
                Ok(())
            }
            None => Err(AllocError),
        }
    }
}
