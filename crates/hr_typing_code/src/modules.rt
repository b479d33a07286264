use crate::block::Block;
use crate::expressions::declarations;
use crate::groups::{Group, groups};
use hr_base::Binder;
use hr_tree::Module;
use hr_typing_walk::{Signed, Walk, Written, pass_header};
use std::alloc::{AllocError, Global};

/// What a module calls for: its top-level groups in order, the names that have signatures there, and what it says of
/// types.
#[derive(Drop)]
pub struct ModuleRules {
    pub groups: Vec<Group>,
    pub signed: Vec<Signed>,
    pub written: Vec<Written>,
}

/// The rules of a module whose names are bound to these entries, one for each lexeme.
pub fn module_rules(
    alloc: Global,
    module: &Module,
    entries: &[Option<Binder>],
) -> Result<ModuleRules, AllocError> {
    let mut walk = Walk::new(alloc, entries);
    if let Some(header) = &module.header {
        pass_header(header, &mut walk);
    }
    let mut block = Block::new(alloc);
    declarations(&module.body, &mut walk, &mut block);
    let written = walk.finish()?;
    let signed = block.signed.clone()?;
    let groups = groups(alloc, block, entries)?;
    Ok(ModuleRules {
        groups,
        signed,
        written,
    })
}
