ghost use Rattle.std.specs.Prelude.{◌≡◌, OnOk, IfOk, fold};
ghost use Rattle.hr_scope_rules.specs.Events.{after};
ghost use Rattle.hr_scope_rules.specs.Outline.{module_events, outline};
ghost use Rattle.hr_outline.specs.Seen.{seen};

use crate::Outline;
use crate::expressions::read_block;
use crate::lists::read_header;
use hr_tree::Module;
use std::alloc::{AllocError, Global};

/// The lexemes of the module with their roles, and the regions that are entered.
pub fn outline_of(alloc: Global, tree: &Module) -> Result<Outline<'_>, AllocError>
    ensures { IfOk result (λ outlined. seen outlined ≡ outline tree.now) }
{
    let mut out = Outline::new(alloc);
    read_module(tree, &mut out)?;
    Ok(out)
}

fn read_module<'a>(tree: &'a Module, out: &mut Outline<'a>) -> Result<(), AllocError>
    ensures { OnOk result (seen out.new ≡ fold after (seen out.old) (module_events tree.now)) }
{
    read_header(&tree.header, out)?;
    read_block(&tree.body, out)
}
