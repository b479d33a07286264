//! The project that a rename is asked of.
ghost use Rattle.std.specs.Prelude.{◌≡◌, IfSome};
ghost use Rattle.std.specs.Option.{option_copied};
ghost use Rattle.hr_step.specs.Names.{binder_at};
ghost use Rattle.hr_rename.specs.Named.{IsModule, name_of};

use hr_base::{Binder, Spot, Text};
use hr_step::binder_at;
use hr_tables::Bindings;
use hr_tree::Module;

/// The modules of the files, of which there are so many, and behind them Prelude and Char; with what each name is
/// bound to.
#[derive(Clone, Copy)]
pub struct Scene<'a> {
    pub modules: &'a [Module],
    pub files: usize,
    pub bindings: &'a Bindings,
}

impl<'a> Scene<'a> {
    /// The module of the name among those of the files, and its number.
    pub fn module_named(&self, name: &Text) -> Option<(usize, &'a Module)>
        ensures { IfSome result (λ found. IsModule self.now.files self.now.modules.now name.now found.0 found.1.now) }
    {
        for (number, tree) in self.modules.iter().enumerate() {
            if number >= self.files {
                return None;
            }
            if name.is(name_of(tree)) {
                return Some((number, tree));
            }
        }
        None
    }

    /// What the lexeme is bound to.
    pub fn binder_of(&self, spot: Spot) -> Option<&'a Binder>
        ensures { option_copied result ≡ binder_at self.now.bindings.now.modules spot }
    {
        binder_at(self.bindings, spot)
    }
}

/// The name of the module. One without a header is Main.
fn name_of(tree: &Module) -> &[u8]
    ensures { result.now ≡ name_of tree.now }
{
    match &tree.header {
        Some(header) => header.name.lexeme.text.as_slice(),
        None => b"Main",
    }
}
