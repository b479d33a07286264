//! A walk over a tree, from left to right.
ghost use Rattle.std.specs.Prelude.{◌≡◌, OnOk};
ghost use Rattle.hr_base.specs.declared.lexeme.Item.{Item};

mod declarations;
mod expressions;
mod modules;
mod names;
mod patterns;
mod types;

use hr_base::Item;
pub use modules::walk_module;

/// What is done with the items of a tree, one after another from left to right.
pub trait Visitor {
    /// Why it may stop.
    type Fault: Drop;

    ghost behind: { Self → Item → Self };

    fn visit(&mut self, item: &Item) -> Result<(), Self::Fault>
        ensures { OnOk result (self.new ≡ behind self.old item.now) };
}
