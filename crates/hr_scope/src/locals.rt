ghost use Rattle.std.specs.Prelude.{◌≡◌};
ghost use Rattle.hr_scope.specs.Declarers.{more_of};

use hr_base::{Space, Text};
use hr_outline::{Mark, Outline};
use hr_scope_rules::Role;
use indexmap::{IndexMap, IndexSet};
use std::alloc::{AllocError, Global};

/// A region by the lexeme with which its construct begins, and its number in the construct.
pub(crate) type Named = (usize, usize);

/// A name that a region declares.
type Declared = (Named, Space, Text);

/// The lexemes that declare a name: the first one, and the second one if there are more.
#[derive(Clone, Copy, Drop)]
pub(crate) struct Declarers {
    pub(crate) first: usize,
    pub(crate) second: Option<usize>,
}

/// The name of the region of that number.
pub(crate) fn region_name(outline: &Outline<'_>, number: usize) -> Option<Named> {
    let entered = outline.regions.get(number)?;
    Some((entered.at, entered.index))
}

/// What the regions and the top level of a module declare.
#[derive(Drop)]
pub(crate) struct Locals {
    declared: IndexMap<Declared, Declarers>,
    /// The names that are declared in some region.
    anywhere: IndexSet<(Space, Text)>,
    top: IndexSet<(Space, Text)>,
}

impl Locals {
    pub(crate) fn new(alloc: Global, outline: &Outline<'_>) -> Result<Locals, AllocError> {
        let mut locals = Locals {
            declared: IndexMap::new(alloc),
            anywhere: IndexSet::new(alloc),
            top: IndexSet::new(alloc),
        };
        for (number, mark) in outline.marks.iter().enumerate() {
            if let Role::Declares(space) = mark.role {
                locals.declare(outline, mark, space, number)?;
            }
        }
        Ok(locals)
    }

    /// The lexeme of that number declares a name of the space.
    fn declare(
        &mut self,
        outline: &Outline<'_>,
        mark: &Mark<'_>,
        space: Space,
        number: usize,
    ) -> Result<(), AllocError> {
        let text = &mark.item.lexeme.text;
        let Some(region) = mark.region else {
            self.top.insert((space, text.clone()?))?;
            return Ok(());
        };
        if let Some(name) = region_name(outline, region) {
            self.anywhere.insert((space, text.clone()?))?;
            let declarers = more(self.in_region(name, space, text)?, number);
            self.declared
                .insert((name, space, text.clone()?), declarers)?;
        }
        Ok(())
    }

    /// The lexemes that declare the name in the region.
    pub(crate) fn in_region(
        &self,
        region: Named,
        space: Space,
        text: &Text,
    ) -> Result<Option<Declarers>, AllocError> {
        let key = (region, space, text.clone()?);
        Ok(self.declared.get(&key).copied())
    }

    /// The lexemes that declare the name in the innermost region round that one, and in itself.
    pub(crate) fn innermost(
        &self,
        outline: &Outline<'_>,
        region: Option<usize>,
        space: Space,
        text: &Text,
    ) -> Result<Option<Declarers>, AllocError> {
        if !self.anywhere.contains(&(space, text.clone()?)) {
            return Ok(None);
        }
        let mut region = region;
        for _ in 0..=outline.regions.len() {
            let Some(entered) = region.and_then(|number| outline.regions.get(number)) else {
                return Ok(None);
            };
            let declarers = self.in_region((entered.at, entered.index), space, text)?;
            if declarers.is_some() {
                return Ok(declarers);
            }
            region = entered.outer;
        }
        Ok(None)
    }

    /// Whether the module declares the name at top level.
    pub(crate) fn at_top(&self, space: Space, text: &Text) -> Result<bool, AllocError> {
        Ok(self.top.contains(&(space, text.clone()?)))
    }
}

/// The declarers, and one behind them.
fn more(declarers: Option<Declarers>, number: usize) -> Declarers
    ensures { result ≡ more_of declarers number }
{
    match declarers {
        None => Declarers {
            first: number,
            second: None,
        },
        Some(
            Declarers {
                first,
                second: None,
            },
        ) => Declarers {
            first,
            second: Some(number),
        },
        Some(both) => both,
    }
}
