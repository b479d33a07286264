ghost use Rattle.std.specs.Prelude.{◌≡◌, IfOk, is_some};
ghost use Rattle.hr_scope_rules.specs.Imports.{alias_of};

use hr_base::Text;
use hr_tree::{Decl, Import, ImportNames, Module, Piece};
use std::alloc::{AllocError, Global};

/// An import: the module, the qualifier under which its names come, whether they come under it alone, and the
/// list.
#[derive(Drop)]
pub(crate) struct Access<'a> {
    pub(crate) origin: Text,
    pub(crate) qualifier: Text,
    pub(crate) qualified: bool,
    pub(crate) names: Option<&'a ImportNames>,
}

/// The imports of the module of that name. Prelude is imported whole where no import names it.
pub(crate) fn accesses<'a>(
    alloc: Global,
    name: &Text,
    tree: &'a Module,
) -> Result<Vec<Access<'a>>, AllocError> {
    let mut accesses = Vec::new(alloc);
    let mut implicit = !name.is(b"Prelude");
    for piece in tree.body.pieces.as_slice() {
        if let Piece::Part(Decl::Import(import)) = piece {
            implicit = implicit && !import.module.lexeme.text.is(b"Prelude");
            accesses.push(access_of(import)?)?;
        }
    }
    if implicit {
        accesses.push(whole_prelude(alloc)?)?;
    }
    Ok(accesses)
}

/// What an import says: `as Q` gives the qualifier in place of the module's name.
fn access_of(import: &Import) -> Result<Access<'_>, AllocError>
    ensures origin { IfOk result (λ access. access.origin ≡ import.now.«module».lexeme.text) }
    ensures qualifier { IfOk result (λ access. access.qualifier ≡ alias_of import.now.«module».lexeme.text import.now.alias) }
    ensures qualified { IfOk result (λ access. access.qualified ≡ is_some import.now.qualified) }
{
    let origin = &import.module.lexeme.text;
    let qualifier = match &import.alias {
        Some(alias) => alias.name.lexeme.text.clone()?,
        None => origin.clone()?,
    };
    Ok(Access {
        origin: origin.clone()?,
        qualifier,
        qualified: import.qualified.is_some(),
        names: import.names.as_ref(),
    })
}

fn whole_prelude<'a>(alloc: Global) -> Result<Access<'a>, AllocError> {
    let origin = Text::from_slice(alloc, b"Prelude")?;
    Ok(Access {
        qualifier: origin.clone()?,
        origin,
        qualified: false,
        names: None,
    })
}
