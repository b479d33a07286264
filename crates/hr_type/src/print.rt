ghost use Rattle.std.specs.Prelude.{◌≡◌, IfOk, IsTrue, MatchOption, false};
ghost use Rattle.hr_type.specs.Spelling.{has_arities, is_spellable as spellable};
ghost use Rattle.hr_type.specs.Grammar.{Spells};

use crate::Mono;
use crate::spell::{TypeScope, is_spellable};
use crate::write::write_type;
use std::alloc::{AllocError, Global};

/// The text of a type in a scope, None where a constructor that is no syntax has no name there or
/// a variable no text. In the type `->` stands as a function type alone, and lists, tuples and ()
/// have their numbers of arguments.
pub fn print_in(alloc: Global, ty: &Mono, scope: &TypeScope) -> Result<Option<Vec<u8>>, AllocError>
    requires { IsTrue (has_arities ty.now) }
    ensures { IfOk result (λ printed. MatchOption printed
        (spellable scope.now ty.now ≡ false) (λ text. Spells scope.now ty.now text.items)) }
{
    let named = is_spellable(alloc, scope, ty)?;
    if !named {
        return Ok(None);
    }
    let mut text = Vec::new(alloc);
    write_type(alloc, scope, ty, &mut text)?;
    Ok(Some(text))
}
