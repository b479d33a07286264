//! Texts that are one lexeme, and lexemes that stand side by side.
ghost use Rattle.std.specs.Prelude.{◌≡◌, IfOk};
ghost use Rattle.hr_base.specs.declared.lexeme.Class.{Class};
ghost use Rattle.hr_lexer.specs.Words.{AreApart, AreLexemes, HasItems, IsVarId, IsOneVarId, Tells};

use crate::LexError;
use crate::lexing::items;
use hr_base::{Class, Item, Items, Lexeme};
use std::alloc::{AllocError, Global};

/// Whether the text is a variable identifier.
pub fn is_varid(alloc: Global, text: &[u8]) -> Result<bool, AllocError>
    ensures { IfOk result (λ is. Tells is (IsVarId text.now)) }
{
    match items_if_any(alloc, text)? {
        Some(items) => Ok(is_word(items.list.as_slice(), text)),
        None => Ok(false),
    }
}

/// Whether the two texts, one directly behind the other, are read as two lexemes, the first text and
/// the second.
pub fn are_apart(alloc: Global, before: &[u8], text: &[u8]) -> Result<bool, AllocError>
    ensures { IfOk result (λ are. Tells are (AreApart before.now text.now)) }
{
    let mut both = Vec::from_slice(alloc, before)?;
    both.extend_from_slice(text)?;
    match items_if_any(alloc, both.as_slice())? {
        Some(items) => Ok(are_lexemes(items.list.as_slice(), before, text)),
        None => Ok(false),
    }
}

/// The items of a text, where it has any.
fn items_if_any(alloc: Global, text: &[u8]) -> Result<Option<Items>, AllocError>
    ensures { IfOk result (λ found. HasItems text.now found) }
{
    match items(alloc, text) {
        Ok(items) => Ok(Some(items)),
        Err(error) => match error {
            LexError::Memory(error) => Err(error),
            _ => Ok(None),
        },
    }
}

/// Whether the items are one variable identifier of this text.
fn is_word(items: &[Item], text: &[u8]) -> bool
    ensures { Tells result (IsOneVarId items.now text.now) }
{
    match items {
        [only] => is_varid_of(&only.lexeme, text),
        _ => false,
    }
}

/// Whether the lexeme is a variable identifier of this text.
fn is_varid_of(lexeme: &Lexeme, text: &[u8]) -> bool
    ensures { Tells result ((lexeme.now.class ≡ Class.VarId) × (lexeme.now.text ≡ text.now)) }
{
    if lexeme.class != Class::VarId {
        return false;
    }
    lexeme.text.is(text)
}

/// Whether the items are two lexemes of these texts.
fn are_lexemes(items: &[Item], before: &[u8], text: &[u8]) -> bool
    ensures { Tells result (AreLexemes items.now before.now text.now) }
{
    match items {
        [first, second] => first.lexeme.text.is(before) && second.lexeme.text.is(text),
        _ => false,
    }
}

#[cfg(test)]
mod tests {
    use crate::{are_apart, is_varid};
    use std::test::Fail;

    #[test]
    fn a_varid_is_one_lexeme_of_its_class(rt: HostRuntime) -> Result<(), Fail> {
        for (text, expected) in [
            (b"x".as_slice(), true),
            (b"a'b_0", true),
            (b"_x", true),
            (b"\xC3\xA9t\xC3\xA9", true),
            (b"", false),
            (b"_", false),
            (b"of", false),
            (b"X", false),
            (b"F.x", false),
            (b"x y", false),
            (b" x", false),
            (b"x ", false),
            (b"\xEF\xBB\xBFx", false),
            (b"x\xFF", false),
            (b"x\x00", false),
        ] {
            assert_eq!(rt; is_varid(rt.alloc(), text)?, expected);
        }
        Ok(())
    }

    #[test]
    fn texts_are_apart_where_each_is_read(rt: HostRuntime) -> Result<(), Fail> {
        for (before, text, expected) in [
            (b"x".as_slice(), b"+".as_slice(), true),
            (b"(", b"x", true),
            (b"F", b"+", true),
            (b"1", b"x", true),
            (b"x", b"y", false),
            (b"F", b".", true),
            (b"F.", b"x", false),
            (b"-", b"-", false),
            (b"{", b"-", false),
            (b"x", b"", false),
            (b"x", b" y", false),
            (b"1.0", b"e5", false),
        ] {
            assert_eq!(rt; are_apart(rt.alloc(), before, text)?, expected);
        }
        Ok(())
    }
}
