//! Names without and with their qualifiers.
ghost use Rattle.std.specs.Prelude.{◌≡◌, ◌≤◌, IfOk, length};
ghost use Rattle.hr_rename.specs.Spelling.{dot_from, is_qualified, plain_class, plain_text, qualifier_len, respelled};

use hr_base::{Class, Lexeme, Text};
use hr_lexer::{LexError, lex};
use std::alloc::{AllocError, Global};

/// The class of a name without its qualifier; none for a lexeme that is no name.
pub fn plain_class(class: Class) -> Option<Class>
    ensures { result ≡ plain_class class }
{
    match class {
        Class::VarId => Some(Class::VarId),
        Class::ConId => Some(Class::ConId),
        Class::VarSym => Some(Class::VarSym),
        Class::ConSym => Some(Class::ConSym),
        Class::QVarId => Some(Class::VarId),
        Class::QConId => Some(Class::ConId),
        Class::QVarSym => Some(Class::VarSym),
        Class::QConSym => Some(Class::ConSym),
        _ => None,
    }
}

fn is_qualified(class: Class) -> bool
    ensures { result ≡ is_qualified class }
{
    match class {
        Class::QVarId => true,
        Class::QConId => true,
        Class::QVarSym => true,
        Class::QConSym => true,
        _ => false,
    }
}

/// The number of bytes up to the first dot, that among them; 0 where there is none.
fn dot_len(bytes: &[u8]) -> usize
    ensures { result ≡ dot_from 0 bytes.now }
{
    for (place, byte) in bytes.iter().enumerate() {
        if *byte == b'.' {
            return place + 1;
        }
    }
    0
}

/// The bytes of a name's qualifier and the dot behind it.
fn qualifier_len(lexeme: &Lexeme) -> usize
    ensures value { result ≡ qualifier_len lexeme.now }
    ensures within { result ≤ length lexeme.now.text }
{
    if is_qualified(lexeme.class) {
        let text = lexeme.text.as_slice();
        return dot_len(text).min(text.len());
    }
    0
}

/// A name's text without its qualifier.
pub fn plain_text(lexeme: &Lexeme) -> &[u8]
    ensures { result.now ≡ plain_text lexeme.now }
{
    lexeme.text.as_slice().split_at(qualifier_len(lexeme)).1
}

/// The name with another text behind its qualifier.
pub fn respelled(alloc: Global, lexeme: &Lexeme, new: &Text) -> Result<Lexeme, AllocError>
    ensures { IfOk result (λ name. name ≡ respelled lexeme.now new.now) }
{
    if is_qualified(lexeme.class) {
        let qualifier = lexeme.text.as_slice().split_at(qualifier_len(lexeme)).0;
        let mut bytes = Vec::from_slice(alloc, qualifier)?;
        bytes.extend_from_slice(new.as_slice())?;
        return Ok(Lexeme {
            class: lexeme.class,
            text: Text::from_vec(bytes)?,
        });
    }
    Ok(Lexeme {
        class: lexeme.class,
        text: new.clone()?,
    })
}

/// Whether the text is one lexeme of the class, and no minus.
pub fn is_lexeme_of(alloc: Global, text: &Text, class: Class) -> Result<bool, AllocError> {
    if text.is(b"-") {
        return Ok(false);
    }
    match lex(alloc, text.as_slice()) {
        Ok(items) => Ok(match items.list.as_slice() {
            [only] => only.lexeme.class == class && only.lexeme.text == *text,
            _ => false,
        }),
        Err(LexError::Memory(error)) => Err(error),
        Err(_) => Ok(false),
    }
}
