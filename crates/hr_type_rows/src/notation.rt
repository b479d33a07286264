use hr_base::{Entity, Name, Seq, Space, Text};
use hr_items::{Boxed, Items};
use hr_type::{Mono, TypeScope};
use std::alloc::{AllocError, Global};

/// The number that decimal digits stand for.
pub fn number_of(word: &[u8]) -> Option<u32> {
    match str::from_utf8(word) {
        Ok(digits) => digits.parse::<u32>().ok(),
        Err(_) => None,
    }
}

/// A type from its notation, or none where it isn't one type.
pub fn type_of(alloc: Global, text: &[u8]) -> Result<Option<Mono>, AllocError> {
    let mut types = Vec::new(alloc);
    for word in text.split(|byte| *byte == b' ') {
        if !word.is_empty() && !put(alloc, word, &mut types)? {
            return Ok(None);
        }
    }
    let last = types.pop();
    if types.is_empty() { Ok(last) } else { Ok(None) }
}

/// Takes the parts of a word's type from the stack and puts the type there; false where there is no
/// such type.
fn put(alloc: Global, word: &[u8], types: &mut Vec<Mono>) -> Result<bool, AllocError> {
    if let Some(variable) = number_of(word) {
        types.push(Mono::Var(variable))?;
        return Ok(true);
    }
    match word {
        b"->" => put_function(alloc, types),
        b"[]" => put_constructor(alloc, b"Prelude", word, 1, types),
        b"()" => put_constructor(alloc, b"Prelude", word, 0, types),
        b"(,)" => put_constructor(alloc, b"Prelude", word, 2, types),
        _ => put_named(alloc, word, types),
    }
}

fn put_function(alloc: Global, types: &mut Vec<Mono>) -> Result<bool, AllocError> {
    let Some(to) = types.pop() else {
        return Ok(false);
    };
    let Some(from) = types.pop() else {
        return Ok(false);
    };
    types.push(Mono::Fun(Boxed::new(alloc, from)?, Boxed::new(alloc, to)?))?;
    Ok(true)
}

/// `Name/3`.
fn put_named(alloc: Global, word: &[u8], types: &mut Vec<Mono>) -> Result<bool, AllocError> {
    let Some(slash) = word.iter().position(|byte| *byte == b'/') else {
        return Ok(false);
    };
    let (name, rest) = word.split_at(slash);
    match rest {
        [_, digits @ ..] => match number_of(digits) {
            Some(count) => put_constructor(alloc, b"M", name, count as usize, types),
            None => Ok(false),
        },
        [] => Ok(false),
    }
}

fn put_constructor(
    alloc: Global,
    module: &[u8],
    name: &[u8],
    count: usize,
    types: &mut Vec<Mono>,
) -> Result<bool, AllocError> {
    if types.len() < count {
        return Ok(false);
    }
    let arguments = types.split_off(types.len() - count)?;
    let constructor = entity(alloc, module, name)?;
    types.push(Mono::Con(constructor, Items::from_vec(arguments)))?;
    Ok(true)
}

fn entity(alloc: Global, module: &[u8], text: &[u8]) -> Result<Entity, AllocError> {
    Ok(Entity {
        module: Text::from_slice(alloc, module)?,
        space: Space::TypeName,
        text: Text::from_slice(alloc, text)?,
    })
}

fn name(
    alloc: Global,
    of: &[u8],
    qualifier: Option<Text>,
    text: &[u8],
) -> Result<(Entity, Name), AllocError> {
    let name = Name {
        qualifier,
        text: Text::from_slice(alloc, text)?,
    };
    Ok((entity(alloc, b"M", of)?, name))
}

/// Int, Maybe, and Tree as Q.Tree; the variables a, b and c.
pub fn scope(alloc: Global) -> Result<TypeScope, AllocError> {
    let qualifier = Text::from_slice(alloc, b"Q")?;
    let mut names = Vec::new(alloc);
    names.push(name(alloc, b"Int", None, b"Int")?)?;
    names.push(name(alloc, b"Maybe", None, b"Maybe")?)?;
    names.push(name(alloc, b"Tree", Some(qualifier), b"Tree")?)?;
    let mut variables = Vec::new(alloc);
    variables.push(Text::from_slice(alloc, b"a")?)?;
    variables.push(Text::from_slice(alloc, b"b")?)?;
    variables.push(Text::from_slice(alloc, b"c")?)?;
    Ok(TypeScope {
        names: Seq { list: names },
        variables: Seq { list: variables },
    })
}
