ghost use Rattle.std.specs.Prelude.{◌<◌, length, All, IsTrue};

use crate::edges::push_fan;
use crate::notation::{fan_of, words};
use crate::shown::Shown;
use hr_base::{Place, Pos, Text};
use hr_graph::{GraphError, ImportEdge, order};
use std::alloc::{AllocError, Global};

/// The order of the modules, or why they have none; none where the fields are no case.
pub fn answer(alloc: Global, names: &[u8], imports: &[u8]) -> Result<Option<String>, AllocError> {
    let Some(names) = names_of(alloc, names)? else {
        return Ok(None);
    };
    let Some(imports) = imports_of(alloc, &names, imports)? else {
        return Ok(None);
    };
    if !begin_within(names.len(), &imports) {
        return Ok(None);
    }
    match order(alloc, &names, &imports) {
        Ok(list) => Ok(Some(Shown::of(alloc, &list)?)),
        Err(error) => Ok(Some(refusal(alloc, error)?)),
    }
}

/// The refusal with the names that it shows, and the number of the import that names no module.
fn refusal(alloc: Global, error: GraphError) -> Result<String, AllocError> {
    let mut shown = Shown::new(alloc);
    match error {
        GraphError::DuplicateModule { name } => {
            shown.add_word("duplicate")?;
            add_name(alloc, &mut shown, &name)?;
        }
        GraphError::NoModule { name, place } => {
            shown.add_word("unknown")?;
            add_name(alloc, &mut shown, &name)?;
            shown.add(place.pos.line as usize)?;
        }
        GraphError::ImportCycle { names } => {
            shown.add_word("cycle")?;
            for name in names.as_slice() {
                add_name(alloc, &mut shown, name)?;
            }
        }
        GraphError::Memory(error) => return Err(error),
    }
    shown.into_line()
}

fn add_name(alloc: Global, shown: &mut Shown, name: &Text) -> Result<(), AllocError> {
    let word = String::from_utf8_lossy(alloc, name.as_slice())?;
    shown.add_word(&word)
}

/// The names of a field: words, or so many names of two letters.
fn names_of(alloc: Global, field: &[u8]) -> Result<Option<Vec<Text>>, AllocError> {
    let mut names = Vec::new(alloc);
    let Some(words) = words(field) else {
        return Ok(None);
    };
    for word in words {
        if let Ok(count) = word.parse::<u32>() {
            for number in 0..count {
                names.push(two_letters(alloc, number)?)?;
            }
        } else if !word.is_empty() {
            names.push(Text::from_slice(alloc, word.as_bytes())?)?;
        }
    }
    Ok(Some(names))
}

/// The name of a module by its number, as two letters.
fn two_letters(alloc: Global, number: u32) -> Result<Text, AllocError> {
    let letters = [b'A' + (number / 16 % 16) as u8, b'A' + (number % 16) as u8];
    Text::from_slice(alloc, &letters)
}

/// The imports of a field, each in the line of its number from 0.
fn imports_of(
    alloc: Global,
    names: &[Text],
    field: &[u8],
) -> Result<Option<Vec<ImportEdge>>, AllocError> {
    let mut imports = Vec::new(alloc);
    let Some(words) = words(field) else {
        return Ok(None);
    };
    for word in words {
        if let Some(fan) = fan_of(word) {
            let mut edges = Vec::new(alloc);
            push_fan(&mut edges, names.len(), fan)?;
            for (from, to) in &edges {
                if let Some(name) = names.get(*to) {
                    push_import(alloc, &mut imports, *from, name.as_slice())?;
                }
            }
        } else if let Some((from, name)) = word.split_once(':')
            && let Ok(from) = from.parse()
        {
            push_import(alloc, &mut imports, from, name.as_bytes())?;
        } else if !word.is_empty() {
            return Ok(None);
        }
    }
    Ok(Some(imports))
}

fn push_import(
    alloc: Global,
    imports: &mut Vec<ImportEdge>,
    from: usize,
    to: &[u8],
) -> Result<(), AllocError> {
    let line = u32::try_from(imports.len()).unwrap_or(u32::MAX);
    imports.push(ImportEdge {
        from,
        to: Text::from_slice(alloc, to)?,
        place: Place {
            module: Text::from_slice(alloc, b"M")?,
            pos: Pos { line, col: 8 },
        },
    })?;
    Ok(())
}

/// Whether each import is one of the modules', as `order` requires.
fn begin_within(names: usize, imports: &[ImportEdge]) -> bool
    ensures { IsTrue result → All (λ one. one.from < names) imports.now }
{
    for one in imports {
        if one.from >= names {
            return false;
        }
    }
    true
}
