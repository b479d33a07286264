use hr_gen::Generated;
use hr_rows::escaped;
use hr_script::write_script;
use std::alloc::{AllocError, Global};

/// How many texts and how many commands there are.
pub fn counts(alloc: Global, made: &Generated) -> Result<String, AllocError> {
    let (texts, commands) = (made.texts.len(), made.commands.len());
    format!(in alloc; "{texts} {commands}")
}

/// The texts' lengths.
pub fn lengths(alloc: Global, made: &Generated) -> Result<String, AllocError> {
    let mut shown = String::new(alloc);
    for text in made.texts.as_slice() {
        if !shown.is_empty() {
            shown.push(' ')?;
        }
        shown.push_str(format!(in alloc; "{}", text.len())?.as_str())?;
    }
    Ok(shown)
}

/// The commands as a script.
pub fn script(alloc: Global, made: &Generated) -> Result<String, AllocError> {
    let bytes = write_script(alloc, made.commands.as_slice())?;
    escaped(alloc, bytes.as_slice())
}

/// The text of this number.
pub fn text(alloc: Global, made: &Generated, number: Option<u32>) -> Result<String, AllocError> {
    escaped(alloc, bytes_of(made, number))
}

/// The line of this number, from 1, of the text of that one.
pub fn line(
    alloc: Global,
    made: &Generated,
    text: Option<u32>,
    number: Option<u32>,
) -> Result<String, AllocError> {
    let mut left = number.unwrap_or(0);
    for line in bytes_of(made, text).split(|byte| *byte == b'\n') {
        left = left.saturating_sub(1);
        if left == 0 {
            return escaped(alloc, line);
        }
    }
    String::from_str(alloc, "no line")
}

fn bytes_of(made: &Generated, number: Option<u32>) -> &[u8] {
    match number {
        Some(number) => match made.texts.as_slice().get(number as usize) {
            Some(text) => text.as_slice(),
            None => b"",
        },
        None => b"",
    }
}
