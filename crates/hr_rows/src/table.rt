use crate::fields_of;
use std::alloc::{AllocError, Global};
use std::io;

/// Answers each case of the standard input by `answer`, which is given the case's fields, and writes the line
/// with its answer; a line whose fields are not in the notation is answered by `no case`.
pub fn answer_all<R, F>(rt: &R, alloc: Global, mut answer: F) -> io::Result<()>
where
    R: Input + Print,
    F: FnMut(Global, &[Vec<u8>]) -> Result<String, AllocError>,
    requires { F.IsAlwaysCallable answer }
{
    for line in rt.lines(alloc) {
        let line = line?;
        if line.is_empty() || line.as_str().starts_with('#') {
            println!(rt; "{line}")?;
            continue;
        }
        match fields_of(alloc, line.as_str())? {
            Some(fields) => {
                let said = answer(alloc, fields.as_slice())?;
                println!(rt; "{line} => {said}")?;
            }
            None => println!(rt; "{line} => no case")?,
        }
    }
    Ok(())
}
