use crate::decoded;
use std::alloc::{AllocError, Global};

/// The fields of a case, each as the bytes that it stands for, or `None` where one is not in the notation.
pub fn fields_of(alloc: Global, line: &str) -> Result<Option<Vec<Vec<u8>>>, AllocError> {
    let mut fields = Vec::new(alloc);
    for field in line.split(";;") {
        match decoded(alloc, field.trim_matches(' ').as_bytes())? {
            Some(bytes) => fields.push(bytes)?,
            None => return Ok(None),
        }
    }
    Ok(Some(fields))
}
