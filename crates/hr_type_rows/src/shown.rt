use crate::notation::scope;
use hr_type::{Mono, has_arities, print_in, size_of_type};
use std::alloc::{AllocError, Global};

fn text_of(alloc: Global, bytes: &[u8]) -> Result<String, AllocError> {
    match str::from_utf8(bytes) {
        Ok(text) => String::from_str(alloc, text),
        Err(_) => String::from_str(alloc, "not UTF-8"),
    }
}

/// A text, or of one above 100 bytes the length, the first 20 bytes and the last 20.
pub fn shortened(alloc: Global, bytes: &[u8]) -> Result<String, AllocError> {
    let length = bytes.len();
    if length <= 100 {
        return text_of(alloc, bytes);
    }
    let first = text_of(alloc, &bytes[..20])?;
    let last = text_of(alloc, &bytes[length - 20..])?;
    Ok(format!(in alloc; "{length} bytes: {first} .. {last}")?)
}

/// A type in the scope of the rows; one without a text there by its size.
pub fn type_text(alloc: Global, ty: &Mono) -> Result<String, AllocError> {
    if has_arities(alloc, ty)? {
        if let Some(text) = print_in(alloc, ty, &scope(alloc)?)? {
            return shortened(alloc, text.as_slice());
        }
    }
    let size = size_of_type(alloc, ty)?;
    Ok(format!(in alloc; "a type of size {size}")?)
}
