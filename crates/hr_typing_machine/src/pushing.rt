use std::alloc::AllocError;

/// Adds a value at the end.
pub fn push<T: Drop>(list: &mut Vec<T>, value: T) -> Result<(), AllocError> {
    list.push(value)?;
    Ok(())
}
