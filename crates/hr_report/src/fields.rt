ghost use Rattle.std.specs.Prelude.{◌≡◌, ◌∷◌, ◌++◌, OnOk, map};
ghost use Rattle.std.specs.List.{join_with_byte};

use hr_base::Text;
use std::alloc::AllocError;

/// Puts a first field and these at the end, with a blank between.
pub fn add_fields(bytes: &mut Vec<u8>, first: &[u8], fields: &[&[u8]]) -> Result<(), AllocError>
    ensures { OnOk result (bytes.new.items ≡ bytes.old.items ++ join_with_byte 32 (first.now ∷ map (λ field. field.now) fields.now)) }
{
    bytes.extend_from_slice(first)?;
    for field in fields {
        bytes.push(b' ')?;
        bytes.extend_from_slice(field)?;
    }
    Ok(())
}

/// Puts a first field and these at the end, with a blank between.
pub fn add_texts(bytes: &mut Vec<u8>, first: &[u8], texts: &[Text]) -> Result<(), AllocError>
    ensures { OnOk result (bytes.new.items ≡ bytes.old.items ++ join_with_byte 32 (first.now ∷ texts.now)) }
{
    bytes.extend_from_slice(first)?;
    for text in texts {
        bytes.push(b' ')?;
        bytes.extend_from_slice(text.as_slice())?;
    }
    Ok(())
}
