ghost use Rattle.std.specs.Prelude.{◌≡◌, IfOk};
ghost use Rattle.hr_rules.specs.Lexing.{joined};

use hr_base::{Items, Text};
use std::alloc::{AllocError, Global};

/// The bytes of the items, each with the blanks and comments before it, and of the tail.
pub fn join(alloc: Global, items: &Items) -> Result<Text, AllocError>
    ensures { IfOk result (λ text. text ≡ joined items.now.list items.now.tail) }
{
    let mut bytes = Vec::new(alloc);
    for item in items.list.as_slice() {
        bytes.extend_from_slice(item.trivia.as_slice())?;
        bytes.extend_from_slice(item.lexeme.text.as_slice())?;
    }
    bytes.extend_from_slice(items.tail.as_slice())?;
    Text::from_vec(bytes)
}
