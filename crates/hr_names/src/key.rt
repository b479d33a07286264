ghost use Rattle.std.specs.Prelude.{◌≡◌, IfOk, option_copied};

use hr_base::{Space, Text};
use std::alloc::AllocError;

/// A name of a space, under a qualifier or under none.
#[derive(Clone, Debug, Drop, PartialEq, Eq, Hash)]
pub struct Key {
    pub qualifier: Option<Text>,
    pub space: Space,
    pub text: Text,
}

pub fn key_of(qualifier: Option<&Text>, space: Space, text: &Text) -> Result<Key, AllocError>
    ensures qualifier { IfOk result (λ key. key.qualifier ≡ option_copied qualifier.entry) }
    ensures space { IfOk result (λ key. key.space ≡ space) }
    ensures text { IfOk result (λ key. key.text ≡ text.now) }
{
    let qualifier = match qualifier {
        Some(qualifier) => Some(qualifier.clone()?),
        None => None,
    };
    Ok(Key {
        qualifier,
        space,
        text: text.clone()?,
    })
}
