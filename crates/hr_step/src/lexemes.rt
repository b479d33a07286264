ghost use Rattle.std.specs.Prelude.{◌≡◌};
ghost use Rattle.hr_step.specs.Lexemes.{are_read};

use hr_base::Item;
use hr_draft::{Drafted, is_same_lexeme};

/// Whether the items that were read are the lexemes of the draft, in order.
pub fn are_lexemes_read(draft: &[Drafted], items: &[Item]) -> bool
    ensures { result ≡ are_read draft.now items.now }
{
    let mut left = items;
    for drafted in draft {
        let [item, rest @ ..] = left else {
            return false;
        };
        if !is_same_lexeme(&drafted.lexeme, &item.lexeme) {
            return false;
        }
        left = rest;
    }
    left.is_empty()
}
