ghost use Rattle.std.specs.Prelude.{◌≡◌, length, IfOk, if◌then◌else◌};
ghost use Rattle.hr_plain.specs.Target.{IsParted, Respells, RespellsAll};

use hr_base::{Item, Items, Lexeme, Seq, Text};
use hr_lexer::are_apart;
use std::alloc::{AllocError, Global};

/// The items with the new text in place of that of each marked lexeme. A blank is put before it where
/// it would not be read apart from the lexeme before.
pub fn respelled(
    alloc: Global,
    items: &Items,
    marks: &[bool],
    new: &Text,
) -> Result<Items, AllocError>
    requires { length marks.now ≡ length items.now.list }
    ensures { IfOk result (RespellsAll new.now marks.now items.now) }
{
    let mut list = Vec::with_capacity(alloc, items.list.len())?;
    let mut before: &[u8] = b"";
    let olds = items.list.as_slice();
    for (place, item) in olds.iter().enumerate() {
        list.push(respelled_item(alloc, item, marks[place], before, new)?)?;
        before = text_of(item, marks[place], new);
    }
    Ok(Items {
        list: Seq { list },
        tail: Text::from_slice(alloc, items.tail.as_slice())?,
    })
}

/// The text of the item, which is the new one if it is marked.
fn text_of<'a>(item: &'a Item, marked: bool, new: &'a Text) -> &'a [u8]
    ensures { result.now ≡ (if marked then new.now else item.now.lexeme.text) }
{
    if marked {
        new.as_slice()
    } else {
        item.lexeme.text.as_slice()
    }
}

/// An item with the new text, if it is marked; `before` is the text of the lexeme before it.
fn respelled_item(
    alloc: Global,
    item: &Item,
    marked: bool,
    before: &[u8],
    new: &Text,
) -> Result<Item, AllocError>
    ensures { IfOk result (Respells new.now marked before.now item.now) }
{
    if !marked {
        return item.clone();
    }
    let trivia = parted(alloc, &item.trivia, before, new)?;
    let text = new.clone()?;
    Ok(Item {
        trivia,
        lexeme: Lexeme {
            class: item.lexeme.class,
            text,
        },
    })
}

/// What stands before the new text: what stood there, or one blank where nothing did and the two
/// lexemes would not be read apart.
fn parted(alloc: Global, trivia: &Text, before: &[u8], new: &Text) -> Result<Text, AllocError>
    ensures { IfOk result (IsParted new.now before.now trivia.now) }
{
    if trivia.is_empty() && !before.is_empty() && !are_apart(alloc, before, new.as_slice())? {
        Text::from_slice(alloc, b" ")
    } else {
        Text::from_slice(alloc, trivia.as_slice())
    }
}
