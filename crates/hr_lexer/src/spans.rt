//! Where the items of a text stand, and the items that stand there.
ghost use Rattle.std.specs.Prelude.{◌≡◌, ◌++◌, ◌∷◌, [], IfOk};
ghost use Rattle.std.specs.Str.{encode_utf8_all};
ghost use Rattle.hr_lexer.specs.Spans.{past_spans, items_at, AreWithin, EndsWith};

use crate::source::{Source, split};
use crate::taken::Taken;
use hr_base::{Class, Item, Items, Lexeme, Seq, Text};
use std::alloc::{AllocError, Global};

/// How many characters of blanks and comments an item has, and its lexeme.
#[derive(Clone, Copy, Debug, PartialEq, Eq)]
pub struct Span {
    pub trivia: usize,
    pub taken: Taken,
}

/// The items at the spans, which stand one behind the other, and what is behind them as the tail.
pub fn items_at(alloc: Global, source: Source, spans: &[Span]) -> Result<Items, AllocError>
    requires spelled { source.bytes.now ≡ encode_utf8_all source.characters.now }
    requires within { AreWithin spans.now source.characters.now }
    ensures list { IfOk result (λ items. items.list ≡ items_at spans.now source.entry.characters.now) }
    ensures tail { IfOk result (λ items. items.tail ≡ encode_utf8_all (past_spans spans.now source.entry.characters.now)) }
{
    let whole = Text::from_slice(alloc, source.bytes)?;
    items_of(alloc, &whole, source, spans)
}

/// The same, as parts of the whole text, of which the source is left.
fn items_of(
    alloc: Global,
    whole: &Text,
    source: Source,
    spans: &[Span],
) -> Result<Items, AllocError>
    requires spelled { source.bytes.now ≡ encode_utf8_all source.characters.now }
    requires within { AreWithin spans.now source.characters.now }
    requires ends { EndsWith whole.now source.bytes.now }
    ensures list { IfOk result (λ items. items.list ≡ items_at spans.now source.entry.characters.now) }
    ensures tail { IfOk result (λ items. items.tail ≡ encode_utf8_all (past_spans spans.now source.entry.characters.now)) }
{
    let mut list = Vec::with_capacity(alloc, spans.len())?;
    let mut left = source;
    for span in spans {
        let (trivia, rest) = split(left, span.trivia);
        let (text, behind) = split(rest, span.taken.len);
        let trivia = shared(whole, trivia, rest.bytes)?;
        let text = shared(whole, text, behind.bytes)?;
        push_item(&mut list, trivia, span.taken.class, text)?;
        left = behind;
    }
    Ok(Items {
        list: Seq { list },
        tail: shared(whole, left.bytes, b"")?,
    })
}

/// The bytes, with only these behind them in the whole text, as a part of it.
fn shared(whole: &Text, bytes: &[u8], behind: &[u8]) -> Result<Text, AllocError>
    requires { EndsWith whole.now (bytes.now ++ behind.now) }
    ensures { IfOk result (λ text. text ≡ bytes.now) }
{
    let end = whole.len() - behind.len();
    whole.part(end - bytes.len(), end)
}

/// Puts an item behind the others.
fn push_item(list: &mut Vec<Item>, trivia: Text, class: Class, text: Text) -> Result<(), AllocError>
    ensures { IfOk result (λ u. list.new.items ≡ list.old.items ++ (record { trivia = trivia; lexeme = record { class = class; text = text } } ∷ [])) }
{
    let lexeme = Lexeme { class, text };
    list.push(Item { trivia, lexeme })?;
    Ok(())
}
