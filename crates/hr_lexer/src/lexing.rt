//! The lexer's one call.
ghost use Rattle.std.specs.Prelude.{◌≡◌, ◌<◌, ◌≤◌, ◌++◌, true, length, IfErr, IfOk, IfSome};
ghost use Rattle.std.specs.Str.{all_scalars, encode_utf8_all};
ghost use Rattle.hr_rules.specs.Lexemes.{class_of, is_piece, bars, led_by, LexesText};
ghost use Rattle.hr_rules.specs.Lexing.{Lexes};
ghost use Rattle.hr_base.specs.Limits.{module_limit};
ghost use Rattle.hr_base.specs.declared.lexeme.Items.{Items};
ghost use Rattle.hr_lexer.specs.declared.error.LexError.{LexError};
ghost use Rattle.hr_lexer.specs.Refusals.{cause_of, IsCause, IsHalt, IsStop, OrMemory, GivesItems, Refuses};
ghost use Rattle.hr_lexer.specs.Marks.{mark_count};
ghost use Rattle.hr_lexer.specs.Spans.{past_spans, items_at, AreWithin};
ghost use Rattle.hr_lexer.specs.LexemeReader.{lexeme_at, special_at};

use crate::LexError;
use crate::comments::{opens, trivia_len};
use crate::names::{conid_at, symbols_at, word_at};
use crate::numbers::number_at;
use crate::quotes::{char_at_quote, string_at_quote};
use crate::source::{Source, split, utf8_len};
use crate::spans::{Span, items_at};
use crate::taken::Taken;
use hr_base::{Class, Items, MODULE_LIMIT, Text};
use hr_rules::{Kind, kind_of};
use std::alloc::{AllocError, Global};
use std::str;

/// The items of a text.
pub fn lex(alloc: Global, bytes: &[u8]) -> Result<Items, LexError>
    ensures read { IfOk result (λ items. LexesText bytes.now items) }
    ensures refused { IfErr result (OrMemory (IsCause bytes.now)) }
    ensures exact { (error : LexError) → IsCause bytes.now error → Refuses error result }
    ensures whole { (items : Items) → LexesText bytes.now items → length bytes.now ≤ module_limit → GivesItems items result }
{
    if bytes.len() > MODULE_LIMIT {
        return Err(LexError::TooLong);
    }
    items(alloc, bytes)
}

/// The items of a text of any length.
pub fn items(alloc: Global, bytes: &[u8]) -> Result<Items, LexError>
    ensures read { IfOk result (λ items. LexesText bytes.now items) }
    ensures refused { IfErr result (OrMemory (IsStop bytes.now)) }
{
    let text = match str::from_utf8(bytes) {
        Ok(text) => text,
        Err(error) => {
            return Err(LexError::BadUtf8 {
                place: error.valid_up_to(),
            });
        }
    };
    let characters = characters_of(alloc, text).map_err(LexError::Memory)?;
    let source = Source {
        characters: characters.as_slice(),
        bytes,
    };
    let (mark, rest) = split(source, mark_count(source.characters));
    let items = read_items(alloc, bytes.len(), rest)?;
    led_by(alloc, mark, items).map_err(LexError::Memory)
}

/// The characters of a text.
fn characters_of(alloc: Global, text: &str) -> Result<Vec<char>, AllocError>
    ensures { IfOk result (λ characters. text.now ≡ encode_utf8_all characters.items) }
{
    text.chars().collect(alloc)
}

/// 1 where a byte order mark begins the text, else 0.
fn mark_count(text: &[char]) -> usize
    ensures value { result ≡ mark_count text.now }
    ensures within { result ≤ length text.now }
{
    match text {
        ['\u{FEFF}', ..] => 1,
        _ => 0,
    }
}

/// The items with these bytes put in front of the first trivia, or of the tail.
fn led_by(alloc: Global, mark: &[u8], mut items: Items) -> Result<Items, AllocError>
    ensures { IfOk result (λ led. led ≡ led_by mark.now items.list items.tail) }
{
    match items.list.list.first_mut() {
        Some(first) => first.trivia = with_front(alloc, mark, &first.trivia)?,
        None => items.tail = with_front(alloc, mark, &items.tail)?,
    }
    Ok(items)
}

fn with_front(alloc: Global, front: &[u8], text: &Text) -> Result<Text, AllocError>
    ensures { IfOk result (λ whole. whole ≡ front.now ++ text.now) }
{
    let mut bytes = Vec::from_slice(alloc, front)?;
    bytes.extend_from_slice(text.as_slice())?;
    Text::from_vec(bytes)
}

/// The items of what is left of a text of this many bytes. Only a text that has items takes memory
/// for each of them.
fn read_items(alloc: Global, len: usize, source: Source) -> Result<Items, LexError>
    requires spelled { source.bytes.now ≡ encode_utf8_all source.characters.now }
    requires scalars { all_scalars source.characters.now ≡ true }
    requires len { length source.bytes.now ≤ len }
    ensures read { IfOk result (λ items. Lexes class_of is_piece bars source.entry.bytes.now items.list items.tail) }
    ensures refused { IfErr result (λ error. IsHalt len source.entry.bytes.now error) }
{
    let spans = spans(alloc, len, source.characters)?;
    items_at(alloc, source, spans.as_slice()).map_err(LexError::Memory)
}

/// Where the items of the characters stand, with which a text of this many bytes ends.
fn spans(alloc: Global, len: usize, characters: &[char]) -> Result<Vec<Span>, LexError>
    requires scalars { all_scalars characters.now ≡ true }
    requires len { length (encode_utf8_all characters.now) ≤ len }
    ensures read { IfOk result (λ spans. Lexes class_of is_piece bars (encode_utf8_all characters.now) (items_at spans.items characters.now) (encode_utf8_all (past_spans spans.items characters.now))) }
    ensures within { IfOk result (λ spans. AreWithin spans.items characters.now) }
    ensures refused { IfErr result (λ error. IsHalt len (encode_utf8_all characters.now) error) }
{
    // Haskell has some four bytes a lexeme, and seldom fewer.
    let mut spans = Vec::with_capacity(alloc, len / 4).map_err(LexError::Memory)?;
    let mut left = characters;
    loop {
        let trivia = trivia_len(left);
        let (_, rest) = left.split_at(trivia);
        if rest.is_empty() {
            return Ok(spans);
        }
        let Some(taken) = lexeme_at(rest) else {
            return Err(cause_at(rest, len - utf8_len(rest)));
        };
        spans
            .push(Span { trivia, taken })
            .map_err(|failed| LexError::Memory(failed.into()))?;
        (_, left) = rest.split_at(taken.len);
    }
}

/// The lexeme that begins the text, if one does.
fn lexeme_at(text: &[char]) -> Option<Taken>
    ensures value { result ≡ lexeme_at text.now }
    ensures within { IfSome result (λ taken. taken.len ≤ length text.now) }
    ensures some { IfSome result (λ taken. 0 < taken.len) }
{
    let (first, rest) = text.split_first()?;
    match kind_of(*first) {
        Kind::Small => Some(word_at(text)),
        Kind::Large => conid_at(text),
        Kind::Symbol => symbols_at(text),
        Kind::Special => special_at(*first, rest),
        Kind::Digit => number_at(text),
        Kind::Quote => char_at_quote(rest),
        Kind::DoubleQuote => string_at_quote(rest),
        _ => None,
    }
}

/// A bracket, comma, semicolon or backquote, unless a nested comment begins.
fn special_at(first: char, rest: &[char]) -> Option<Taken>
    ensures value { result ≡ special_at first rest.now }
    ensures some { IfSome result (λ taken. taken.len ≡ 1) }
{
    if opens(first, rest) {
        return None;
    }
    Some(Taken {
        class: Class::Special,
        len: 1,
    })
}

/// Why nothing fits at the place, where this text is left.
fn cause_at(text: &[char], place: usize) -> LexError
    ensures { result ≡ cause_of text.now place }
{
    let [first, rest @ ..] = text else {
        return LexError::BadLexeme { place };
    };
    if opens(*first, rest) {
        return LexError::OpenComment { place };
    }
    match kind_of(*first) {
        Kind::Digit => LexError::LiteralTooWide { place },
        _ => LexError::BadLexeme { place },
    }
}
