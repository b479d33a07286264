//! Which words may stand for a module and for a name.
ghost use Rattle.std.specs.Prelude.{◌≡◌, chars, not, true, false, MatchOption};
ghost use Rattle.std.specs.List.{list_all, list_any};
ghost use Rattle.std.specs.Str.{is_utf8};
ghost use Rattle.hr_rules.specs.Letters.{is_blank, is_in_name};
ghost use Rattle.hr_script.specs.Texts as spec;

use hr_rules::{Kind, is_blank_char, is_in_name, kind_of};

/// The text that the bytes are in UTF-8.
fn text_of(bytes: &[u8]) -> Option<&str>
    ensures { MatchOption result (is_utf8 bytes.now ≡ false) (λ text. (is_utf8 bytes.now ≡ true) × (text.now ≡ bytes.now)) }
{
    match std::str::from_utf8(bytes) {
        Ok(text) => Some(text),
        Err(_) => None,
    }
}

/// Whether the bytes are a text in UTF-8.
pub(crate) fn is_utf8(bytes: &[u8]) -> bool
    ensures { result ≡ is_utf8 bytes.now }
{
    match text_of(bytes) {
        Some(_) => true,
        None => false,
    }
}

/// Whether the word is a conid of the lexical rules.
#[tactic(auto, unfolding(crate::specs::Texts::is_module_name))]
pub fn is_module_name(word: &[u8]) -> bool
    ensures { result ≡ spec.is_module_name word.now }
{
    match text_of(word) {
        Some(text) => begins_large(text) && has_name_alone(text),
        None => false,
    }
}

fn begins_large(text: &str) -> bool
    ensures { result ≡ spec.begins_large (chars text.now) }
{
    match text.chars().next() {
        Some(first) => kind_of(first) == Kind::Large,
        None => false,
    }
}

fn has_name_alone(text: &str) -> bool
    ensures { result ≡ list_all is_in_name (chars text.now) }
{
    text.chars().all(|c| is_in_name(c))
}

/// Whether the word has a character, and none that is a blank of the lexical rules.
#[tactic(auto, unfolding(crate::specs::Texts::is_word))]
pub fn is_word(word: &[u8]) -> bool
    ensures { result ≡ spec.is_word word.now }
{
    match text_of(word) {
        Some(text) => !text.is_empty() && !has_blank(text),
        None => false,
    }
}

fn has_blank(text: &str) -> bool
    ensures { result ≡ list_any is_blank (chars text.now) }
{
    text.chars().any(|c| is_blank_char(c))
}
